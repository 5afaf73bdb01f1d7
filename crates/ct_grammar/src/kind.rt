ghost use Rattle.std.specs.Prelude.{◌≡◌, ◌++◌};
ghost use Rattle.std.specs.List.{filter};
ghost use Rattle.ct_grammar.specs.Kinds as spec;
ghost use Rattle.ct_grammar.specs.Lengths.{is_spelled_in};

use ct_lexer::TokenKind;

/// What a token is to the rules: one kind for each word and sign that they name, and one for all else of a sort.
#[derive(Clone, Copy, Debug, PartialEq, Eq)]
pub enum Kind {
    // Words that stand for themselves alone, unless they are in brackets.
    Alter,
    And,
    As,
    Asc,
    Begin,
    By,
    Commit,
    Constraint,
    Create,
    Cross,
    Database,
    Declare,
    Delete,
    Desc,
    From,
    Inner,
    Insert,
    Into,
    Is,
    Join,
    Key,
    Left,
    Not,
    Null,
    On,
    Or,
    Order,
    Outer,
    Primary,
    Right,
    Rollback,
    Select,
    Set,
    Table,
    Tran,
    Transaction,
    Truncate,
    Update,
    Values,
    Where,
    With,
    // Words that are names too, where a rule asks for a name.
    AllowSnapshotIsolation,
    Apply,
    AutoCleanup,
    BigInt,
    Changes,
    ChangeTable,
    ChangeRetention,
    ChangeTracking,
    ChangeTrackingContext,
    Committed,
    Days,
    Disable,
    Enable,
    Hours,
    Int,
    Isolation,
    Level,
    LockTimeout,
    Minutes,
    NVarChar,
    Off,
    Read,
    ReadCommittedSnapshot,
    Snapshot,
    TrackColumnsUpdated,
    VarBinary,
    Version,
    CurrentVersion,
    MinValidVersion,
    IsColumnInMask,
    ObjectId,
    ColumnProperty,
    IsNull,
    /// A name that is no word of the rules.
    Unlisted,
    /// A name in brackets, whatever its word.
    Bracketed,
    /// A name that begins with `@`.
    Variable,
    /// Digits, other than `0` alone.
    Number,
    /// `0` alone.
    Zero,
    /// Characters between quotes.
    Text,
    /// Hexadecimal digits behind `0x`.
    Bytes,
    /// `<>`
    Different,
    /// `!=`
    Unlike,
    /// `<=`
    AtMost,
    /// `>=`
    AtLeast,
    /// `(`
    Open,
    /// `)`
    Close,
    /// `,`
    Comma,
    /// `.`
    Dot,
    /// `;`
    Semicolon,
    /// `=`
    Equal,
    /// `<`
    Less,
    /// `>`
    More,
    /// `+`
    Plus,
    /// `-`
    Minus,
    /// `*`
    Star,
    /// No sign of the rules.
    Other,
}

impl Kind {
    /// How a word or a sign of the rules is spelled, and nothing for what has many spellings.
    #[tactic(auto, unfolding(crate::specs::Kinds::spelling))]
    fn spelling(self) -> &'static str
        ensures { result.now ≡ spec.spelling self }
    {
        match self {
            Kind::Alter => "ALTER",
            Kind::And => "AND",
            Kind::As => "AS",
            Kind::Asc => "ASC",
            Kind::Begin => "BEGIN",
            Kind::By => "BY",
            Kind::Commit => "COMMIT",
            Kind::Constraint => "CONSTRAINT",
            Kind::Create => "CREATE",
            Kind::Cross => "CROSS",
            Kind::Database => "DATABASE",
            Kind::Declare => "DECLARE",
            Kind::Delete => "DELETE",
            Kind::Desc => "DESC",
            Kind::From => "FROM",
            Kind::Inner => "INNER",
            Kind::Insert => "INSERT",
            Kind::Into => "INTO",
            Kind::Is => "IS",
            Kind::Join => "JOIN",
            Kind::Key => "KEY",
            Kind::Left => "LEFT",
            Kind::Not => "NOT",
            Kind::Null => "NULL",
            Kind::On => "ON",
            Kind::Or => "OR",
            Kind::Order => "ORDER",
            Kind::Outer => "OUTER",
            Kind::Primary => "PRIMARY",
            Kind::Right => "RIGHT",
            Kind::Rollback => "ROLLBACK",
            Kind::Select => "SELECT",
            Kind::Set => "SET",
            Kind::Table => "TABLE",
            Kind::Tran => "TRAN",
            Kind::Transaction => "TRANSACTION",
            Kind::Truncate => "TRUNCATE",
            Kind::Update => "UPDATE",
            Kind::Values => "VALUES",
            Kind::Where => "WHERE",
            Kind::With => "WITH",
            Kind::AllowSnapshotIsolation => "ALLOW_SNAPSHOT_ISOLATION",
            Kind::Apply => "APPLY",
            Kind::AutoCleanup => "AUTO_CLEANUP",
            Kind::BigInt => "BIGINT",
            Kind::Changes => "CHANGES",
            Kind::ChangeTable => "CHANGETABLE",
            Kind::ChangeRetention => "CHANGE_RETENTION",
            Kind::ChangeTracking => "CHANGE_TRACKING",
            Kind::ChangeTrackingContext => "CHANGE_TRACKING_CONTEXT",
            Kind::Committed => "COMMITTED",
            Kind::Days => "DAYS",
            Kind::Disable => "DISABLE",
            Kind::Enable => "ENABLE",
            Kind::Hours => "HOURS",
            Kind::Int => "INT",
            Kind::Isolation => "ISOLATION",
            Kind::Level => "LEVEL",
            Kind::LockTimeout => "LOCK_TIMEOUT",
            Kind::Minutes => "MINUTES",
            Kind::NVarChar => "NVARCHAR",
            Kind::Off => "OFF",
            Kind::Read => "READ",
            Kind::ReadCommittedSnapshot => "READ_COMMITTED_SNAPSHOT",
            Kind::Snapshot => "SNAPSHOT",
            Kind::TrackColumnsUpdated => "TRACK_COLUMNS_UPDATED",
            Kind::VarBinary => "VARBINARY",
            Kind::Version => "VERSION",
            Kind::CurrentVersion => "CHANGE_TRACKING_CURRENT_VERSION",
            Kind::MinValidVersion => "CHANGE_TRACKING_MIN_VALID_VERSION",
            Kind::IsColumnInMask => "CHANGE_TRACKING_IS_COLUMN_IN_MASK",
            Kind::ObjectId => "OBJECT_ID",
            Kind::ColumnProperty => "COLUMNPROPERTY",
            Kind::IsNull => "ISNULL",
            Kind::Different => "<>",
            Kind::Unlike => "!=",
            Kind::AtMost => "<=",
            Kind::AtLeast => ">=",
            Kind::Open => "(",
            Kind::Close => ")",
            Kind::Comma => ",",
            Kind::Dot => ".",
            Kind::Semicolon => ";",
            Kind::Equal => "=",
            Kind::Less => "<",
            Kind::More => ">",
            Kind::Plus => "+",
            Kind::Minus => "-",
            Kind::Star => "*",
            Kind::Zero => "0",
            _ => "",
        }
    }

    /// Whether the word is spelled so, where the case of ASCII letters does not count.
    #[tactic(auto, unfolding(crate::specs::Kinds::spells))]
    fn spells(self, word: &str) -> bool
        ensures { result ≡ spec.spells self word.now }
    {
        word.eq_ignore_ascii_case(self.spelling())
    }
}

/// The first of these kinds that is spelled so, where the case of ASCII letters does not count.
fn kind_in(kinds: &[Kind], word: &str, otherwise: Kind) -> Kind
    ensures { result ≡ spec.kind_in kinds.now word.now otherwise }
{
    for kind in kinds {
        if kind.spells(word) {
            return *kind;
        }
    }
    otherwise
}

// The words of the rules, by how many bytes they have.
const OF_THREE: &[Kind] = &[
    Kind::And,
    Kind::Asc,
    Kind::Key,
    Kind::Not,
    Kind::Set,
    Kind::Int,
    Kind::Off,
];

const OF_FOUR: &[Kind] = &[
    Kind::Desc,
    Kind::From,
    Kind::Into,
    Kind::Join,
    Kind::Left,
    Kind::Null,
    Kind::Tran,
    Kind::With,
    Kind::Days,
    Kind::Read,
];

const OF_FIVE: &[Kind] = &[
    Kind::Alter,
    Kind::Begin,
    Kind::Cross,
    Kind::Inner,
    Kind::Order,
    Kind::Outer,
    Kind::Right,
    Kind::Table,
    Kind::Where,
    Kind::Apply,
    Kind::Hours,
    Kind::Level,
];

const OF_SIX: &[Kind] = &[
    Kind::Commit,
    Kind::Create,
    Kind::Delete,
    Kind::Insert,
    Kind::Select,
    Kind::Update,
    Kind::Values,
    Kind::BigInt,
    Kind::Enable,
    Kind::IsNull,
];

const OF_SEVEN: &[Kind] = &[
    Kind::Declare,
    Kind::Primary,
    Kind::Changes,
    Kind::Disable,
    Kind::Minutes,
    Kind::Version,
];

const OF_EIGHT: &[Kind] = &[
    Kind::Database,
    Kind::Rollback,
    Kind::Truncate,
    Kind::NVarChar,
    Kind::Snapshot,
];

const OF_NINE: &[Kind] = &[
    Kind::Committed,
    Kind::Isolation,
    Kind::VarBinary,
    Kind::ObjectId,
];

/// The words of the rules of so many bytes.
#[tactic(auto, unfolding(crate::specs::Kinds::spelling))]
fn words_of(length: usize) -> &'static [Kind]
    ensures { result.now ≡ filter (is_spelled_in length) (spec.reserved ++ spec.unreserved) }
{
    match length {
        2 => &[Kind::As, Kind::By, Kind::Is, Kind::On, Kind::Or],
        3 => OF_THREE,
        4 => OF_FOUR,
        5 => OF_FIVE,
        6 => OF_SIX,
        7 => OF_SEVEN,
        8 => OF_EIGHT,
        9 => OF_NINE,
        10 => &[Kind::Constraint],
        11 => &[Kind::Transaction, Kind::ChangeTable],
        12 => &[Kind::AutoCleanup, Kind::LockTimeout],
        14 => &[Kind::ColumnProperty],
        15 => &[Kind::ChangeTracking],
        16 => &[Kind::ChangeRetention],
        21 => &[Kind::TrackColumnsUpdated],
        23 => &[Kind::ChangeTrackingContext, Kind::ReadCommittedSnapshot],
        24 => &[Kind::AllowSnapshotIsolation],
        31 => &[Kind::CurrentVersion],
        33 => &[Kind::MinValidVersion, Kind::IsColumnInMask],
        _ => &[],
    }
}

/// The signs of the rules of so many bytes.
#[tactic(auto, unfolding(crate::specs::Kinds::spelling))]
fn signs_of(length: usize) -> &'static [Kind]
    ensures { result.now ≡ filter (is_spelled_in length) spec.signs }
{
    match length {
        1 => &[
            Kind::Open,
            Kind::Close,
            Kind::Comma,
            Kind::Dot,
            Kind::Semicolon,
            Kind::Equal,
            Kind::Less,
            Kind::More,
            Kind::Plus,
            Kind::Minus,
            Kind::Star,
        ],
        2 => &[Kind::Different, Kind::Unlike, Kind::AtMost, Kind::AtLeast],
        _ => &[],
    }
}

/// The kind of a token, by its form and its text.
pub fn kind_of(form: TokenKind, word: &str) -> Kind
    ensures { result ≡ spec.kind_of form word.now }
{
    match form {
        TokenKind::Name => kind_in(words_of(word.len()), word, Kind::Unlisted),
        TokenKind::Bracketed => Kind::Bracketed,
        TokenKind::Variable => Kind::Variable,
        TokenKind::Number if Kind::Zero.spells(word) => Kind::Zero,
        TokenKind::Number => Kind::Number,
        TokenKind::Text => Kind::Text,
        TokenKind::Bytes => Kind::Bytes,
        TokenKind::Sign => kind_in(signs_of(word.len()), word, Kind::Other),
    }
}
