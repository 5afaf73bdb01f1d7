use crate::{Copies, Key, Memory, Text};
use std::alloc::Global;

/// Why a statement is refused. A refusal with a number has that of SQL Server's error; that 8152 is among them with a
/// name, and the named refusals, are this project's own.
#[derive(Debug, Drop)]
pub enum Refusal {
    /// 102: the text is no sentence. The offset, in bytes, of the first token at which no sentence goes on.
    Syntax { at: u32 },
    /// 207: no source has the column.
    NoColumn { name: Text },
    /// 208: there is no such table.
    NoObject { name: Text },
    /// 515: NULL for a column that is not nullable.
    NotNull { column: Text },
    /// 1205: chosen to end so that other sessions go on.
    Victim,
    /// 1222: another session's pending writes hold a target key, or a key of the target table.
    Blocked { table: Text, key: Key, holder: u8 },
    /// 2627: the first key that repeats.
    Duplicate { table: Text, key: Key },
    /// 2714: there is such a table already.
    Exists { name: Text },
    /// 3902: COMMIT without a transaction.
    NoCommit,
    /// 3903: ROLLBACK without a transaction.
    NoRollback,
    /// 3960: a transaction, by its number, changed the table or a target row after the view.
    Conflict { table: Text, xdes: u64 },
    /// 8115: a number does not fit.
    Overflow,
    /// 8152: a text or bytes too long for a column, a context or a variable.
    TooLong { column: Text },
    /// 9002: the log has used so many bytes, and the entry needs so many more than are left.
    LogFull { used: u64, needed: u64 },
    /// CHANGETABLE or DISABLE of a table that is not tracked.
    NotTracked { name: Text },
    /// ENABLE of a tracked table; for the database, named `database`, tracking that is on already.
    AlreadyTracked { name: Text },
    /// The database's tracking is off.
    TrackingOff,
    /// A statement that may not stand in a transaction.
    InTransaction,
    /// A step of a checkpoint where none is open.
    NoCheckpoint,
    /// A pull without a look of that table.
    NoLook,
    /// Kinds that do not go together.
    TypeClash,
    /// A retention outside 1 to 2,147,483,647.
    BadRetention,
    /// A call of the disk failed.
    DiskFault,
    /// Want of memory, the one refusal whose coming no clause states.
    Memory,
    /// Tracking cannot go off while tables are tracked.
    TablesTracked { count: u32 },
    /// Another session owns the checkpoint.
    CheckpointBusy { owner: u8 },
    /// The least rule of a table's definition that is broken.
    BadTable { rule: u8 },
    /// Two sources have the column or one name, or a column stands twice in a list.
    Ambiguous { name: Text },
    /// The variable is not declared.
    NoVariable { name: Text },
    /// The variable is declared already.
    VariableExists { name: Text },
    /// An UPDATE of a key column.
    KeyUpdate { name: Text },
    /// A row of VALUES with another number of values than the list of columns.
    CountClash { wanted: u32, got: u32 },
    /// More than the limit: of depth, rows of VALUES, columns or tables.
    TooMany { limit: u32 },
    /// No version or transaction number is left.
    Exhausted { limit: u64 },
    /// An earlier event of this opening, by its number, met a disk fault.
    Stopped { event: u64 },
    /// A command of a script, as a copy or an advance of the clock, which this server does not carry out yet.
    NotBuilt,
}

impl From<Memory> for Refusal {
    ghost use Rattle.std.specs.Prelude.{◌≡◌};
    ghost use Rattle.ct_types.specs.declared.refusal.Refusal.TheVariants.{Memory as out_of_memory};

    ghost from_gives = { λ _ e. e ≡ out_of_memory };

    fn from(_: Memory) -> Refusal {
        Refusal::Memory
    }
}

impl Copies for Refusal {
    fn copy(&self, alloc: Global) -> Result<Refusal, Memory> {
        match self {
            Refusal::Syntax { at } => Ok(Refusal::Syntax { at: *at }),
            Refusal::NoColumn { name } => Ok(Refusal::NoColumn {
                name: name.copy(alloc)?,
            }),
            Refusal::NoObject { name } => Ok(Refusal::NoObject {
                name: name.copy(alloc)?,
            }),
            Refusal::NotNull { column } => Ok(Refusal::NotNull {
                column: column.copy(alloc)?,
            }),
            Refusal::Victim => Ok(Refusal::Victim),
            Refusal::Blocked { table, key, holder } => Ok(Refusal::Blocked {
                table: table.copy(alloc)?,
                key: key.copy(alloc)?,
                holder: *holder,
            }),
            Refusal::Duplicate { table, key } => Ok(Refusal::Duplicate {
                table: table.copy(alloc)?,
                key: key.copy(alloc)?,
            }),
            Refusal::Exists { name } => Ok(Refusal::Exists {
                name: name.copy(alloc)?,
            }),
            Refusal::NoCommit => Ok(Refusal::NoCommit),
            Refusal::NoRollback => Ok(Refusal::NoRollback),
            Refusal::Conflict { table, xdes } => Ok(Refusal::Conflict {
                table: table.copy(alloc)?,
                xdes: *xdes,
            }),
            Refusal::Overflow => Ok(Refusal::Overflow),
            Refusal::TooLong { column } => Ok(Refusal::TooLong {
                column: column.copy(alloc)?,
            }),
            Refusal::LogFull { used, needed } => Ok(Refusal::LogFull {
                used: *used,
                needed: *needed,
            }),
            Refusal::NotTracked { name } => Ok(Refusal::NotTracked {
                name: name.copy(alloc)?,
            }),
            Refusal::AlreadyTracked { name } => Ok(Refusal::AlreadyTracked {
                name: name.copy(alloc)?,
            }),
            Refusal::TrackingOff => Ok(Refusal::TrackingOff),
            Refusal::InTransaction => Ok(Refusal::InTransaction),
            Refusal::NoCheckpoint => Ok(Refusal::NoCheckpoint),
            Refusal::NoLook => Ok(Refusal::NoLook),
            Refusal::TypeClash => Ok(Refusal::TypeClash),
            Refusal::BadRetention => Ok(Refusal::BadRetention),
            Refusal::DiskFault => Ok(Refusal::DiskFault),
            Refusal::Memory => Ok(Refusal::Memory),
            Refusal::TablesTracked { count } => Ok(Refusal::TablesTracked { count: *count }),
            Refusal::CheckpointBusy { owner } => Ok(Refusal::CheckpointBusy { owner: *owner }),
            Refusal::BadTable { rule } => Ok(Refusal::BadTable { rule: *rule }),
            Refusal::Ambiguous { name } => Ok(Refusal::Ambiguous {
                name: name.copy(alloc)?,
            }),
            Refusal::NoVariable { name } => Ok(Refusal::NoVariable {
                name: name.copy(alloc)?,
            }),
            Refusal::VariableExists { name } => Ok(Refusal::VariableExists {
                name: name.copy(alloc)?,
            }),
            Refusal::KeyUpdate { name } => Ok(Refusal::KeyUpdate {
                name: name.copy(alloc)?,
            }),
            Refusal::CountClash { wanted, got } => Ok(Refusal::CountClash {
                wanted: *wanted,
                got: *got,
            }),
            Refusal::TooMany { limit } => Ok(Refusal::TooMany { limit: *limit }),
            Refusal::Exhausted { limit } => Ok(Refusal::Exhausted { limit: *limit }),
            Refusal::Stopped { event } => Ok(Refusal::Stopped { event: *event }),
            Refusal::NotBuilt => Ok(Refusal::NotBuilt),
        }
    }
}
