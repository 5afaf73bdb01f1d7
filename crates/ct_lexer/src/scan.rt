ghost use Rattle.std.specs.Prelude.{◌≡◌, ◌∷◌, [], MatchOption, Some};
ghost use Rattle.ct_lexer.specs.Scanning as scanning;
ghost use Rattle.ct_lexer.specs.Tokens as forms;
ghost use Rattle.ct_lexer.specs.Tokens.{IsBareName, IsBracketed, IsVariable, IsNumber, IsQuoted, IsText, IsBytes, IsSign, IsToken, IsGap};
ghost use Rattle.ct_lexer.specs.declared.byte.ByteClass.TheVariants as class;
ghost use Rattle.ct_lexer.specs.Bytes.{Stops};
ghost use Rattle.ct_lexer.specs.Cutting.{Never};
ghost use Rattle.ct_lexer.specs.Scanning.{Begins};

use crate::TokenKind;
use crate::byte::ByteClass;

/// The longest name, in bytes: a bare one, or what stands in the brackets of a bracketed one.
const MAX_NAME: usize = 128;

/// The first byte, and the bytes behind it.
fn split(bytes: &[u8]) -> Option<(u8, &[u8])>
    ensures { MatchOption result (bytes.now ≡ []) (λ p. bytes.now ≡ p.0 ∷ p.1.now) }
{
    let (first, more) = bytes.split_first()?;
    Some((*first, more))
}

/// How long the bare name at the front is.
fn name_len(bytes: &[u8]) -> Option<usize>
    ensures { MatchOption result (Never IsBareName bytes.now) (Begins IsBareName bytes.now) }
{
    let len = ByteClass::Name.run(bytes);
    if ByteClass::Letter.starts(bytes) && len <= MAX_NAME {
        Some(len)
    } else {
        None
    }
}

/// How long the variable at the front is: `@` and a bare name.
#[tactic(auto, using(crate::proofs::Names::variable_begins))]
fn variable_len(bytes: &[u8]) -> Option<usize>
    ensures { MatchOption result (Never IsVariable bytes.now) (Begins IsVariable bytes.now) }
{
    let (first, more) = split(bytes)?;
    if first != b'@' {
        return None;
    }
    let len = name_len(more)?;
    Some(1 + len)
}

/// How long the number at the front is.
fn number_len(bytes: &[u8]) -> Option<usize>
    ensures { MatchOption result (Never IsNumber bytes.now) (Begins IsNumber bytes.now) }
{
    let len = ByteClass::Digit.run(bytes);
    if len > 0 { Some(len) } else { None }
}

/// How long the name in brackets at the front is.
#[tactic(auto, using(crate::proofs::Names::bracket_begins))]
fn bracketed_len(bytes: &[u8]) -> Option<usize>
    ensures { MatchOption result (Never IsBracketed bytes.now) (Begins IsBracketed bytes.now) }
{
    let (first, more) = split(bytes)?;
    let inside = ByteClass::Bracketed.run(more);
    let (_, behind) = more.split_at(inside);
    let closed = ByteClass::CloseBracket.starts(behind);
    if first == b'[' && closed && 0 < inside && inside <= MAX_NAME {
        Some(inside + 2)
    } else {
        None
    }
}

/// The bytes behind the quote at the front.
fn past_quote(bytes: &[u8]) -> Option<&[u8]>
    ensures { MatchOption result (Stops class.Quote bytes.now) (λ behind. bytes.now ≡ 39 ∷ behind.now) }
{
    let (first, behind) = split(bytes)?;
    if first == b'\'' { Some(behind) } else { None }
}

/// How long the part from the quote at the front to the one that closes it is. Two quotes in a row are one inside.
fn quoted_len(bytes: &[u8]) -> Option<usize>
    ensures { MatchOption result (Never IsQuoted bytes.now) (Begins IsQuoted bytes.now) }
{
    let mut rest = past_quote(bytes)?;
    let mut len = 1;
    while let Some((byte, more)) = split(rest) {
        if byte != b'\'' {
            len += 1;
            rest = more;
        } else if let Some(behind) = past_quote(more) {
            len += 2;
            rest = behind;
        } else {
            return Some(len + 1);
        }
    }
    None
}

/// How long the text at the front is, with its mark.
#[tactic(auto, using(crate::proofs::Quotes::text_begins, crate::proofs::Quotes::plain_begins))]
fn text_len(bytes: &[u8]) -> Option<usize>
    ensures { MatchOption result (Never IsText bytes.now) (Begins IsText bytes.now) }
{
    let (first, more) = split(bytes)?;
    if ByteClass::TextMark.has(first) {
        let len = quoted_len(more)?;
        Some(1 + len)
    } else {
        quoted_len(bytes)
    }
}

/// How long the bytes at the front are: `0x` and pairs of hexadecimal digits.
fn bytes_len(bytes: &[u8]) -> Option<usize>
    ensures { MatchOption result (Never IsBytes bytes.now) (Begins IsBytes bytes.now) }
{
    let (zero, marked) = split(bytes)?;
    let (mark, more) = split(marked)?;
    let marks = ByteClass::BytesMark.has(mark);
    let digits = ByteClass::HexDigit.run(more);
    if zero == b'0' && marks && digits % 2 == 0 {
        Some(2 + digits)
    } else {
        None
    }
}

/// Whether the first byte and the next one are a sign of two.
fn begins_pair(first: u8, more: &[u8]) -> bool
    ensures { result ≡ forms.begins_pair first more.now }
{
    match (first, more.first()) {
        (b'<', Some(next)) => *next == b'>' || *next == b'=',
        (b'>' | b'!', Some(next)) => *next == b'=',
        _ => false,
    }
}

/// Whether the first byte and the next one begin a comment.
fn begins_comment(first: u8, more: &[u8]) -> bool
    ensures { result ≡ forms.begins_comment first more.now }
{
    match more.first() {
        Some(next) => first == b'-' && *next == b'-',
        None => false,
    }
}

/// How long the sign at the front is.
#[tactic(auto, using(crate::proofs::Marks::pair_begins, crate::proofs::Marks::single_begins))]
fn sign_len(bytes: &[u8]) -> Option<usize>
    ensures { MatchOption result (Never IsSign bytes.now) (Begins IsSign bytes.now) }
{
    let (first, more) = split(bytes)?;
    if begins_pair(first, more) {
        Some(2)
    } else if ByteClass::Sign.has(first) && !begins_comment(first, more) {
        Some(1)
    } else {
        None
    }
}

/// The only kind that a token at the front may have, by its first two bytes.
fn kind_at(bytes: &[u8]) -> Option<TokenKind>
    ensures { result ≡ scanning.kind_at bytes.now }
{
    let (first, more) = split(bytes)?;
    if ByteClass::Quote.has(first)
        || ByteClass::TextMark.has(first) && ByteClass::Quote.starts(more)
    {
        Some(TokenKind::Text)
    } else if first == b'0' && ByteClass::BytesMark.starts(more) {
        Some(TokenKind::Bytes)
    } else if ByteClass::Letter.has(first) {
        Some(TokenKind::Name)
    } else if ByteClass::Digit.has(first) {
        Some(TokenKind::Number)
    } else if first == b'@' {
        Some(TokenKind::Variable)
    } else if first == b'[' {
        Some(TokenKind::Bracketed)
    } else if begins_pair(first, more)
        || ByteClass::Sign.has(first) && !begins_comment(first, more)
    {
        Some(TokenKind::Sign)
    } else {
        None
    }
}

/// How long the token of this kind at the front is, where its first bytes tell of this kind.
fn token_len(kind: TokenKind, bytes: &[u8]) -> Option<usize>
    requires { scanning.kind_at bytes.now ≡ Some kind }
    ensures { MatchOption result (Never (IsToken kind) bytes.now) (Begins (IsToken kind) bytes.now) }
{
    match kind {
        TokenKind::Name => name_len(bytes),
        TokenKind::Bracketed => bracketed_len(bytes),
        TokenKind::Variable => variable_len(bytes),
        TokenKind::Number => number_len(bytes),
        TokenKind::Text => text_len(bytes),
        TokenKind::Bytes => bytes_len(bytes),
        TokenKind::Sign => sign_len(bytes),
    }
}

/// The kind and the length of the token at the front. Each of its bytes is looked at a few times at most.
pub fn token_at(bytes: &[u8]) -> Option<(TokenKind, usize)>
    ensures { MatchOption result ((kind : TokenKind) → Never (IsToken kind) bytes.now)
        (λ found. Begins (IsToken found.0) bytes.now found.1) }
{
    let kind = kind_at(bytes)?;
    let len = token_len(kind, bytes)?;
    Some((kind, len))
}

/// How long the blank or the comment at the front is.
pub fn gap_len(bytes: &[u8]) -> Option<usize>
    ensures { MatchOption result (Never IsGap bytes.now) (Begins IsGap bytes.now) }
{
    let (first, more) = split(bytes)?;
    if ByteClass::Blank.has(first) {
        Some(1)
    } else if begins_comment(first, more) {
        Some(1 + ByteClass::Comment.run(more))
    } else {
        None
    }
}
