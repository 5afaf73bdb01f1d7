ghost use Rattle.std.specs.Prelude.{◌≡◌, ◌<◌, ◌≤◌, min, length, take_while, reverse};
ghost use Rattle.std.specs.List.{list_all};
ghost use Rattle.std.specs.Char.{is_ascii_digit};
ghost use Rattle.std.specs.Str.{IsUtf8};
ghost use Rattle.ct_script.specs.Forms.{is_blank, is_number, number_of, trimmed, head_text, headed, numbered, directive, form_of};

use crate::kind::Kind;

/// Whether a byte is a blank: a space or a tab.
fn is_blank(byte: u8) -> bool
    ensures { result ≡ is_blank byte }
{
    byte == b' ' || byte == b'\t'
}

/// Whether all bytes are blanks.
fn are_blank(bytes: &[u8]) -> bool
    ensures { result ≡ list_all is_blank bytes.now }
{
    bytes.iter().all(|byte| is_blank(*byte))
}

/// Whether all bytes are digits.
fn are_digits(bytes: &[u8]) -> bool
    ensures { result ≡ list_all is_ascii_digit bytes.now }
{
    bytes.iter().all(|byte| byte.is_ascii_digit())
}

/// How many blanks bytes begin with.
fn blanks_before(bytes: &[u8]) -> usize
    ensures { result ≡ length (take_while is_blank bytes.now) }
{
    bytes.iter().take_while(|byte| is_blank(**byte)).count()
}

/// How many blanks bytes end with.
fn blanks_after(bytes: &[u8]) -> usize
    ensures { result ≡ length (take_while is_blank (reverse bytes.now)) }
{
    bytes
        .iter()
        .rev()
        .take_while(|byte| is_blank(**byte))
        .count()
}

/// Whether bytes are digits without a leading zero, where 0 alone is allowed.
#[tactic(auto, unfolding(crate::specs::Forms::is_number))]
fn is_number(digits: &[u8]) -> bool
    ensures { result ≡ is_number digits.now }
{
    !digits.is_empty() && are_digits(digits) && (digits.len() == 1 || digits[0] != b'0')
}

/// The number that digits write, or 99 where it is greater.
fn number_to_99(digits: &[u8]) -> u8
    ensures { result ≡ min 99 (number_of digits.now) }
{
    let mut number: u8 = 0;
    for digit in digits {
        let next = u32::from(number) * 10 + u32::from(digit.saturating_sub(b'0'));
        number = next.min(99) as u8;
    }
    number
}

/// A text without the blanks at both ends.
#[tactic(auto, unfolding(crate::specs::Forms::trimmed))]
fn trimmed(text: &str) -> &str
    ensures { result.now ≡ trimmed text.now }
{
    let from = blanks_before(text.as_bytes());
    let rest = &text[from..];
    let to = rest.len() - blanks_after(rest.as_bytes());
    &rest[..to]
}

/// The text on a statement's first line.
#[tactic(auto, unfolding(crate::specs::Forms::head_text, crate::specs::Forms::trimmed))]
pub(crate) fn head_text(line: &str) -> &str
    ensures { result.now ≡ head_text line.now }
{
    match line.split_once(':') {
        Some((_, text)) => trimmed(text),
        None => "",
    }
}

/// What a first line of a statement is, by its session and its text.
#[tactic(auto, unfolding(crate::specs::Forms::headed))]
fn headed(session: u8, text: &str) -> Kind
    ensures { result ≡ headed session text.now }
{
    if session == 0 || session > 32 {
        Kind::Fault(3)
    } else if text.as_bytes().first() == Some(&b'@') {
        Kind::Fault(4)
    } else {
        Kind::Head(session)
    }
}

/// What a line is that begins with neither a blank nor `#` nor `--`.
#[tactic(auto, unfolding(crate::specs::Forms::numbered, crate::specs::Forms::head_text, crate::specs::Forms::headed))]
fn numbered(line: &str) -> Kind
    ensures { result ≡ numbered line.now }
{
    match line.split_once(':') {
        Some((digits, text)) => {
            if is_number(digits.as_bytes()) {
                headed(number_to_99(digits.as_bytes()), trimmed(text))
            } else {
                Kind::Fault(2)
            }
        }
        None => Kind::Fault(2),
    }
}

/// What a line is that begins with `#`.
#[tactic(auto, unfolding(crate::specs::Forms::directive))]
fn directive(line: &str) -> Kind
    ensures { result ≡ directive line.now }
{
    if line == "#phase" {
        Kind::Mark
    } else {
        Kind::Fault(6)
    }
}

/// What a line is that is UTF-8.
#[tactic(auto, unfolding(crate::specs::Forms::form_of))]
pub(crate) fn form_of(line: &str) -> Kind
    ensures { result ≡ form_of line.now }
{
    let bytes = line.as_bytes();
    if are_blank(bytes) || line.starts_with("--") {
        Kind::Ignored
    } else if bytes[0] == b'#' {
        directive(line)
    } else if is_blank(bytes[0]) {
        Kind::More
    } else {
        numbered(line)
    }
}
