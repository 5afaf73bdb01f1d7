ghost use Rattle.std.specs.Prelude.{◌≡◌, ◌++◌, ◌<◌, OnOk, IfOk, codes, string_bytes, flat_map, encode_utf8};
ghost use Rattle.ct_machine.specs.Transcript.{escaped, lower_hex, upper_hex, value_text, values_text, key_text, row_text};

use ct_types::{Bin, Key, Memory, Row, Value};
use std::alloc::{AllocError, Global};

/// Adds words that stand as they are.
pub(crate) fn add_words(out: &mut String, words: &str) -> Result<(), AllocError>
    ensures { OnOk result (string_bytes out.new ≡ string_bytes out.old ++ words.now) }
{
    out.push_str(words)
}

/// Adds a control character, by its code.
#[tactic(auto, using(crate::proofs::Escapes::lower_hex_shown))]
fn add_control(out: &mut String, code: u32) -> Result<(), AllocError>
    requires { code < 256 }
    ensures { OnOk result (string_bytes out.new ≡ string_bytes out.old ++ (codes "\\x" ++ lower_hex code)) }
{
    write!(out, "\\x{code:02x}")
}

/// Adds a character of a text between quotes.
fn add_char(out: &mut String, c: char) -> Result<(), AllocError>
    ensures { OnOk result (string_bytes out.new ≡ string_bytes out.old ++ flat_map escaped (encode_utf8 c)) }
{
    if c == '\'' {
        add_words(out, "''")
    } else if c == '\\' {
        add_words(out, "\\\\")
    } else if c.is_ascii_control() {
        add_control(out, u32::from(c))
    } else {
        out.push(c)
    }
}

fn add_escaped(out: &mut String, text: &str) -> Result<(), AllocError>
    ensures { OnOk result (string_bytes out.new ≡ string_bytes out.old ++ flat_map escaped text.now) }
{
    for c in text.chars() {
        add_char(out, c)?;
    }
    Ok(())
}

#[tactic(auto, using(crate::proofs::Escapes::upper_hex_shown))]
fn add_byte(out: &mut String, byte: u8) -> Result<(), AllocError>
    ensures { OnOk result (string_bytes out.new ≡ string_bytes out.old ++ upper_hex byte) }
{
    write!(out, "{byte:02X}")
}

fn add_bytes(out: &mut String, bytes: &[u8]) -> Result<(), AllocError>
    ensures { OnOk result (string_bytes out.new ≡ string_bytes out.old ++ flat_map upper_hex bytes.now) }
{
    for byte in bytes {
        add_byte(out, *byte)?;
    }
    Ok(())
}

fn add_value(out: &mut String, value: &Value) -> Result<(), AllocError>
    ensures { OnOk result (string_bytes out.new ≡ string_bytes out.old ++ value_text value.now) }
{
    match value {
        Value::Null => out.push_str("NULL"),
        Value::Int(number) => write!(out, "{number}"),
        Value::Text(text) => {
            out.push_str("'")?;
            add_escaped(out, text.as_str())?;
            out.push_str("'")
        }
        Value::Bytes(bytes) => {
            out.push_str("0x")?;
            add_bytes(out, bytes.as_bytes())
        }
    }
}

fn add_values(out: &mut String, by: &str, values: &[Value]) -> Result<(), AllocError>
    ensures { OnOk result (string_bytes out.new ≡ string_bytes out.old ++ values_text by.now values.now) }
{
    if let [first, more @ ..] = values {
        add_value(out, first)?;
        for value in more {
            out.push_str(by)?;
            add_value(out, value)?;
        }
    }
    Ok(())
}

pub(crate) fn add_key(out: &mut String, key: &Key) -> Result<(), AllocError>
    ensures { OnOk result (string_bytes out.new ≡ string_bytes out.old ++ key_text key.now) }
{
    add_values(out, ", ", key.0.as_slice())
}

pub(crate) fn add_rows(out: &mut String, rows: &[Row]) -> Result<(), AllocError>
    ensures { OnOk result (string_bytes out.new ≡ string_bytes out.old ++ flat_map row_text rows.now) }
{
    for row in rows {
        add_values(out, " | ", row.0.as_slice())?;
        out.push_str("\n")?;
    }
    Ok(())
}

/// The text of a value, in UTF-8: `NULL`, a decimal number, a text between quotes with its quotes and backslashes
/// doubled and its control characters as `\x` and two hexadecimal digits, or `0x` and the bytes in upper-case
/// hexadecimal digits. Only memory may be wanting.
///
/// The forms are this project's own, after the literals of T-SQL.
pub fn print_value(alloc: Global, value: &Value) -> Result<Bin, Memory>
    ensures { IfOk result (λ text. text ≡ value_text value.now) }
{
    let mut out = String::new(alloc);
    add_value(&mut out, value)?;
    Ok(Bin::from_vec(out.into_bytes()))
}
