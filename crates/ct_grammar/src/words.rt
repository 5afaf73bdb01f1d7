ghost use Rattle.std.specs.Prelude.{◌≡◌, ◌++◌, IfOk, OnOk, string_bytes};
ghost use Rattle.ct_grammar.specs.Words as spec;
ghost use Rattle.ct_grammar.specs.Lexemes.{Ends};

use crate::Kind;
use ct_types::{Bin, Memory, Text};
use std::alloc::Global;

/// A name, without its brackets if it has them.
#[tactic(auto, unfolding(crate::specs::Words::name_in))]
pub fn name_in(kind: Kind, word: &str) -> &str
    requires { Ends word.now }
    ensures { result.now ≡ spec.name_in kind word.now }
{
    match kind {
        Kind::Bracketed => inner(word),
        _ => word,
    }
}

/// What stands between the first character and the last.
fn inner(word: &str) -> &str
    requires { Ends word.now }
    ensures { result.now ≡ spec.inner word.now }
{
    if word.len() < 2 {
        return "";
    }
    &word[1..word.len() - 1]
}

/// How far the reading of a text literal has come.
#[derive(Clone, Copy, Debug, PartialEq, Eq)]
enum Place {
    BeforeQuote,
    Inside,
    /// Behind a quote that ends the text, unless another follows.
    BehindQuote,
    Ended,
}

/// The characters of a text literal, where two quotes in a row have become one.
pub fn text_in(alloc: Global, word: &str) -> Result<Text, Memory>
    ensures { IfOk result (λ text. text ≡ spec.text_in word.now) }
{
    let mut text = String::with_capacity(alloc, word.len().saturating_sub(2))?;
    let mut place = Place::BeforeQuote;
    for c in word.chars() {
        let (next, shown) = step(place, c);
        push_if(&mut text, shown, c)?;
        place = next;
    }
    Ok(Text::from_string(text))
}

fn push_if(text: &mut String, shown: bool, c: char) -> Result<(), Memory>
    ensures { OnOk result (string_bytes text.new ≡ string_bytes text.old ++ spec.added shown c) }
{
    if shown {
        text.push(c)?;
    }
    Ok(())
}

/// Where the reading is after a character, and whether the character belongs to the text.
fn step(place: Place, c: char) -> (Place, bool)
    ensures { result ≡ spec.step place c }
{
    let quote = c == '\'';
    match place {
        Place::BeforeQuote if quote => (Place::Inside, false),
        Place::BeforeQuote => (Place::BeforeQuote, false),
        Place::Inside if quote => (Place::BehindQuote, false),
        Place::Inside => (Place::Inside, true),
        Place::BehindQuote if quote => (Place::Inside, true),
        Place::BehindQuote | Place::Ended => (Place::Ended, false),
    }
}

/// The number that a hexadecimal digit stands for.
fn hex_digit(digit: u8) -> u8
    ensures { result ≡ spec.hex_digit digit }
{
    match digit {
        0..=57 => digit.saturating_sub(48),
        58..=96 => digit.saturating_sub(55) % 16,
        _ => (digit - 87) % 16,
    }
}

/// The bytes that hexadecimal digits behind `0x` spell.
pub fn bytes_in(alloc: Global, word: &str) -> Result<Bin, Memory>
    ensures { IfOk result (λ bytes. bytes ≡ spec.bytes_in word.now) }
{
    let digits = word.as_bytes();
    let pairs = (digits.len() / 2).saturating_sub(1);
    let mut bytes = Vec::with_capacity(alloc, pairs)?;
    for at in 0..pairs {
        bytes.push(hex_digit(digits[2 * at + 2]) * 16 + hex_digit(digits[2 * at + 3]))?;
    }
    Ok(Bin::from_vec(bytes))
}
