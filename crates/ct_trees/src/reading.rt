//! The rows of tokens and of trees.

use ct_faults::{Sink, write_all};
use ct_lexer::{LexError, Token, tokens};
use ct_parser::parse;
use ct_types::{List, Memory, Refusal, Stmt};
use std::alloc::Global;

/// How many bytes a text may have.
const ROOM: usize = 65_536;

/// The tokens of a text.
fn cut(alloc: Global, text: &str) -> Result<List<Token>, LexError> {
    if text.len() > ROOM {
        return Err(LexError::Memory);
    }
    tokens(alloc, text)
}

/// The tree of a text, or its refusal.
pub(crate) fn read(alloc: Global, text: &str) -> Result<Stmt, Refusal> {
    if text.len() > ROOM {
        return Err(Refusal::Memory);
    }
    match tokens(alloc, text) {
        Ok(found) => parse(alloc, text, found.as_slice()),
        Err(LexError::Syntax(at)) => Err(Refusal::Syntax { at }),
        Err(LexError::Memory) => Err(Refusal::Memory),
    }
}

/// Writes a line of two blanks and this text.
pub(crate) fn write_line<K: Sink>(text: &str, out: &mut K) {
    let _ = write_all(out, b"  ");
    let _ = write_all(out, text.as_bytes());
    let _ = write_all(out, b"\n");
}

/// A refusal in the form of `Debug`.
pub(crate) fn shown_refusal(alloc: Global, refusal: &Refusal) -> Result<String, Memory> {
    Ok(format!(in alloc; "{refusal:?}")?)
}

// ---- tokens

fn write_token<K: Sink>(
    alloc: Global,
    before: &str,
    token: Token,
    out: &mut K,
) -> Result<(), Memory> {
    let word = format!(in alloc; "{before}{:?} {}-{}", token.kind, token.from, token.to)?;
    let _ = write_all(out, word.as_bytes());
    Ok(())
}

/// Writes the line of the tokens of a text.
fn write_found<K: Sink>(alloc: Global, found: &[Token], out: &mut K) -> Result<(), Memory> {
    if found.is_empty() {
        let _ = write_all(out, b"  none");
    }
    let mut before = "  ";
    for token in found {
        write_token(alloc, before, *token, out)?;
        before = ", ";
    }
    let _ = write_all(out, b"\n");
    Ok(())
}

/// Writes the line of a text that has no tokens.
fn write_wrong<K: Sink>(alloc: Global, at: u32, out: &mut K) -> Result<(), Memory> {
    let line = format!(in alloc; "  wrong at {at}\n")?;
    let _ = write_all(out, line.as_bytes());
    Ok(())
}

/// Writes what a row of tokens comes to.
pub(crate) fn write_tokens<K: Sink>(alloc: Global, text: &str, out: &mut K) -> Result<(), Memory> {
    match cut(alloc, text) {
        Ok(found) => write_found(alloc, found.as_slice(), out),
        Err(LexError::Syntax(at)) => write_wrong(alloc, at, out),
        Err(LexError::Memory) => Err(Memory),
    }
}

// ---- trees

fn is_statement(alloc: Global, text: &str) -> bool {
    read(alloc, text).is_ok()
}

/// Whether a text is a statement, or faults at its end.
fn goes_on(alloc: Global, text: &str) -> bool {
    match read(alloc, text) {
        Ok(_) => true,
        Err(Refusal::Syntax { at }) => at as usize == text.len(),
        Err(_) => false,
    }
}

/// Whether what a text begins with goes on at this end.
fn goes_on_at(alloc: Global, text: &str, end: u32) -> bool {
    match text.get(..end as usize) {
        Some(front) => goes_on(alloc, front),
        None => false,
    }
}

fn write_end<K: Sink>(alloc: Global, end: u32, out: &mut K) -> Result<(), Memory> {
    let line = format!(in alloc; "  goes on wrongly after {end}\n")?;
    let _ = write_all(out, line.as_bytes());
    Ok(())
}

/// Writes a line for each of these tokens at whose end the text goes on wrongly.
fn write_ends<K: Sink>(
    alloc: Global,
    text: &str,
    found: &[Token],
    out: &mut K,
) -> Result<(), Memory> {
    for token in found {
        if !goes_on_at(alloc, text, token.to) {
            write_end(alloc, token.to, out)?;
        }
    }
    Ok(())
}

fn tree_of(alloc: Global, stmt: &Stmt) -> Result<String, Memory> {
    Ok(format!(in alloc; "{stmt:?}")?)
}

/// The tree of a text, or its refusal.
fn answer_of(alloc: Global, text: &str) -> Result<String, Memory> {
    match read(alloc, text) {
        Ok(stmt) => tree_of(alloc, &stmt),
        Err(refusal) => shown_refusal(alloc, &refusal),
    }
}

/// Writes the lines of the ends at which a text goes on wrongly.
fn write_wrong_ends<K: Sink>(alloc: Global, text: &str, out: &mut K) -> Result<(), Memory> {
    match cut(alloc, text) {
        Ok(found) => write_ends(alloc, text, found.as_slice(), out),
        Err(LexError::Syntax(_)) => Ok(()),
        Err(LexError::Memory) => Err(Memory),
    }
}

/// Writes what a row of trees comes to.
pub(crate) fn write_tree<K: Sink>(alloc: Global, text: &str, out: &mut K) -> Result<(), Memory> {
    let answer = answer_of(alloc, text)?;
    write_line(answer.as_str(), out);
    if is_statement(alloc, text) {
        write_wrong_ends(alloc, text, out)?;
    }
    Ok(())
}
