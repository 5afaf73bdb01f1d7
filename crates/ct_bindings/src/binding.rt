//! What statements are bound to.

use crate::catalogue::{tables, variables};
use ct_bind::bind;
use ct_lexer::{LexError, tokens};
use ct_parser::parse;
use ct_types::{Bound, Keep, Memory, Refusal, Stmt};
use std::alloc::Global;

/// How many bytes a text may have.
const ROOM: usize = 65_536;

/// The tree of a text, or its refusal.
pub(crate) fn read(alloc: Global, text: &str) -> Result<Stmt, Refusal> {
    if text.len() > ROOM {
        return Err(Refusal::Memory);
    }
    match tokens(alloc, text) {
        Ok(found) => parse(alloc, text, found.as_slice()),
        Err(LexError::Syntax(at)) => Err(Refusal::Syntax { at }),
        Err(LexError::Memory) => Err(Refusal::Memory),
    }
}

/// What a statement is bound to.
fn bound(alloc: Global, keep: Option<Keep>, stmt: &Stmt) -> Result<Bound, Refusal> {
    let tables = tables(alloc)?;
    let variables = variables(alloc)?;
    bind(alloc, stmt, tables.as_slice(), keep, &variables)
}

fn bound_text(alloc: Global, bound: &Bound) -> Result<String, Memory> {
    Ok(format!(in alloc; "{bound:?}")?)
}

fn refusal_text(alloc: Global, refusal: &Refusal) -> Result<String, Memory> {
    Ok(format!(in alloc; "{refusal:?}")?)
}

/// Lets go of a value at once, so that it is not held across a return.
fn let_go<T: Drop>(_held: T) {}

/// What is bound, in the form of `Debug`.
fn shown_bound(alloc: Global, bound: Bound) -> Result<String, Memory> {
    let text = bound_text(alloc, &bound);
    let_go(bound);
    text
}

/// A refusal, in the form of `Debug`.
fn shown_refusal(alloc: Global, refusal: Refusal) -> Result<String, Memory> {
    let text = refusal_text(alloc, &refusal);
    let_go(refusal);
    text
}

/// What a statement is bound to, or its refusal.
fn shown(alloc: Global, keep: Option<Keep>, stmt: &Stmt) -> Result<String, Memory> {
    match bound(alloc, keep, stmt) {
        Ok(bound) => shown_bound(alloc, bound),
        Err(refusal) => shown_refusal(alloc, refusal),
    }
}

/// What a statement that is let go of is bound to, or its refusal.
fn shown_of(alloc: Global, keep: Option<Keep>, stmt: Stmt) -> Result<String, Memory> {
    let text = shown(alloc, keep, &stmt);
    let_go(stmt);
    text
}

/// What a text is bound to, or its refusal, in the form of `Debug`.
pub(crate) fn answer_of(alloc: Global, keep: Option<Keep>, text: &str) -> Result<String, Memory> {
    match read(alloc, text) {
        Ok(stmt) => shown_of(alloc, keep, stmt),
        Err(refusal) => shown_refusal(alloc, refusal),
    }
}
