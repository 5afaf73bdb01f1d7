//! The trees: a program that reads many short texts of the language and writes what each comes to, its tokens or its tree, so that
//! these are tested by data, which costs no proof.
//!
//! Standard input is UTF-8 text in lines. A line that begins with one of these words and a blank is a row, and what stands behind
//! the blank is its text; every other line is for the reader.
//!
//! | Word | What its text comes to |
//! |---|---|
//! | `tokens` | its tokens, each with its kind, its first byte and its end, or `none`; `wrong at N` where it has none for a fault at N |
//! | `tree` | the tree of the statement, or its refusal |
//!
//! In a text `¶` stands for LF and `←` for CR.
//!
//! Written are, for each row, the row as it stands, and a line of two blanks and what its text comes to; trees and refusals have the
//! form of `Debug`. Behind a tree stands, for each end N of a token up to which the text is neither a statement nor one that faults
//! exactly there, a line `  goes on wrongly after N`.
//!
//! The program ends with 0, but with 1 where the input is no UTF-8, or memory was wanting.
#![tactic(auto)]

mod reading;

use crate::reading::{write_tokens, write_tree};
use ct_faults::{Sink, StdSink, StdSource, read_all, write_all};
use ct_types::{Bin, Memory};
use std::alloc::Global;
use std::process::ExitCode;

/// The text that stands in a row, with its line ends.
fn unmarked(alloc: Global, marked: &str) -> Result<String, Memory> {
    let mut text = String::new(alloc);
    for mark in marked.chars() {
        text.push(match mark {
            '¶' => '\n',
            '←' => '\r',
            other => other,
        })?;
    }
    Ok(text)
}

/// Writes what the text of a row comes to.
fn write_answer<K: Sink>(alloc: Global, word: &str, text: &str, out: &mut K) -> Result<(), Memory> {
    if word == "tokens" {
        write_tokens(alloc, text, out)
    } else {
        write_tree(alloc, text, out)
    }
}

/// Writes a row and what its text comes to; nothing for a line that is no row.
fn write_row<K: Sink>(alloc: Global, line: &str, out: &mut K) -> Result<(), Memory> {
    let (word, marked) = line.split_once(' ').unwrap_or(("", ""));
    if word != "tokens" && word != "tree" {
        return Ok(());
    }
    let text = unmarked(alloc, marked)?;
    let _ = write_all(out, line.as_bytes());
    let _ = write_all(out, b"\n");
    write_answer(alloc, word, text.as_str(), out)
}

/// Writes all rows of the input.
fn write_rows<K: Sink>(alloc: Global, input: &Bin, out: &mut K) -> Result<(), Memory> {
    let Ok(text) = str::from_utf8(input.as_bytes()) else {
        return Err(Memory);
    };
    for line in text.split('\n') {
        write_row(alloc, line, out)?;
    }
    Ok(())
}

fn main(rt: HostRuntime) -> ExitCode {
    let Ok(input) = read_all(rt.alloc(), &mut StdSource::new(&rt)) else {
        return ExitCode::FAILURE;
    };
    match write_rows(rt.alloc(), &input, &mut StdSink::new(&rt)) {
        Ok(()) => ExitCode::SUCCESS,
        Err(Memory) => ExitCode::FAILURE,
    }
}
