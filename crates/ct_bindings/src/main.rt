//! The bindings: a program that reads many statements and writes what each is bound to, or its refusal, so that binding is tested by
//! data, which costs no proof. What a script shows is a case of `ct_cases`.
//!
//! Standard input is UTF-8 text in lines. A line that begins with one of these words and a blank is a row, and what stands behind the
//! blank is its statement; every other line is for the reader.
//!
//! | Word | What its statement comes to |
//! |---|---|
//! | `on` | what it is bound to while tracking is on, or its refusal |
//! | `off` | the same while tracking is off |
//!
//! There are the tables `t (id INT, a INT, b NVARCHAR(10), c VARBINARY(8))`, which is tracked, `u (id BIGINT, x INT)` and `[a.b] (k INT)`,
//! with their first columns as their keys, and the variables `@n INT` and `@s NVARCHAR(5)`.
//!
//! Written are, for each row, the row as it stands, and a line of two blanks and what its statement comes to, in the form of `Debug`.
//!
//! The program ends with 0, but with 1 where the input is no UTF-8, or memory was wanting.
#![tactic(auto)]

mod binding;
mod catalogue;

use crate::binding::answer_of;
use ct_faults::{StdSink, StdSource, read_all, write_all};
use ct_types::{Bin, Keep, Memory};
use std::alloc::Global;
use std::process::ExitCode;

/// The settings while tracking is on.
const ON: Keep = Keep {
    retention: 60,
    auto: true,
};

/// Appends a row and what its statement comes to.
fn push_answer(
    alloc: Global,
    keep: Option<Keep>,
    line: &str,
    text: &str,
    out: &mut String,
) -> Result<(), Memory> {
    let answer = answer_of(alloc, keep, text)?;
    out.push_str(line)?;
    out.push_str("\n  ")?;
    out.push_str(answer.as_str())?;
    out.push_str("\n")?;
    Ok(())
}

/// Appends a row and what it comes to; nothing for a line that is no row.
fn push_row(alloc: Global, line: &str, out: &mut String) -> Result<(), Memory> {
    match line.split_once(' ') {
        Some(("on", text)) => push_answer(alloc, Some(ON), line, text, out),
        Some(("off", text)) => push_answer(alloc, None, line, text, out),
        _ => Ok(()),
    }
}

/// What all rows of the input come to.
fn answers(alloc: Global, input: &Bin) -> Result<String, Memory> {
    let Ok(text) = str::from_utf8(input.as_bytes()) else {
        return Err(Memory);
    };
    let mut out = String::new(alloc);
    for line in text.split('\n') {
        push_row(alloc, line, &mut out)?;
    }
    Ok(out)
}

fn main(rt: HostRuntime) -> ExitCode {
    let Ok(input) = read_all(rt.alloc(), &mut StdSource::new(&rt)) else {
        return ExitCode::FAILURE;
    };
    match answers(rt.alloc(), &input) {
        Ok(text) => {
            let _ = write_all(&mut StdSink::new(&rt), text.as_bytes());
            ExitCode::SUCCESS
        }
        Err(Memory) => ExitCode::FAILURE,
    }
}
