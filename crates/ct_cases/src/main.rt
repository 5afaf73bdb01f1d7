//! The cases: a program that runs many small scripts and writes what each comes to, so that what a script can say is tested by
//! data, which costs no proof.
//!
//! Standard input is UTF-8 text in lines, in the form
//!
//! ```text
//! what stands here is for the reader
//! ==== the name of a case
//! its script
//! ==== the name of the next case
//! its script
//! ```
//!
//! A line that begins with `==== ` is the head of a case; the first line of the input is none. The script of a case is what stands
//! between the end of its head and the line end before the next head, byte by byte: so it has no LF at its end, but for an empty
//! line before the next head. Each script is run by itself, from the empty database.
//!
//! Written are, for each case, its head, what the run adds to its sink, and, where the status of the run is not 0, a line `status N`.
//! The program ends with 0, but with 1 where the input is none of that form, or memory was wanting.
#![tactic(auto)]

use ct_faults::{MemSink, MemSource, NoDisk, Sink, StdSink, StdSource, read_all, write_all};
use ct_run::{NoGate, run_top};
use ct_types::{Bin, Memory};
use std::alloc::Global;
use std::process::ExitCode;
use std::sync::Wait;
use std::thread::Threads;

/// How many bytes a run of a case may write.
const ROOM: u64 = 100_000;

/// What stands before the name of a case.
const HEAD: &str = "\n==== ";

/// Runs a script into a sink: its status.
fn status_of<R: Threads + Wait>(
    rt: &R,
    alloc: Global,
    script: &str,
    sink: &mut MemSink,
) -> Result<u8, Memory> {
    let mut source = MemSource::new(alloc, script.as_bytes(), &[])?;
    let mut words = Vec::new(alloc);
    words.push(String::from_str(alloc, "run")?)?;
    let done = run_top(
        rt,
        alloc,
        words.as_slice(),
        &mut source,
        sink,
        NoDisk::new(),
        &NoGate,
    );
    Ok(done.status)
}

/// Runs the script of a case, and writes its head and what it comes to. A case is its name, a line end and its script.
fn run_case<R: Threads + Wait, K: Sink>(
    rt: &R,
    alloc: Global,
    case: &str,
    out: &mut K,
) -> Result<(), Memory> {
    let (name, script) = case.split_once('\n').unwrap_or((case, ""));
    let mut sink = MemSink::new(alloc, ROOM, &[])?;
    let status = status_of(rt, alloc, script, &mut sink)?;
    let head = format!(in alloc; "==== {name}\n")?;
    let _ = write_all(out, head.as_bytes());
    let _ = write_all(out, sink.bytes());
    if status != 0 {
        let line = format!(in alloc; "status {status}\n")?;
        let _ = write_all(out, line.as_bytes());
    }
    Ok(())
}

/// Runs all cases of the input.
fn run_cases<R: Threads + Wait, K: Sink>(
    rt: &R,
    alloc: Global,
    input: &Bin,
    out: &mut K,
) -> Result<(), Memory> {
    let Ok(text) = str::from_utf8(input.as_bytes()) else {
        return Err(Memory);
    };
    for case in text.split(HEAD).skip(1) {
        run_case(rt, alloc, case, out)?;
    }
    Ok(())
}

fn main(rt: HostRuntime) -> ExitCode {
    let Ok(input) = read_all(rt.alloc(), &mut StdSource::new(&rt)) else {
        return ExitCode::FAILURE;
    };
    match run_cases(&rt, rt.alloc(), &input, &mut StdSink::new(&rt)) {
        Ok(()) => ExitCode::SUCCESS,
        Err(Memory) => ExitCode::FAILURE,
    }
}
