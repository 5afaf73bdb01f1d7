//! The disk cases: a program that reads rows of bytes and of steps over disks, and writes what each comes to, so that the bytes of
//! entries and pieces, the calls of disks, and what disks stand for, also after failures and crashes, are tested by data, which costs
//! no proof.
//!
//! Standard input is UTF-8 text in lines. A line that begins with one of these words and a blank is a row, and what stands behind
//! the blank is its text; every other line is for the reader.
//!
//! | Word | What its text comes to |
//! |---|---|
//! | `entry` | the entry whose spelling these bytes are, with the number of its bytes; or `NotCanonical` |
//! | `piece` | the piece with whose spelling these bytes begin, with the number of its bytes; or `NotCanonical` |
//! | `disk` | what the steps tell, of a disk in memory; before the first `; ` stands an area, with the bytes that it has at first |
//! | `every` | what such a row of a disk in memory tells when the one `fail *` in it is `fail 1`, then `fail 2`, up to the first number at which nothing fails; what a number tells stands there only where the number before told something else, with a line `or` between |
//! | `files` | what the calls tell, of a disk over the files of a folder, whose name stands before the first `; `; or `Failed` |
//!
//! Bytes are pairs of hexadecimal digits, with blanks anywhere between the pairs; before the pairs up to the next blank may stand `N*`,
//! which says that they come N times. Bytes are written so that a run of N equal ones is one such word, and no bytes are `none`.
//!
//! Steps have `; ` between them. `A` is the number of an area, `AT`, `N` and `LEN` are numbers, `BYTES` bytes.
//!
//! | Call | What it does | What it tells |
//! |---|---|---|
//! | `write A AT BYTES` | writes bytes from an offset on | |
//! | `cut A LEN` | cuts an area | |
//! | `sync` | syncs | |
//! | `read A AT N` | reads at most N bytes from an offset on | the bytes |
//! | `len A` | | the length of an area |
//! | `faults` | | how many calls failed; it is none of the calls that are counted |
//!
//! | Step of a disk in memory alone | What it does | What it tells |
//! |---|---|---|
//! | `fail N` | the call of this number is to fail | |
//! | `fuse N` | all calls past this number are to fail | |
//! | `crash BYTES` | a crash, which tears what was not synced with these bytes; with none it leaves what reads give. Calls are counted anew | |
//! | `show A` | | the bytes of an area |
//! | `find` | reads what the disk stands for, and writes nothing | the version of its database, the number of entries in its logs, and the used bytes of the last; or where it is foreign |
//! | `open` | opens the disk | the used bytes of its log, its slot and its database; or where it is foreign |
//! | `append BYTES` | opens the disk, and appends the entry that is spelled so | the used bytes of the log then; or `LogFull used N needed N`, or `no entry that applies`; or where the disk is foreign |
//!
//! Before each write, cut and sync the disk makes itself ready for it.
//!
//! Written are, for each row, the row as it stands, and a line of two blanks and what its text comes to. Entries, pieces, slots and
//! databases have the form of `Debug`; behind an entry or a piece stands a line that tells how many bytes it has, and whether it is
//! spelled the same again. Of a disk there is a line `  STEP: ..` for each step that tells something; a call that fails tells
//! `Failed`, and so does an opening, a reading or an append of which a call failed.
//!
//! The program ends with 0, but with 1 where the input is no UTF-8, a row is not of its form, or memory was wanting.
#![tactic(auto)]

mod bytes;
mod calls;
mod disks;
mod entries;
mod every;
mod files;
mod openings;
mod pieces;
mod stop;

use crate::bytes::bytes_of;
use crate::disks::write_disk;
use crate::entries::write_entry;
use crate::every::write_every;
use crate::files::write_files;
use crate::pieces::write_piece;
use crate::stop::Stop;
use ct_faults::{Sink, StdSink, StdSource, read_all, write_all};
use ct_types::Bin;
use std::alloc::Global;
use std::fs::File;
use std::process::ExitCode;
use std::rt::Files;

/// Writes what the text of a row comes to.
fn write_answer<R: Files<File = File>, K: Sink>(
    rt: &R,
    alloc: Global,
    word: &str,
    text: &str,
    out: &mut K,
) -> Result<(), Stop> {
    match word {
        "entry" => write_entry(alloc, bytes_of(alloc, text)?.as_slice(), out),
        "piece" => write_piece(alloc, bytes_of(alloc, text)?.as_slice(), out),
        "disk" => write_disk(alloc, text, out),
        "every" => write_every(alloc, text, out),
        _ => write_files(rt, alloc, text, out),
    }
}

/// Writes a row and what its text comes to; nothing for a line that is no row.
fn write_row<R: Files<File = File>, K: Sink>(
    rt: &R,
    alloc: Global,
    line: &str,
    out: &mut K,
) -> Result<(), Stop> {
    let (word, text) = line.split_once(' ').unwrap_or(("", ""));
    if !matches!(word, "entry" | "piece" | "disk" | "every" | "files") {
        return Ok(());
    }
    let _ = write_all(out, line.as_bytes());
    let _ = write_all(out, b"\n");
    write_answer(rt, alloc, word, text, out)
}

/// Writes all rows of the input.
fn write_rows<R: Files<File = File>, K: Sink>(
    rt: &R,
    alloc: Global,
    input: &Bin,
    out: &mut K,
) -> Result<(), Stop> {
    let Ok(text) = str::from_utf8(input.as_bytes()) else {
        return Err(Stop);
    };
    for line in text.split('\n') {
        write_row(rt, alloc, line, out)?;
    }
    Ok(())
}

fn main(rt: HostRuntime) -> ExitCode {
    let Ok(input) = read_all(rt.alloc(), &mut StdSource::new(&rt)) else {
        return ExitCode::FAILURE;
    };
    match write_rows(&rt, rt.alloc(), &input, &mut StdSink::new(&rt)) {
        Ok(()) => ExitCode::SUCCESS,
        Err(Stop) => ExitCode::FAILURE,
    }
}
