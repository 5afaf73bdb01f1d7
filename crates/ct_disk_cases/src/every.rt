//! The rows of disks of which each call fails in turn.

use crate::disks::write_disk;
use crate::stop::Stop;
use ct_faults::{MemSink, Sink, write_all};
use std::alloc::Global;

/// The most calls that are made to fail in turn.
const MOST_CALLS: u64 = 1000;

/// The most bytes that a row may tell.
const MOST_BYTES: u64 = 1_000_000;

/// What a row of a disk in memory tells.
fn told(alloc: Global, row: &str) -> Result<MemSink, Stop> {
    let mut out = MemSink::new(alloc, MOST_BYTES, &[])?;
    write_disk(alloc, row, &mut out)?;
    Ok(out)
}

/// Whether a call failed, by what a row tells.
fn has_failed(told: &MemSink) -> bool {
    match str::from_utf8(told.bytes()) {
        Ok(text) => text.split_once("Failed").is_some(),
        Err(_) => false,
    }
}

/// Writes what a row tells, behind what it told before, where it is not the same.
fn write_other<K: Sink>(told: &[u8], last: &[u8], out: &mut K) {
    if told == last {
        return;
    }
    if !last.is_empty() {
        let _ = write_all(out, b"  or\n");
    }
    let _ = write_all(out, told);
}

/// Writes what a row comes to whose `fail *` is each number in turn, up to the first at which no call fails.
pub(crate) fn write_every<K: Sink>(alloc: Global, text: &str, out: &mut K) -> Result<(), Stop> {
    let Some((before, after)) = text.split_once("fail *") else {
        return Err(Stop);
    };
    let mut last = MemSink::new(alloc, 0, &[])?;
    for call in 1..=MOST_CALLS {
        let row = format!(in alloc; "{before}fail {call}{after}")?;
        let this = told(alloc, row.as_str())?;
        write_other(this.bytes(), last.bytes(), out);
        if !has_failed(&this) {
            return Ok(());
        }
        last = this;
    }
    Err(Stop)
}
