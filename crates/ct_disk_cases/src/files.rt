//! The rows of disks over files.

use crate::calls::{Answer, Call, call_of, cut, len, read, sync, write, write_told};
use crate::stop::Stop;
use ct_disk::{AtError, FileDisk};
use ct_faults::{Disk, Sink, write_all};
use std::alloc::Global;
use std::fs::File;
use std::rt::Files;

/// Makes a call.
fn make_call(alloc: Global, disk: &mut FileDisk, call: &Call) -> Result<Answer, Stop> {
    match call {
        Call::Write(place, bytes) if place.area < 6 => write(disk, *place, bytes.as_slice()),
        Call::Cut(place) if place.area < 6 => cut(disk, *place),
        Call::Sync => sync(disk),
        Call::Read(place, count) if place.area < 6 => read(alloc, disk, *place, *count),
        Call::Len(area) if *area < 6 => Ok(len(disk, *area)),
        Call::Faults => Ok(Answer::Number(disk.faults())),
        _ => Err(Stop),
    }
}

/// Makes a call, and writes what it tells.
fn write_call<K: Sink>(
    alloc: Global,
    disk: &mut FileDisk,
    text: &str,
    out: &mut K,
) -> Result<(), Stop> {
    let (word, rest) = text.split_once(' ').unwrap_or((text, ""));
    let call = call_of(alloc, word, rest)?;
    let answer = make_call(alloc, disk, &call)?;
    write_told(alloc, text, &answer, out)
}

fn write_calls<K: Sink>(
    alloc: Global,
    disk: &mut FileDisk,
    calls: &str,
    out: &mut K,
) -> Result<(), Stop> {
    for call in calls.split("; ") {
        write_call(alloc, disk, call, out)?;
    }
    Ok(())
}

/// Writes what a row of a disk over files comes to.
pub(crate) fn write_files<R: Files<File = File>, K: Sink>(
    rt: &R,
    alloc: Global,
    text: &str,
    out: &mut K,
) -> Result<(), Stop> {
    let (folder, calls) = text.split_once("; ").unwrap_or((text, ""));
    match FileDisk::at(rt, alloc, folder) {
        Ok(mut disk) => write_calls(alloc, &mut disk, calls, out),
        Err(AtError::Failed) => {
            let _ = write_all(out, b"  Failed\n");
            Ok(())
        }
        Err(AtError::Memory) => Err(Stop),
    }
}
