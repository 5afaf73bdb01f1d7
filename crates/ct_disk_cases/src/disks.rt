//! The rows of disks in memory.

ghost use Rattle.std.specs.Prelude.{◌≡◌, ◌<◌, ◌≤◌, length, true};
ghost use Rattle.ct_disk.specs.Mem.{content_of};

use crate::bytes::bytes_of;
use crate::calls::{Answer, Call, Place, call_of, cut, len, read, sync, write, write_told};
use crate::openings::{self, find};
use crate::stop::Stop;
use ct_disk::MemDisk;
use ct_faults::{Disk, Sink};
use std::alloc::Global;
use std::mem;

/// A step of a disk in memory.
#[derive(Drop)]
enum Step {
    Call(Call),
    Fail(u64),
    Fuse(u64),
    Crash(Vec<u8>),
    Show(u8),
    Open,
    Find,
    Append(Vec<u8>),
}

fn step_of(alloc: Global, text: &str) -> Result<Step, Stop> {
    let (word, rest) = text.split_once(' ').unwrap_or((text, ""));
    match word {
        "fail" => Ok(Step::Fail(rest.parse::<u64>()?)),
        "fuse" => Ok(Step::Fuse(rest.parse::<u64>()?)),
        "crash" => Ok(Step::Crash(bytes_of(alloc, rest)?)),
        "show" => Ok(Step::Show(rest.parse::<u8>()?)),
        "open" => Ok(Step::Open),
        "find" => Ok(Step::Find),
        "append" => Ok(Step::Append(bytes_of(alloc, rest)?)),
        _ => Ok(Step::Call(call_of(alloc, word, rest)?)),
    }
}

/// Whether the area goes up to this place.
fn is_there(disk: &MemDisk, place: Place) -> bool
    ensures area { result ≡ true → place.area < 6 }
    ensures at { result ≡ true → place.at ≤ length (content_of disk.now place.area) }
{
    place.area < 6 && place.at <= disk.image(place.area).len() as u64
}

/// Makes a call.
fn make_call(alloc: Global, disk: &mut MemDisk, call: &Call) -> Result<Answer, Stop> {
    match call {
        Call::Write(place, bytes) if is_there(disk, *place) => {
            write(disk, *place, bytes.as_slice())
        }
        Call::Cut(place) if is_there(disk, *place) => cut(disk, *place),
        Call::Sync => sync(disk),
        Call::Read(place, count) if is_there(disk, *place) => read(alloc, disk, *place, *count),
        Call::Len(area) if *area < 6 => Ok(len(disk, *area)),
        Call::Faults => Ok(Answer::Number(disk.faults())),
        _ => Err(Stop),
    }
}

/// Puts the disk after a crash in the place of this one.
fn crash(alloc: Global, disk: &mut MemDisk, torn: &[u8]) -> Result<Answer, Stop> {
    let before = mem::replace(disk, MemDisk::empty(alloc)?);
    match before.crash(torn) {
        Ok(after) => {
            *disk = after;
            Ok(Answer::Nothing)
        }
        Err(_) => Err(Stop),
    }
}

/// Puts the disk of an answer in its place.
fn put_back(disk: &mut MemDisk, made: (MemDisk, Result<Answer, Stop>)) -> Result<Answer, Stop> {
    let (after, answer) = made;
    *disk = after;
    answer
}

/// Shows an area.
fn show(alloc: Global, disk: &MemDisk, area: u8) -> Result<Answer, Stop> {
    if area >= 6 {
        return Err(Stop);
    }
    Ok(Answer::Bytes(Vec::from_slice(alloc, disk.image(area))?))
}

/// Makes a step.
fn make(alloc: Global, disk: &mut MemDisk, step: &Step) -> Result<Answer, Stop> {
    match step {
        Step::Call(call) => make_call(alloc, disk, call),
        Step::Fail(call) => {
            disk.fail_at(*call)?;
            Ok(Answer::Nothing)
        }
        Step::Fuse(after) => {
            disk.fuse(*after);
            Ok(Answer::Nothing)
        }
        Step::Crash(torn) => crash(alloc, disk, torn.as_slice()),
        Step::Show(area) => show(alloc, disk, *area),
        Step::Open => {
            let before = mem::replace(disk, MemDisk::empty(alloc)?);
            put_back(disk, openings::open(alloc, before))
        }
        Step::Find => find(alloc, disk),
        Step::Append(payload) => {
            let before = mem::replace(disk, MemDisk::empty(alloc)?);
            put_back(disk, openings::append(alloc, before, payload.as_slice()))
        }
    }
}

/// Makes a step, and writes what it tells.
fn write_step<K: Sink>(
    alloc: Global,
    disk: &mut MemDisk,
    text: &str,
    out: &mut K,
) -> Result<(), Stop> {
    let step = step_of(alloc, text)?;
    let answer = make(alloc, disk, &step)?;
    write_told(alloc, text, &answer, out)
}

fn write_steps<K: Sink>(
    alloc: Global,
    disk: &mut MemDisk,
    steps: &str,
    out: &mut K,
) -> Result<(), Stop> {
    for step in steps.split("; ") {
        write_step(alloc, disk, step, out)?;
    }
    Ok(())
}

/// A disk of which one area has these bytes.
fn disk_of(alloc: Global, area: u8, bytes: &[u8]) -> Result<MemDisk, Stop> {
    if area >= 6 {
        return Err(Stop);
    }
    let mut disk = MemDisk::empty(alloc)?;
    match disk.set(area, bytes) {
        Ok(()) => Ok(disk),
        Err(_) => Err(Stop),
    }
}

/// The disk of a row.
fn first_disk(alloc: Global, text: &str) -> Result<MemDisk, Stop> {
    let (area, bytes) = text.split_once(' ').unwrap_or((text, ""));
    disk_of(
        alloc,
        area.parse::<u8>()?,
        bytes_of(alloc, bytes)?.as_slice(),
    )
}

/// Writes what a row of a disk in memory comes to.
pub(crate) fn write_disk<K: Sink>(alloc: Global, text: &str, out: &mut K) -> Result<(), Stop> {
    let (first, steps) = text.split_once("; ").unwrap_or((text, ""));
    match first_disk(alloc, first) {
        Ok(mut disk) => write_steps(alloc, &mut disk, steps, out),
        Err(Stop) => Err(Stop),
    }
}
