ghost use Rattle.std.specs.Prelude.{◌≡◌, ◌<◌, ◌≤◌, ◌↔◌, length, take, IfOk, IfErr, IsErrOf};
ghost use Rattle.byteorder.specs.Endian.{little_bytes};
ghost use Rattle.ct_faults.specs.Causes.{Rose};
ghost use Rattle.ct_faults.specs.Disk.{Same, Runs, TakesRoom};
ghost use Rattle.ct_log.specs.Reading.{StandsAt, IsOpen, IsWholeExactly, ReadsAs, IsNoForeign};

use crate::log::OPEN;
use crate::{OpenFault, read_area};
use byteorder::{ByteOrder, LittleEndian};
use ct_faults::Disk;
use ct_types::{Bin, List, Memory, push};
use std::alloc::Global;

/// What stands at a gate.
#[derive(Clone, Copy, Debug, PartialEq, Eq)]
pub enum Next {
    /// A whole record. Its payload goes from one offset to another, where the next gate stands.
    Record { from: usize, to: usize },
    /// A closed gate: the log ends.
    Closed,
    /// No gate, or an open one in front of a record that runs past the end, or that has no gate behind it.
    Broken,
}

/// How a log ends.
#[derive(Clone, Copy, Debug, PartialEq, Eq)]
pub enum LogEnd {
    /// By a closed gate, the last of so many bytes.
    Closed { used: u64 },
    /// Not by a closed gate: at this offset there is no gate, or an open one in front of a record that runs past the end,
    /// or that has no gate behind it.
    Broken { offset: u64 },
}

/// The payloads of a log, and how it ends.
#[derive(Debug, Drop)]
pub struct Scanned {
    pub payloads: List<Bin>,
    pub end: LogEnd,
}

/// The length that stands first.
fn length_at(bytes: &[u8]) -> u32
    requires { 4 ≤ length bytes.now }
    ensures { take 4 bytes.now ≡ little_bytes 4 result }
{
    LittleEndian::read_u32(bytes)
}

/// The length of the payload of the record behind an open gate, which this begins with, where the record is whole and has a
/// gate behind it.
fn whole_record(bytes: &[u8]) -> Option<usize>
    requires { IsOpen bytes.now }
    ensures { IsWholeExactly bytes.now result }
{
    if bytes.len() < 6 {
        return None;
    }
    let size = length_at(&bytes[1..]) as usize;
    if size < bytes.len() - 5 {
        Some(size)
    } else {
        None
    }
}

/// What stands at the gate at this offset of a log, in an area of these bytes. It takes the same time wherever that is.
pub fn next_record(bytes: &[u8], at: usize) -> Next
    requires { at ≤ length bytes.now }
    ensures { StandsAt at bytes.now result }
{
    if at == bytes.len() {
        return Next::Broken;
    }
    if bytes[at] != OPEN {
        return Next::Closed;
    }
    match whole_record(&bytes[at..]) {
        Some(size) => Next::Record {
            from: at + 5,
            to: at + 5 + size,
        },
        None => Next::Broken,
    }
}

/// The payloads of the log in an area of these bytes, and how it ends.
fn records(alloc: Global, bytes: &[u8]) -> Result<Scanned, Memory>
    ensures { IfOk result (λ scanned. ReadsAs bytes.now scanned.payloads scanned.end) }
{
    let mut payloads = List::new(alloc);
    let mut at = 0;
    loop {
        match next_record(bytes, at) {
            Next::Record { from, to } => {
                push(&mut payloads, Bin::of(alloc, &bytes[from..to])?)?;
                at = to;
            }
            Next::Closed => {
                let end = LogEnd::Closed {
                    used: at as u64 + 1,
                };
                return Ok(Scanned { payloads, end });
            }
            Next::Broken => {
                let end = LogEnd::Broken { offset: at as u64 };
                return Ok(Scanned { payloads, end });
            }
        }
    }
}

/// Reads the log of an area: the payloads of its records, and how it ends. Nothing is told of those of a disk that is not
/// honest. It takes time by the length of the area.
///
/// `DiskFault` comes only where the disk's count of faults rose. The answer is never `Foreign`, since a caller for whom a
/// broken log is a fault may find one in an earlier record.
pub fn scan<D: Disk>(alloc: Global, disk: &mut D, area: u8) -> Result<Scanned, OpenFault>
    requires { area < 6 }
    ensures reads { D.honest disk.old → IfOk result (λ scanned. ReadsAs (D.content disk.old area) scanned.payloads scanned.end) }
    ensures honest { D.honest disk.old ↔ D.honest disk.new }
    ensures content { D.honest disk.old → D.content disk.new ≡ D.content disk.old }
    ensures images { D.honest disk.old → Runs (D.clock disk.old) (D.clock disk.new) (D.images disk.old) (D.images disk.new) Same }
    ensures room { TakesRoom 0 0 (D.room_calls disk.old) (D.room_bytes disk.old) (D.room_calls disk.new) (D.room_bytes disk.new) }
    ensures later { D.faults disk.old ≤ D.faults disk.new }
    ensures fault { IsErrOf result OpenFault.DiskFault → Rose (D.faults disk.old) (D.faults disk.new) }
    ensures not_foreign { IfErr result IsNoForeign }
{
    let bytes = read_area(alloc, disk, area)?;
    Ok(records(alloc, bytes.as_bytes())?)
}
