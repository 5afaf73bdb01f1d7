//! Calls of any disk, and what they tell.

ghost use Rattle.std.specs.Prelude.{◌<◌, ◌≤◌, length};

use crate::bytes::{bytes_of, write_bytes};
use crate::stop::Stop;
use ct_faults::{Disk, Failed, Sink, write_all};
use std::alloc::Global;

/// What no offset and no count of bytes of a write may pass.
const MOST: u64 = 1_000_000_000;

/// A place in an area.
#[derive(Clone, Copy)]
pub(crate) struct Place {
    pub(crate) area: u8,
    pub(crate) at: u64,
}

/// A call of a disk.
#[derive(Drop)]
pub(crate) enum Call {
    Write(Place, Vec<u8>),
    /// A cut at this place.
    Cut(Place),
    Sync,
    /// A read of so many bytes.
    Read(Place, u16),
    Len(u8),
    Faults,
}

/// What a step tells.
#[derive(Drop)]
pub(crate) enum Answer {
    Nothing,
    Failed,
    Number(u64),
    Bytes(Vec<u8>),
    Text(String),
}

// ---- texts

/// A number, and what stands behind it.
fn number_of(text: &str) -> Result<(u64, &str), Stop> {
    let (number, rest) = text.split_once(' ').unwrap_or((text, ""));
    Ok((number.parse::<u64>()?, rest))
}

/// A place, and what stands behind it.
fn place_of(text: &str) -> Result<(Place, &str), Stop> {
    let (area, rest) = text.split_once(' ').unwrap_or((text, ""));
    let (at, rest) = number_of(rest)?;
    let area = area.parse::<u8>()?;
    Ok((Place { area, at }, rest))
}

/// The call of a step.
pub(crate) fn call_of(alloc: Global, word: &str, rest: &str) -> Result<Call, Stop> {
    match word {
        "write" => {
            let (place, rest) = place_of(rest)?;
            Ok(Call::Write(place, bytes_of(alloc, rest)?))
        }
        "cut" => {
            let (place, _) = place_of(rest)?;
            Ok(Call::Cut(place))
        }
        "sync" => Ok(Call::Sync),
        "read" => {
            let (place, rest) = place_of(rest)?;
            Ok(Call::Read(place, rest.parse::<u16>()?))
        }
        "len" => Ok(Call::Len(rest.parse::<u8>()?)),
        "faults" => Ok(Call::Faults),
        _ => Err(Stop),
    }
}

// ---- calls

/// What a call tells that gives nothing.
fn told(made: Result<(), Failed>) -> Answer {
    match made {
        Ok(()) => Answer::Nothing,
        Err(Failed) => Answer::Failed,
    }
}

pub(crate) fn write<D: Disk>(disk: &mut D, place: Place, bytes: &[u8]) -> Result<Answer, Stop>
    requires area { place.area < 6 }
    requires at { D.honest disk.old → place.at ≤ length (D.content disk.old place.area) }
{
    let size = bytes.len() as u64;
    if place.at > MOST || size > MOST {
        return Err(Stop);
    }
    disk.ready(1, size)?;
    Ok(told(disk.write_at(place.area, place.at, bytes)))
}

pub(crate) fn cut<D: Disk>(disk: &mut D, place: Place) -> Result<Answer, Stop>
    requires area { place.area < 6 }
    requires at { D.honest disk.old → place.at ≤ length (D.content disk.old place.area) }
{
    disk.ready(1, 0)?;
    Ok(told(disk.cut(place.area, place.at)))
}

pub(crate) fn sync<D: Disk>(disk: &mut D) -> Result<Answer, Stop> {
    disk.ready(1, 0)?;
    Ok(told(disk.sync()))
}

pub(crate) fn read<D: Disk>(
    alloc: Global,
    disk: &mut D,
    place: Place,
    count: u16,
) -> Result<Answer, Stop>
    requires area { place.area < 6 }
    requires at { D.honest disk.old → place.at ≤ length (D.content disk.old place.area) }
{
    let mut bytes = vec![in alloc; 0u8; usize::from(count)]?;
    match disk.read_at(place.area, place.at, bytes.as_mut_slice()) {
        Ok(read) => {
            bytes.truncate(read);
            Ok(Answer::Bytes(bytes))
        }
        Err(Failed) => Ok(Answer::Failed),
    }
}

pub(crate) fn len<D: Disk>(disk: &mut D, area: u8) -> Answer
    requires { area < 6 }
{
    match disk.len(area) {
        Ok(len) => Answer::Number(len),
        Err(Failed) => Answer::Failed,
    }
}

// ---- answers

fn write_line<K: Sink>(alloc: Global, step: &str, told: &str, out: &mut K) -> Result<(), Stop> {
    let line = format!(in alloc; "  {step}: {told}\n")?;
    let _ = write_all(out, line.as_bytes());
    Ok(())
}

fn write_number<K: Sink>(alloc: Global, step: &str, number: u64, out: &mut K) -> Result<(), Stop> {
    let line = format!(in alloc; "  {step}: {number}\n")?;
    let _ = write_all(out, line.as_bytes());
    Ok(())
}

/// Writes what a step tells.
pub(crate) fn write_told<K: Sink>(
    alloc: Global,
    step: &str,
    answer: &Answer,
    out: &mut K,
) -> Result<(), Stop> {
    match answer {
        Answer::Nothing => Ok(()),
        Answer::Failed => write_line(alloc, step, "Failed", out),
        Answer::Number(number) => write_number(alloc, step, *number, out),
        Answer::Bytes(bytes) => write_shown(alloc, step, bytes.as_slice(), out),
        Answer::Text(text) => write_line(alloc, step, text.as_str(), out),
    }
}

fn write_shown<K: Sink>(alloc: Global, step: &str, bytes: &[u8], out: &mut K) -> Result<(), Stop> {
    let _ = write_all(out, b"  ");
    let _ = write_all(out, step.as_bytes());
    let _ = write_all(out, b":");
    write_bytes(alloc, bytes, out)?;
    let _ = write_all(out, b"\n");
    Ok(())
}
