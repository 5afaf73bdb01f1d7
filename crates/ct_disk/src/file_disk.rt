ghost use Rattle.std.specs.Prelude.{◌≡◌, [], length, Ok, IfOk};
ghost use Rattle.std.specs.Io.{ReadsAtMost};
ghost use Rattle.ct_faults.specs.Causes.{HasCause};

use ct_faults::{Disk, Failed};
use ct_types::Memory;
use std::alloc::{AllocError, Global};
use std::fs::{File, OpenOptions};
use std::marker::Model;
use std::os::unix::fs::FileExt;
use std::rt::Files;
use std::{fs, io};
use thiserror::Error;

/// Why the files of a disk could not be opened.
#[derive(Clone, Copy, Debug, PartialEq, Eq, Error)]
pub enum AtError {
    /// A call of the file system failed.
    #[error("a file of the disk could not be opened or made")]
    Failed,
    /// Out of memory.
    #[error("out of memory")]
    Memory,
}

impl From<AllocError> for AtError {
    fn from(_: AllocError) -> AtError {
        AtError::Memory
    }
}

impl From<io::Error> for AtError {
    fn from(error: io::Error) -> AtError {
        if error.kind() == io::ErrorKind::OutOfMemory {
            AtError::Memory
        } else {
            AtError::Failed
        }
    }
}

/// The file of an area, and whether it was written or cut since the last sync of it.
#[derive(Drop)]
struct Area {
    file: File,
    written: bool,
}

/// A disk over six files of a folder, `area0` to `area5`. It is an edge that is trusted: what files hold is in no clause,
/// so it is not honest. Contracts see it as its count of faults and its room.
#[derive(Drop)]
pub struct FileDisk {
    areas: Vec<Area>,
    room_calls: u64,
    room_bytes: u64,
    faults: u64,
}

impl Model for FileDisk {
    ghost use Rattle.std.specs.Prelude.{◌≡◌, length};
    ghost use Rattle.ct_faults.specs.Plain.{PlainState};

    ghost Value = { PlainState };

    ghost view = { λ d. record { faults = d.faults; room_calls = d.room_calls; room_bytes = d.room_bytes } };

    ghost invariant = { λ d. length d.areas.items ≡ 6 };
}

/// Opens the file of an area, which is made where it is missing. What an earlier process wrote may not be synced yet.
fn open_area<R: Files<File = File>>(
    rt: &R,
    alloc: Global,
    dir: &str,
    number: u8,
) -> Result<Area, AtError> {
    let path = format!(in alloc; "{dir}/area{number}")?;
    let file = OpenOptions::new()
        .read(true)
        .write(true)
        .create(true)
        .open(rt, path.as_str())?;
    Ok(Area {
        file,
        written: true,
    })
}

/// Opens all six.
fn open_areas<R: Files<File = File>>(rt: &R, alloc: Global, dir: &str) -> Result<Vec<Area>, AtError>
    ensures { IfOk result (λ areas. length areas.items ≡ 6) }
{
    let mut areas = Vec::new(alloc);
    for number in 0..6u8 {
        let area = open_area(rt, alloc, dir, number)?;
        if areas.push(area).is_err() {
            return Err(AtError::Memory);
        }
    }
    Ok(areas)
}

/// Syncs a folder, so that files that were made in it last.
fn sync_folder<R: Files<File = File>>(rt: &R, dir: &str) -> io::Result<()> {
    fs::open(rt, dir)?.sync_all()
}

/// Reads from an offset on. A read that gives less than the buffer takes, and does not reach the end, is an error.
fn read_file(file: &File, at: u64, buf: &mut [u8]) -> io::Result<usize>
    ensures { ReadsAtMost result buf.new }
{
    let count = file.read_at(buf, at)?;
    if count < buf.len() && at.saturating_add(count as u64) < file.metadata()?.len() {
        return Err(io::ErrorKind::UnexpectedEof.into());
    }
    Ok(count)
}

/// Syncs the file of each area that was written.
fn sync_areas(areas: &mut Vec<Area>) -> io::Result<()>
    ensures { length areas.new.items ≡ length areas.old.items }
{
    for i in 0..areas.len() {
        let area = &mut areas[i];
        if area.written {
            area.file.sync_all()?;
            area.written = false;
        }
    }
    Ok(())
}

/// The answer of the system, whose errors count as faults.
fn noted<T>(faults: &mut u64, answer: io::Result<T>) -> Result<T, Failed>
    ensures value { IfOk result (λ value. answer ≡ Ok value) }
    ensures cause { HasCause faults.old faults.new result }
{
    match answer {
        Ok(value) => Ok(value),
        Err(_) => {
            *faults = faults.saturating_add(1);
            Err(Failed)
        }
    }
}

impl FileDisk {
    /// The disk over the files of this folder, as they stand, and without room. Files that are missing are made. `Failed`
    /// comes only where a call of the file system failed.
    pub fn at<R: Files<File = File>>(rt: &R, alloc: Global, dir: &str) -> Result<FileDisk, AtError>
        ensures { IfOk result (λ made. made ≡ record { faults = 0; room_calls = 0; room_bytes = 0 }) }
    {
        let areas = open_areas(rt, alloc, dir)?;
        sync_folder(rt, dir)?;
        Ok(FileDisk {
            areas,
            room_calls: 0,
            room_bytes: 0,
            faults: 0,
        })
    }
}

impl Disk for FileDisk {
    ghost honest = { λ d. ⊥ };

    ghost content = { λ d area. [] };

    ghost clock = { λ d. 0 };

    ghost images = { λ d m image. ⊥ };

    ghost room_calls = { λ d. d.room_calls };

    ghost room_bytes = { λ d. d.room_bytes };

    ghost faults = { λ d. d.faults };

    ghost content_is_image = { λ d h. absurd h };

    fn len(&mut self, area: u8) -> Result<u64, Failed> {
        let answer = self.areas[area as usize].file.metadata();
        Ok(noted(&mut self.faults, answer)?.len())
    }

    fn read_at(&mut self, area: u8, at: u64, buf: &mut [u8]) -> Result<usize, Failed> {
        let answer = read_file(&self.areas[area as usize].file, at, buf);
        noted(&mut self.faults, answer)
    }

    fn write_at(&mut self, area: u8, at: u64, bytes: &[u8]) -> Result<(), Failed> {
        self.room_calls -= 1;
        self.room_bytes -= bytes.len() as u64;
        let there = &mut self.areas[area as usize];
        there.written = true;
        let answer = there.file.write_all_at(bytes, at);
        noted(&mut self.faults, answer)
    }

    fn cut(&mut self, area: u8, len: u64) -> Result<(), Failed> {
        self.room_calls -= 1;
        let there = &mut self.areas[area as usize];
        there.written = true;
        let answer = there.file.set_len(len);
        noted(&mut self.faults, answer)
    }

    fn sync(&mut self) -> Result<(), Failed> {
        self.room_calls -= 1;
        let answer = sync_areas(&mut self.areas);
        noted(&mut self.faults, answer)
    }

    fn ready(&mut self, calls: u64, bytes: u64) -> Result<(), Memory> {
        self.room_calls = self.room_calls.max(calls);
        self.room_bytes = self.room_bytes.max(bytes);
        Ok(())
    }

    fn faults(&self) -> u64 {
        self.faults
    }
}
