ghost use Rattle.std.specs.Prelude.{◌≡◌, ◌<◌, ◌≤◌, [], length, Ok, IsErr, IsOk, OnOk};
ghost use Rattle.std.specs.Io.{ReadsAtMost};
ghost use Rattle.ct_faults.specs.Causes.{HasCause, next_count};
ghost use Rattle.ct_faults.specs.Disk.{TakesRoom};

use crate::{Disk, Failed};
use ct_types::Memory;
use std::marker::Model;

/// A disk that is none: its areas are empty, and each call but `len`, `ready` and `faults` fails. It is not honest, since
/// a length of 0 is all that it tells. Contracts see it as its count of faults and its room.
#[derive(Debug, Drop)]
pub struct NoDisk {
    faults: u64,
    room_calls: u64,
    room_bytes: u64,
}

impl Model for NoDisk {
    ghost use Rattle.ct_faults.specs.Plain.{PlainState};

    ghost Value = { PlainState };

    ghost view = { λ d. record { faults = d.faults; room_calls = d.room_calls; room_bytes = d.room_bytes } };
}

impl NoDisk {
    /// Such a disk, on which no call has failed, and without room.
    pub fn new() -> NoDisk
        ensures { result ≡ record { faults = 0; room_calls = 0; room_bytes = 0 } }
    {
        NoDisk {
            faults: 0,
            room_calls: 0,
            room_bytes: 0,
        }
    }
}

impl Default for NoDisk {
    ghost is_default = { λ d. d ≡ record { faults = 0; room_calls = 0; room_bytes = 0 } };

    fn default() -> NoDisk {
        NoDisk::new()
    }
}

/// Counts a fault.
fn fail(faults: &mut u64) -> Failed
    ensures counted { faults.new ≡ next_count faults.old }
    ensures later { faults.old ≤ faults.new }
{
    *faults = faults.saturating_add(1);
    Failed
}

impl Disk for NoDisk {
    ghost honest = { λ d. ⊥ };

    ghost content = { λ d area. [] };

    ghost clock = { λ d. 0 };

    ghost images = { λ d m image. ⊥ };

    ghost room_calls = { λ d. d.room_calls };

    ghost room_bytes = { λ d. d.room_bytes };

    ghost faults = { λ d. d.faults };

    ghost content_is_image = { λ d h. absurd h };

    fn len(&mut self, _area: u8) -> Result<u64, Failed>
        ensures room { TakesRoom 0 0 self.old.room_calls self.old.room_bytes self.new.room_calls self.new.room_bytes }
        ensures cause { HasCause self.old.faults self.new.faults result }
        ensures empty { result ≡ Ok 0 }
        ensures same { self.new ≡ self.old }
    {
        Ok(0)
    }

    fn read_at(&mut self, _area: u8, _at: u64, buf: &mut [u8]) -> Result<usize, Failed>
        ensures bound { ReadsAtMost result buf.new }
        ensures room { TakesRoom 0 0 self.old.room_calls self.old.room_bytes self.new.room_calls self.new.room_bytes }
        ensures cause { HasCause self.old.faults self.new.faults result }
        ensures fails { IsErr result }
        ensures counted { self.new.faults ≡ next_count self.old.faults }
        ensures buffer { buf.new ≡ buf.old }
    {
        Err(fail(&mut self.faults))
    }

    fn write_at(&mut self, _area: u8, _at: u64, bytes: &[u8]) -> Result<(), Failed>
        requires room_calls { 0 < self.old.room_calls }
        requires room_bytes { length bytes.now ≤ self.old.room_bytes }
        ensures room { TakesRoom 1 (length bytes.now) self.old.room_calls self.old.room_bytes self.new.room_calls self.new.room_bytes }
        ensures cause { HasCause self.old.faults self.new.faults result }
        ensures fails { IsErr result }
        ensures counted { self.new.faults ≡ next_count self.old.faults }
    {
        self.room_calls -= 1;
        self.room_bytes -= bytes.len() as u64;
        Err(fail(&mut self.faults))
    }

    fn cut(&mut self, _area: u8, _len: u64) -> Result<(), Failed>
        requires { 0 < self.old.room_calls }
        ensures room { TakesRoom 1 0 self.old.room_calls self.old.room_bytes self.new.room_calls self.new.room_bytes }
        ensures cause { HasCause self.old.faults self.new.faults result }
        ensures fails { IsErr result }
        ensures counted { self.new.faults ≡ next_count self.old.faults }
    {
        self.room_calls -= 1;
        Err(fail(&mut self.faults))
    }

    fn sync(&mut self) -> Result<(), Failed>
        requires { 0 < self.old.room_calls }
        ensures room { TakesRoom 1 0 self.old.room_calls self.old.room_bytes self.new.room_calls self.new.room_bytes }
        ensures cause { HasCause self.old.faults self.new.faults result }
        ensures fails { IsErr result }
        ensures counted { self.new.faults ≡ next_count self.old.faults }
    {
        self.room_calls -= 1;
        Err(fail(&mut self.faults))
    }

    fn ready(&mut self, calls: u64, bytes: u64) -> Result<(), Memory>
        ensures room_calls { OnOk result (calls ≤ self.new.room_calls) }
        ensures room_bytes { OnOk result (bytes ≤ self.new.room_bytes) }
        ensures faults { self.new.faults ≡ self.old.faults }
        ensures made { IsOk result }
    {
        self.room_calls = self.room_calls.max(calls);
        self.room_bytes = self.room_bytes.max(bytes);
        Ok(())
    }

    fn faults(&self) -> u64 {
        self.faults
    }
}
