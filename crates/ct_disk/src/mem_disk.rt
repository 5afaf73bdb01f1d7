ghost use Rattle.std.specs.Prelude.{◌≡◌, ◌<◌, ◌≤◌, ◌+◌, ◌^◌, ◌↔◌, ℕ, [], ◌∷◌, ◌++◌, length, set, is_ok, is_err, IfOk, IfErr, OnOk, OnErr, IsErr, vec_capacity};
ghost use Rattle.std.specs.Io.{ReadsAtMost};
ghost use Rattle.ct_faults.specs.Causes.{HasCause};
ghost use Rattle.ct_faults.specs.Disk.{Changes, Same, IsWritten, IsCut, MayTear, MayCut, Runs, LeavesOnly, ReadsAt, TakesRoom};
ghost use Rattle.ct_disk.specs.Areas.{contents_of, image_of, HaveRoom};
ghost use Rattle.ct_disk.specs.Steps.Step.{Wrote, WasCut, EndedSync};
ghost use Rattle.ct_disk.specs.Crash.{crashed};
ghost use Rattle.ct_disk.specs.Mem.{content_of, clock_of, images_of, unused, IsNextFailing, counted, stepped, with_first, with_failing, with_fuse, with_room};

use crate::areas::{copy_areas, cut_at, empty_areas, put_at, reserve_all};
use crate::call::Call;
use crate::replay::{replay_all, synced_calls};
use ct_faults::{Disk, Failed};
use ct_types::Memory;
use std::alloc::{AllocError, Global};
use std::marker::Model;

/// A disk in memory, which keeps its writes, cuts and syncs, so that a crash can tear what was not synced. Exactly the
/// listed calls fail, and those past the fuse.
///
/// A write or cut that fails is made all the same, so a crash finds it as one that was made. A sync that fails is none.
#[derive(Drop)]
pub struct MemDisk {
    first: Vec<Vec<u8>>,
    areas: Vec<Vec<u8>>,
    calls: Vec<Call>,
    written: Vec<u8>,
    room_calls: usize,
    room_bytes: usize,
    made: u64,
    failing: Vec<u64>,
    fuse: u64,
    faults: u64,
}

impl Model for MemDisk {
    ghost use Rattle.ct_disk.specs.Areas.{contents_of};
    ghost use Rattle.ct_disk.specs.Mem.{DiskState, steps_of, Kept};

    ghost Value = { DiskState };

    ghost view = { λ d. record { first = contents_of d.first.items; steps = steps_of d.written.items d.calls.items; room_calls = d.room_calls; room_bytes = d.room_bytes; made = d.made; failing = d.failing.items; fuse = d.fuse; faults = d.faults } };

    ghost invariant = { λ d. Kept d.first.items d.areas.items d.calls d.written d.room_calls d.room_bytes };
}

/// Copies what fits of the bytes from an offset on, and says how much.
fn copy_out(there: &[u8], at: usize, buf: &mut [u8]) -> usize
    requires { at ≤ length there.now }
    ensures gives { ReadsAt at there.now buf.old buf.new result }
    ensures bound { length buf.new ≡ length buf.old }
{
    let rest = &there[at..];
    let count = rest.len().min(buf.len());
    buf[..count].copy_from_slice(&rest[..count]);
    count
}

/// Adds bytes for which there is memory.
fn keep_bytes(written: &mut Vec<u8>, bytes: &[u8])
    requires { length written.old.items + length bytes.now ≤ vec_capacity written.old }
    ensures items { written.new.items ≡ written.old.items ++ bytes.now }
    ensures capacity { vec_capacity written.old ≤ vec_capacity written.new }
{
    match written.extend_from_slice(bytes) {
        Ok(()) => {}
        Err(_) => unreachable!(),
    }
}

/// Adds a call for which there is memory.
fn keep_call(calls: &mut Vec<Call>, call: Call)
    requires { length calls.old.items < vec_capacity calls.old }
    ensures items { calls.new.items ≡ calls.old.items ++ call ∷ [] }
    ensures capacity { vec_capacity calls.old ≤ vec_capacity calls.new }
{
    match calls.push(call) {
        Ok(()) => {}
        Err(_) => unreachable!(),
    }
}

/// Takes memory for so many calls, and for so many bytes in all and in each area.
fn make_room(
    calls: &mut Vec<Call>,
    written: &mut Vec<u8>,
    areas: &mut Vec<Vec<u8>>,
    room_calls: usize,
    room_bytes: usize,
) -> Result<(), AllocError>
    ensures calls { calls.new.items ≡ calls.old.items }
    ensures written { written.new.items ≡ written.old.items }
    ensures areas { contents_of areas.new.items ≡ contents_of areas.old.items }
    ensures count { length areas.new.items ≡ length areas.old.items }
    ensures calls_grow { vec_capacity calls.old ≤ vec_capacity calls.new }
    ensures written_grow { vec_capacity written.old ≤ vec_capacity written.new }
    ensures keeps { (n : ℕ) → HaveRoom n areas.old.items → HaveRoom n areas.new.items }
    ensures calls_fit { OnOk result (length calls.new.items + room_calls ≤ vec_capacity calls.new) }
    ensures bytes_fit { OnOk result (length written.new.items + room_bytes ≤ vec_capacity written.new) }
    ensures room { OnOk result (HaveRoom room_bytes areas.new.items) }
{
    calls.reserve(room_calls)?;
    written.reserve(room_bytes)?;
    reserve_all(areas, room_bytes)
}

impl MemDisk {
    /// A disk whose areas are empty.
    pub fn empty(alloc: Global) -> Result<MemDisk, Memory>
        ensures { IfOk result (λ made. made ≡ unused ([] ∷ [] ∷ [] ∷ [] ∷ [] ∷ [] ∷ [])) }
    {
        match empty_areas(alloc) {
            Ok(first) => Ok(MemDisk::over(alloc, first)?),
            Err(_) => Err(Memory),
        }
    }

    /// A disk whose synced contents are these.
    fn over(alloc: Global, first: Vec<Vec<u8>>) -> Result<MemDisk, AllocError>
        requires { length first.items ≡ 6 }
        ensures { IfOk result (λ made. made ≡ unused (contents_of first.items)) }
    {
        let areas = copy_areas(alloc, first.as_slice())?;
        Ok(MemDisk {
            first,
            areas,
            calls: Vec::new(alloc),
            written: Vec::new(alloc),
            room_calls: 0,
            room_bytes: 0,
            made: 0,
            failing: Vec::new(alloc),
            fuse: u64::MAX,
            faults: 0,
        })
    }

    /// Gives an area its synced contents, before the first call.
    pub fn set(&mut self, area: u8, bytes: &[u8]) -> Result<(), Memory>
        requires area { area < 6 }
        requires made { self.old.made ≡ 0 }
        requires steps { self.old.steps ≡ [] }
        ensures ok { OnOk result (self.new ≡ with_first self.old (set self.old.first area bytes.now)) }
        ensures err { OnErr result (self.new ≡ self.old) }
    {
        let alloc = *self.first.allocator();
        let first = Vec::from_slice(alloc, bytes)?;
        let mut there = Vec::from_slice(alloc, bytes)?;
        there.reserve(self.room_bytes)?;
        self.first[area as usize] = first;
        self.areas[area as usize] = there;
        Ok(())
    }

    /// The call of this number is to fail. The first call of `Disk` is 1; `ready` and `faults` are not counted.
    pub fn fail_at(&mut self, call: u64) -> Result<(), Memory>
        ensures ok { OnOk result (self.new ≡ with_failing self.old call) }
        ensures err { OnErr result (self.new ≡ self.old) }
    {
        self.failing.push(call)?;
        Ok(())
    }

    /// All calls past this number are to fail.
    pub fn fuse(&mut self, after: u64)
        ensures { self.new ≡ with_fuse self.old after }
    {
        self.fuse = after;
    }

    /// Lends what a read of the area gives.
    pub fn image(&self, area: u8) -> &[u8]
        requires { area < 6 }
        ensures { result.now ≡ content_of self.now area }
    {
        let there = &self.areas[area as usize];
        there.as_slice()
    }

    /// The disk after a crash: one of the images that a crash may leave. The calls up to the last sync stand as they were
    /// made. Of those since, each write wrote bytes of `torn`, which are taken in turn, from the first write to the last,
    /// round and round, and each cut was made. An empty `torn` leaves what reads give.
    ///
    /// No call was made on the new disk, none is to fail, and it has no room.
    pub fn crash(self, torn: &[u8]) -> Result<MemDisk, (MemDisk, Memory)>
        ensures left { IfOk result (λ made. image_of made.first ≡ crashed torn.now (image_of self.first) self.steps) }
        ensures fresh { IfOk result (λ made. made ≡ unused made.first) }
        ensures image { IfOk result (λ made. images_of self (clock_of self) (image_of made.first)) }
        ensures lengths { IfOk result (λ made. (area : ℕ) → length (image_of made.first area) ≡ length (content_of self area)) }
        ensures whole { torn.now ≡ [] → IfOk result (λ made. image_of made.first ≡ content_of self) }
        ensures err { IfErr result (λ back. back.0 ≡ self) }
    {
        match self.torn(torn) {
            Ok(made) => Ok(made),
            Err(_) => Err((self, Memory)),
        }
    }

    fn torn(&self, torn: &[u8]) -> Result<MemDisk, AllocError>
        ensures left { IfOk result (λ made. image_of made.first ≡ crashed torn.now (image_of self.now.first) self.now.steps) }
        ensures fresh { IfOk result (λ made. made ≡ unused made.first) }
    {
        let alloc = *self.first.allocator();
        let mut areas = copy_areas(alloc, self.first.as_slice())?;
        let synced = synced_calls(self.calls.as_slice());
        let (before, since) = self.calls.as_slice().split_at(synced);
        let written = self.written.as_slice();
        let mut next = 0;
        replay_all(alloc, &mut areas, before, written, &[], &mut next)?;
        let mut next = 0;
        replay_all(alloc, &mut areas, since, written, torn, &mut next)?;
        MemDisk::over(alloc, areas)
    }

    /// Counts a call, and says whether it is to fail.
    fn count(&mut self) -> Result<(), Failed>
        ensures fails { IsErr result ↔ IsNextFailing self.old }
        ensures later { self.old.faults ≤ self.new.faults }
        ensures state { self.new ≡ counted self.old (is_err result) }
    {
        self.made = self.made.saturating_add(1);
        if self.failing.contains(&self.made) || self.made > self.fuse {
            self.faults = self.faults.saturating_add(1);
            return Err(Failed);
        }
        Ok(())
    }

    /// Makes a write.
    fn put(&mut self, area: u8, at: u64, bytes: &[u8])
        requires area { area < 6 }
        requires at { at ≤ length (content_of self.old area) }
        requires room_calls { 0 < self.old.room_calls }
        requires room_bytes { length bytes.now ≤ self.old.room_bytes }
        ensures { self.new ≡ stepped self.old (Wrote area at bytes.now) (length bytes.now) }
    {
        let call = Call::Write {
            area,
            at,
            from: self.written.len(),
            len: bytes.len(),
        };
        keep_bytes(&mut self.written, bytes);
        keep_call(&mut self.calls, call);
        put_at(&mut self.areas, area, at as usize, bytes, self.room_bytes);
        self.room_bytes -= bytes.len();
        self.room_calls -= 1;
    }

    /// Makes a cut.
    fn shorten(&mut self, area: u8, len: u64)
        requires area { area < 6 }
        requires room_calls { 0 < self.old.room_calls }
        ensures { self.new ≡ stepped self.old (WasCut area len) 0 }
    {
        keep_call(&mut self.calls, Call::Cut { area, len });
        cut_at(&mut self.areas, area, len as usize, self.room_bytes);
        self.room_calls -= 1;
    }

    /// Notes a sync, and whether it was one.
    fn end_sync(&mut self, ok: bool)
        requires { 0 < self.old.room_calls }
        ensures { self.new ≡ stepped self.old (EndedSync ok) 0 }
    {
        keep_call(&mut self.calls, Call::Sync { ok });
        self.room_calls -= 1;
    }
}

impl Disk for MemDisk {
    ghost use Rattle.ct_disk.specs.Mem.{content_of, clock_of, images_of};
    ghost use Rattle.ct_disk.specs.Areas.{image_of};
    ghost use Rattle.ct_disk.specs.Held.{content-is-image};

    ghost honest = { λ d. Unit {0} };

    ghost content = { λ d. content_of d };

    ghost clock = { λ d. clock_of d };

    ghost images = { λ d. images_of d };

    ghost room_calls = { λ d. d.room_calls };

    ghost room_bytes = { λ d. d.room_bytes };

    ghost faults = { λ d. d.faults };

    ghost content_is_image = { λ d h. content-is-image (image_of d.first) d.steps };

    fn len(&mut self, area: u8) -> Result<u64, Failed>
        requires { area < 6 }
        ensures gives { IfOk result (λ n. n ≡ length (content_of self.old area)) }
        ensures content { content_of self.new ≡ content_of self.old }
        ensures images { Runs (clock_of self.old) (clock_of self.new) (images_of self.old) (images_of self.new) Same }
        ensures room { TakesRoom 0 0 self.old.room_calls self.old.room_bytes self.new.room_calls self.new.room_bytes }
        ensures cause { HasCause self.old.faults self.new.faults result }
        ensures fails { IsErr result ↔ IsNextFailing self.old }
        ensures state { self.new ≡ counted self.old (is_err result) }
    {
        match self.count() {
            Ok(()) => Ok(self.image(area).len() as u64),
            Err(Failed) => Err(Failed),
        }
    }

    fn read_at(&mut self, area: u8, at: u64, buf: &mut [u8]) -> Result<usize, Failed>
        requires area { area < 6 }
        requires at { at ≤ length (content_of self.old area) }
        ensures gives { IfOk result (λ n. ReadsAt at (content_of self.old area) buf.old buf.new n) }
        ensures bound { ReadsAtMost result buf.new }
        ensures content { content_of self.new ≡ content_of self.old }
        ensures images { Runs (clock_of self.old) (clock_of self.new) (images_of self.old) (images_of self.new) Same }
        ensures room { TakesRoom 0 0 self.old.room_calls self.old.room_bytes self.new.room_calls self.new.room_bytes }
        ensures cause { HasCause self.old.faults self.new.faults result }
        ensures fails { IsErr result ↔ IsNextFailing self.old }
        ensures state { self.new ≡ counted self.old (is_err result) }
    {
        match self.count() {
            Ok(()) => Ok(copy_out(self.image(area), at as usize, buf)),
            Err(Failed) => Err(Failed),
        }
    }

    fn write_at(&mut self, area: u8, at: u64, bytes: &[u8]) -> Result<(), Failed>
        requires area { area < 6 }
        requires at { at ≤ length (content_of self.old area) }
        requires end { at + length bytes.now < 2 ^ 62 }
        requires room_calls { 0 < self.old.room_calls }
        requires room_bytes { length bytes.now ≤ self.old.room_bytes }
        ensures written { OnOk result (Changes area (IsWritten at bytes.now) (content_of self.old) (content_of self.new)) }
        ensures rises { clock_of self.old < clock_of self.new }
        ensures images { Runs (clock_of self.old) (clock_of self.new) (images_of self.old) (images_of self.new) (Changes area (MayTear at (length bytes.now))) }
        ensures room { TakesRoom 1 (length bytes.now) self.old.room_calls self.old.room_bytes self.new.room_calls self.new.room_bytes }
        ensures cause { HasCause self.old.faults self.new.faults result }
        ensures fails { IsErr result ↔ IsNextFailing self.old }
        ensures state { self.new ≡ counted (stepped self.old (Wrote area at bytes.now) (length bytes.now)) (is_err result) }
    {
        self.put(area, at, bytes);
        self.count()
    }

    fn cut(&mut self, area: u8, len: u64) -> Result<(), Failed>
        requires area { area < 6 }
        requires len { len ≤ length (content_of self.old area) }
        requires room_calls { 0 < self.old.room_calls }
        ensures cut { OnOk result (Changes area (IsCut len) (content_of self.old) (content_of self.new)) }
        ensures rises { clock_of self.old < clock_of self.new }
        ensures images { Runs (clock_of self.old) (clock_of self.new) (images_of self.old) (images_of self.new) (Changes area (MayCut len)) }
        ensures room { TakesRoom 1 0 self.old.room_calls self.old.room_bytes self.new.room_calls self.new.room_bytes }
        ensures cause { HasCause self.old.faults self.new.faults result }
        ensures fails { IsErr result ↔ IsNextFailing self.old }
        ensures state { self.new ≡ counted (stepped self.old (WasCut area len) 0) (is_err result) }
    {
        self.shorten(area, len);
        self.count()
    }

    fn sync(&mut self) -> Result<(), Failed>
        requires { 0 < self.old.room_calls }
        ensures durable { OnOk result (LeavesOnly (content_of self.new) (images_of self.new (clock_of self.new))) }
        ensures content { content_of self.new ≡ content_of self.old }
        ensures rises { clock_of self.old < clock_of self.new }
        ensures images { Runs (clock_of self.old) (clock_of self.new) (images_of self.old) (images_of self.new) Same }
        ensures room { TakesRoom 1 0 self.old.room_calls self.old.room_bytes self.new.room_calls self.new.room_bytes }
        ensures cause { HasCause self.old.faults self.new.faults result }
        ensures fails { IsErr result ↔ IsNextFailing self.old }
        ensures state { self.new ≡ counted (stepped self.old (EndedSync (is_ok result)) 0) (is_err result) }
    {
        let outcome = self.count();
        self.end_sync(outcome.is_ok());
        outcome
    }

    fn ready(&mut self, calls: u64, bytes: u64) -> Result<(), Memory>
        ensures content { content_of self.new ≡ content_of self.old }
        ensures images { Runs (clock_of self.old) (clock_of self.new) (images_of self.old) (images_of self.new) Same }
        ensures room_calls { OnOk result (calls ≤ self.new.room_calls) }
        ensures room_bytes { OnOk result (bytes ≤ self.new.room_bytes) }
        ensures faults { self.new.faults ≡ self.old.faults }
        ensures state { self.new ≡ with_room self.old self.new.room_calls self.new.room_bytes }
    {
        let calls = self.room_calls.max(calls as usize);
        let bytes = self.room_bytes.max(bytes as usize);
        match make_room(
            &mut self.calls,
            &mut self.written,
            &mut self.areas,
            calls,
            bytes,
        ) {
            Ok(()) => {
                self.room_calls = calls;
                self.room_bytes = bytes;
                Ok(())
            }
            Err(_) => Err(Memory),
        }
    }

    fn faults(&self) -> u64 {
        self.faults
    }
}
