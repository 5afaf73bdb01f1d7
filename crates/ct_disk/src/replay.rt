ghost use Rattle.std.specs.Prelude.{◌≡◌, ◌<◌, ◌≤◌, ◌+◌, [], length, take, drop, OnOk};
ghost use Rattle.ct_disk.specs.Areas.{area_at};
ghost use Rattle.ct_disk.specs.Steps.{done};
ghost use Rattle.ct_disk.specs.Steps.Step.{Wrote};
ghost use Rattle.ct_disk.specs.Crash.{place_after, torn_bytes, torn_place, torn_at, tear, tear_all};
ghost use Rattle.ct_disk.specs.Mem.{step_of, steps_of, CallWithin, CallsWithin, is_synced, NoneSynced, EndsSynced};

use crate::areas::{cut_at, put_at, reserve_all};
use crate::call::Call;
use std::alloc::{AllocError, Global};

/// The place after a place, round and round.
fn following(torn: &[u8], next: usize) -> usize
    requires { next < length torn.now }
    ensures place { result ≡ place_after torn.now next }
    ensures within { result < length torn.now }
{
    if next + 1 == torn.len() { 0 } else { next + 1 }
}

/// Puts bytes of `torn` in the place of these, from the place `next` on, round and round. An empty `torn` leaves them.
pub(crate) fn tear_bytes(torn: &[u8], next: &mut usize, bytes: &mut [u8])
    requires { 0 < length torn.now → next.old < length torn.now }
    ensures bytes { bytes.new ≡ torn_bytes torn.now next.old bytes.old }
    ensures next { next.new ≡ torn_place torn.now next.old bytes.old }
    ensures place { 0 < length torn.now → next.new < length torn.now }
{
    if torn.is_empty() {
        return;
    }
    for i in 0..bytes.len() {
        bytes[i] = torn[*next];
        *next = following(torn, *next);
    }
}

/// Makes a write again. An offset past the end counts as the end.
fn write_again(areas: &mut Vec<Vec<u8>>, area: u8, at: u64, bytes: &[u8]) -> Result<(), AllocError>
    requires area { area < 6 }
    requires count { length areas.old.items ≡ 6 }
    ensures image { OnOk result (area_at areas.new.items ≡ done (area_at areas.old.items) (Wrote area at bytes.now)) }
    ensures count { length areas.new.items ≡ 6 }
{
    reserve_all(areas, bytes.len())?;
    let there = &areas[area as usize];
    let at = there.len().min(at as usize);
    put_at(areas, area, at, bytes, bytes.len());
    Ok(())
}

/// Makes a call again, a write with bytes of `torn`.
fn replay(
    alloc: Global,
    areas: &mut Vec<Vec<u8>>,
    call: Call,
    written: &[u8],
    torn: &[u8],
    next: &mut usize,
) -> Result<(), AllocError>
    requires count { length areas.old.items ≡ 6 }
    requires within { CallWithin (length written.now) call }
    requires place { 0 < length torn.now → next.old < length torn.now }
    ensures image { OnOk result (torn_at (area_at areas.new.items) next.new ≡ tear torn.now (torn_at (area_at areas.old.items) next.old) (step_of written.now call)) }
    ensures place { 0 < length torn.now → next.new < length torn.now }
    ensures count { length areas.new.items ≡ 6 }
{
    match call {
        Call::Write {
            area,
            at,
            from,
            len,
        } => {
            let mut bytes = Vec::from_slice(alloc, &written[from..from + len])?;
            tear_bytes(torn, next, bytes.as_mut_slice());
            write_again(areas, area, at, bytes.as_slice())
        }
        Call::Cut { area, len } => {
            cut_at(areas, area, len as usize, 0);
            Ok(())
        }
        Call::Sync { ok: _ } => Ok(()),
    }
}

/// Makes calls again, one after the other.
pub(crate) fn replay_all(
    alloc: Global,
    areas: &mut Vec<Vec<u8>>,
    calls: &[Call],
    written: &[u8],
    torn: &[u8],
    next: &mut usize,
) -> Result<(), AllocError>
    requires count { length areas.old.items ≡ 6 }
    requires within { CallsWithin (length written.now) calls.now }
    requires place { 0 < length torn.now → next.old < length torn.now }
    ensures image { OnOk result (torn_at (area_at areas.new.items) next.new ≡ tear_all torn.now (torn_at (area_at areas.old.items) next.old) (steps_of written.now calls.now)) }
    ensures count { length areas.new.items ≡ 6 }
{
    for i in 0..calls.len() {
        replay(alloc, areas, calls[i], written, torn, next)?;
    }
    Ok(())
}

/// Whether the call is a sync that was one.
fn was_synced(call: &Call) -> bool
    ensures { result ≡ is_synced call.now }
{
    match *call {
        Call::Sync { ok } => ok,
        Call::Write { .. } | Call::Cut { .. } => false,
    }
}

/// How many calls there are up to the last sync that was one.
pub(crate) fn synced_calls(calls: &[Call]) -> usize
    ensures within { result ≤ length calls.now }
    ensures synced { EndsSynced (take result calls.now) }
    ensures since { NoneSynced (drop result calls.now) }
{
    let mut count = calls.len();
    while count > 0 && !was_synced(&calls[count - 1]) {
        count -= 1;
    }
    count
}
