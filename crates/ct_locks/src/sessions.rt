ghost use Rattle.std.specs.Prelude.{◌≡◌, true, ◌<◌, ◌≤◌, ◌+◌, ◌^◌, ◌==◌, length, slice_get, slice_index_or, take, set, map, MatchOption, IfErr, OnOk, OnErr};
ghost use Rattle.std.specs.List.{All, insert};
ghost use Rattle.std.specs.Option.{option_copied, option_map};
ghost use Rattle.ct_locks.specs.Holders.{locks_of, IsFree, IsLeastHolder, IsBlocked, IsFreeTable, IsHolder};
ghost use Rattle.ct_locks.specs.Changes.{with_locks, without_session};
ghost use Rattle.ct_locks.specs.Holdings.{Holding, all_locks, lock_of, with_more, Rises};

use crate::answers::{Blocked, Holder};
use crate::held::Held;
use crate::taken::Taken;
use ct_types::{Key, Memory};
use std::alloc::Global;

/// The least other session that holds a key.
pub(crate) fn least_holder(sessions: &[Held], session: u8, table: u32, key: &Key) -> Option<u8>
    requires { Rises sessions.now }
    ensures { MatchOption result (IsFree (all_locks sessions.now) session table key.now) (λ holder. IsLeastHolder (all_locks sessions.now) session table key.now holder) }
{
    for held in sessions {
        if held.blocks(session, table, key) {
            return Some(held.session());
        }
    }
    None
}

/// The first of some keys that another session holds.
pub(crate) fn first_blocked(
    sessions: &[Held],
    session: u8,
    table: u32,
    keys: &[Key],
) -> Result<(), Blocked>
    requires rises { Rises sessions.now }
    requires few { length keys.now < 2 ^ 32 }
    ensures free { OnOk result (All (IsFree (all_locks sessions.now) session table) keys.now) }
    ensures blocked { IfErr result (λ found. IsBlocked (all_locks sessions.now) session table keys.now found) }
{
    for (place, key) in keys.iter().enumerate() {
        if let Some(holder) = least_holder(sessions, session, table, key) {
            return Err(Blocked {
                key: place as u32,
                holder,
            });
        }
    }
    Ok(())
}

/// The least other session that holds a key of a table.
pub(crate) fn least_of_table(sessions: &[Held], session: u8, table: u32) -> Result<(), Holder>
    requires { Rises sessions.now }
    ensures free { OnOk result (IsFreeTable (all_locks sessions.now) session table) }
    ensures held { IfErr result (λ holder. IsHolder (all_locks sessions.now) session table holder) }
{
    for held in sessions {
        if let Some(place) = held.first_for_other(session, table) {
            return Err(Holder {
                session: held.session(),
                place,
            });
        }
    }
    Ok(())
}

/// The place of a session among those that hold keys, or the place where it belongs.
fn place_of(sessions: &[Held], session: u8) -> usize
    ensures within { result ≤ length sessions.now }
    ensures before { All (λ (held : Holding). held.session < session) (take result sessions.now) }
    ensures at { (d : Holding) → result < length sessions.now → session ≤ (slice_index_or sessions.now result d).session }
{
    for (place, held) in sessions.iter().enumerate() {
        if session <= held.session() {
            return place;
        }
    }
    sessions.len()
}

/// Whether a session stands at a place.
fn is_at(sessions: &[Held], place: usize, session: u8) -> bool
    ensures within { result ≡ true → place < length sessions.now }
    ensures same { (d : Holding) → place < length sessions.now → result ≡ ((slice_index_or sessions.now place d).session == session) }
{
    place < sessions.len() && sessions[place].session() == session
}

/// The key that a session took at a place, counted from 0.
pub(crate) fn key_at(sessions: &[Held], session: u8, place: u32) -> Option<&Key>
    requires { Rises sessions.now }
    ensures { option_copied result ≡ option_map (λ lock. lock.key) (slice_get (locks_of (all_locks sessions.now) session) place) }
{
    let at = place_of(sessions, session);
    if is_at(sessions, at, session) {
        return sessions[at].key_at(place);
    }
    None
}

/// Takes keys for the session at a place. Memory leaves all as it was.
fn take_more(sessions: &mut Vec<Held>, place: usize, added: Vec<Taken>) -> Result<(), Memory>
    requires { place < length sessions.old.items }
    ensures ok { OnOk result ((d : Holding) → sessions.new.items ≡ set sessions.old.items place (with_more (slice_index_or sessions.old.items place d) added.items)) }
    ensures few { OnOk result ((d : Holding) → length (slice_index_or sessions.old.items place d).taken + length added.items < 2 ^ 32) }
    ensures err { OnErr result (sessions.new.items ≡ sessions.old.items) }
{
    let held = &mut sessions[place];
    held.take(added)
}

/// Takes keys for a session that holds none, and belongs at a place. Memory leaves all as it was.
fn take_first(
    alloc: Global,
    sessions: &mut Vec<Held>,
    place: usize,
    session: u8,
    added: Vec<Taken>,
) -> Result<(), Memory>
    requires { place ≤ length sessions.old.items }
    ensures ok { OnOk result (sessions.new.items ≡ insert sessions.old.items place (record { session = session; taken = added.items })) }
    ensures few { OnOk result (length added.items < 2 ^ 32) }
    ensures err { OnErr result (sessions.new.items ≡ sessions.old.items) }
{
    let mut held = Held::new(alloc, session);
    held.take(added)?;
    sessions.insert(place, held)?;
    Ok(())
}

/// Takes keys for a session. Memory leaves all as it was.
pub(crate) fn take_keys(
    alloc: Global,
    sessions: &mut Vec<Held>,
    session: u8,
    added: Vec<Taken>,
) -> Result<(), Memory>
    requires { Rises sessions.old.items }
    ensures rises { Rises sessions.new.items }
    ensures ok { OnOk result (all_locks sessions.new.items ≡ with_locks (all_locks sessions.old.items) session (map (lock_of session) added.items)) }
    ensures few { OnOk result (length (locks_of (all_locks sessions.new.items) session) < 2 ^ 32) }
    ensures err { OnErr result (all_locks sessions.new.items ≡ all_locks sessions.old.items) }
{
    let place = place_of(sessions.as_slice(), session);
    if is_at(sessions.as_slice(), place, session) {
        take_more(sessions, place, added)?;
        return Ok(());
    }
    take_first(alloc, sessions, place, session, added)?;
    Ok(())
}

/// Lets go of all that a session holds.
pub(crate) fn release_keys(sessions: &mut Vec<Held>, session: u8)
    requires { Rises sessions.old.items }
    ensures rises { Rises sessions.new.items }
    ensures all { all_locks sessions.new.items ≡ without_session (all_locks sessions.old.items) session }
{
    let place = place_of(sessions.as_slice(), session);
    if is_at(sessions.as_slice(), place, session) {
        let _ = sessions.remove(place);
    }
}
