ghost use Rattle.std.specs.Prelude.{◌≡◌, ◌<◌, ◌^◌, ◌==◌, not, true, false, Some, ◌++◌, [], length, position, slice_get, IfSome, IfNone, OnOk, OnErr};
ghost use Rattle.std.specs.List.{list_any};
ghost use Rattle.std.specs.Option.{option_copied, option_map};
ghost use Rattle.ct_locks.specs.Holdings.{is_on, is_of_table, has_table, blocks};

use crate::key_sets::{KeySet, has, with_keys};
use crate::taken::Taken;
use ct_types::{Key, Memory};
use std::alloc::Global;
use std::marker::Model;

/// What one session holds: in the order in which it took it, and as a set of keys for each table, so that a look-up costs a
/// logarithm.
#[derive(Drop)]
pub(crate) struct Held {
    alloc: Global,
    session: u8,
    taken: Vec<Taken>,
    sets: Vec<KeySet>,
}

impl Model for Held {
    ghost use Rattle.ct_locks.specs.Holdings.{Holding, IsKept};

    ghost Value = { Holding };

    ghost view = { λ it. record { session = it.session; taken = it.taken.items } };

    ghost invariant = { λ it. IsKept it.taken.items it.sets.items };
}

/// The place of the first key of a table.
fn first_place(taken: &[Taken], table: u32) -> Option<usize>
    ensures { result ≡ position (is_of_table table) taken.now }
{
    taken.iter().position(|taken| taken.table == table)
}

impl Held {
    /// A session that holds nothing.
    pub(crate) fn new(alloc: Global, session: u8) -> Held
        ensures { result ≡ record { session = session; taken = [] } }
    {
        Held {
            alloc,
            session,
            taken: Vec::new(alloc),
            sets: Vec::new(alloc),
        }
    }

    /// Its number.
    pub(crate) fn session(&self) -> u8
        ensures { result ≡ self.now.session }
    {
        self.session
    }

    /// Whether it is another session than this, and holds a key.
    pub(crate) fn blocks(&self, session: u8, table: u32, key: &Key) -> bool
        ensures { result ≡ blocks session (list_any (is_on table key.now)) self.now }
    {
        self.session != session && has(self.sets.as_slice(), table, key)
    }

    /// The place of its first key of a table, where it is another session than this.
    pub(crate) fn first_for_other(&self, session: u8, table: u32) -> Option<u32>
        ensures some { IfSome result (λ place. (not (self.now.session == session) ≡ true) × (position (is_of_table table) self.now.taken ≡ Some place)) }
        ensures none { IfNone result (blocks session (has_table table) self.now ≡ false) }
    {
        if self.session == session {
            return None;
        }
        match first_place(self.taken.as_slice(), table) {
            None => None,
            Some(place) => Some(place as u32),
        }
    }

    /// The key that it took at a place, counted from 0.
    pub(crate) fn key_at(&self, place: u32) -> Option<&Key>
        ensures { option_copied result ≡ option_map (λ taken. taken.key) (slice_get self.now.taken place) }
    {
        match self.taken.get(place as usize) {
            None => None,
            Some(taken) => Some(&taken.key),
        }
    }

    /// Takes more behind what it has. Memory leaves it as it was.
    pub(crate) fn take(&mut self, mut added: Vec<Taken>) -> Result<(), Memory>
        ensures ok { OnOk result (self.new ≡ record self.old { taken = self.old.taken ++ added.items }) }
        ensures few { OnOk result (length self.new.taken < 2 ^ 32) }
        ensures err { OnErr result (self.new ≡ self.old) }
    {
        if u32::MAX as usize - self.taken.len() < added.len() {
            return Err(Memory);
        }
        let sets = with_keys(self.alloc, self.sets.as_slice(), added.as_slice())?;
        self.taken.append(&mut added)?;
        self.sets = sets;
        Ok(())
    }
}
