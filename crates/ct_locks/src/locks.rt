ghost use Rattle.std.specs.Prelude.{◌≡◌, ◌<◌, ◌^◌, [], length, slice_get, IfErr, MatchOption, OnOk, OnErr};
ghost use Rattle.std.specs.List.{All};
ghost use Rattle.std.specs.Option.{option_copied, option_map};
ghost use Rattle.ct_locks.specs.Holders.{locks_of, IsFree, IsLeastHolder, IsBlocked, IsFreeTable, IsHolder};
ghost use Rattle.ct_locks.specs.Changes.{with_taken, with_writes_taken, without_session};

use crate::answers::{Blocked, Holder};
use crate::held::Held;
use crate::sessions::{
    first_blocked, key_at, least_holder, least_of_table, release_keys, take_keys,
};
use crate::taken::{copy_keys, copy_write_keys};
use ct_types::{Key, Memory, Write};
use std::alloc::Global;
use std::marker::Model;

/// The keys that sessions hold, which contracts see as one list of locks: by rising sessions, and what a session holds in the
/// order in which it took it.
///
/// A look-up of a key costs a logarithm for each session that holds keys.
#[derive(Drop)]
pub struct Locks {
    alloc: Global,
    sessions: Vec<Held>,
}

impl Model for Locks {
    ghost use Rattle.std.specs.Prelude.{List};
    ghost use Rattle.ct_locks.specs.Holders.{Lock};
    ghost use Rattle.ct_locks.specs.Holdings.{all_locks, Rises};

    ghost Value = { List Lock };

    ghost view = { λ it. all_locks it.sessions.items };

    ghost invariant = { λ it. Rises it.sessions.items };
}

impl Locks {
    /// No key is held. It takes no memory.
    pub fn new(alloc: Global) -> Locks
        ensures { result ≡ [] }
    {
        Locks {
            alloc,
            sessions: Vec::new(alloc),
        }
    }

    /// Whether another session holds one of some keys of a table: the first such key, by its place, and the least session that
    /// holds it. It takes no memory. The caller has fewer than 2^32 keys.
    ///
    /// T-SQL: 1222 is that a lock was not granted in time; that it is told at once, and of the first key, is this project's own.
    pub fn check(&self, session: u8, table: u32, keys: &[Key]) -> Result<(), Blocked>
        requires { length keys.now < 2 ^ 32 }
        ensures free { OnOk result (All (IsFree self.now session table) keys.now) }
        ensures blocked { IfErr result (λ found. IsBlocked self.now session table keys.now found) }
    {
        first_blocked(self.sessions.as_slice(), session, table, keys)
    }

    /// The least other session that holds a key of a table, None where there is none. It takes no memory. This project's own.
    pub fn holder_of(&self, session: u8, table: u32, key: &Key) -> Option<u8>
        ensures { MatchOption result (IsFree self.now session table key.now) (λ holder. IsLeastHolder self.now session table key.now holder) }
    {
        least_holder(self.sessions.as_slice(), session, table, key)
    }

    /// Whether another session holds a key of a table: the least that does, and the place of its first such key among all that
    /// it holds. It takes no memory. This project's own.
    pub fn check_table(&self, session: u8, table: u32) -> Result<(), Holder>
        ensures free { OnOk result (IsFreeTable self.now session table) }
        ensures held { IfErr result (λ holder. IsHolder self.now session table holder) }
    {
        least_of_table(self.sessions.as_slice(), session, table)
    }

    /// The key at a place among all that a session holds, counted from 0 in the order in which it took them; None where it holds no
    /// more than so many. It takes no memory. This project's own.
    pub fn key_at(&self, session: u8, place: u32) -> Option<&Key>
        ensures { option_copied result ≡ option_map (λ lock. lock.key) (slice_get (locks_of self.now session) place) }
    {
        key_at(self.sessions.as_slice(), session, place)
    }

    /// Takes keys of a table for a session, behind those that it holds, also such as it holds already. It tests nothing: who else
    /// holds them is the affair of `check`. `Memory` is the only error; it also comes where the session would then hold 2^32 keys
    /// or more. After it all is as before. This project's own.
    pub fn take(&mut self, session: u8, table: u32, keys: &[Key]) -> Result<(), Memory>
        ensures ok { OnOk result (self.new ≡ with_taken self.old session table keys.now) }
        ensures few { OnOk result (length (locks_of self.new session) < 2 ^ 32) }
        ensures err { OnErr result (self.new ≡ self.old) }
    {
        let added = copy_keys(self.alloc, table, keys)?;
        take_keys(self.alloc, &mut self.sessions, session, added)
    }

    /// Takes the keys that writes name, each of its table, as `take` takes keys of one table: in their order, behind those that the
    /// session holds. `Memory` is the only error; it also comes where the session would then hold 2^32 keys or more. After it all is
    /// as before. This project's own.
    pub fn take_writes(&mut self, session: u8, writes: &[Write]) -> Result<(), Memory>
        ensures ok { OnOk result (self.new ≡ with_writes_taken self.old session writes.now) }
        ensures few { OnOk result (length (locks_of self.new session) < 2 ^ 32) }
        ensures err { OnErr result (self.new ≡ self.old) }
    {
        let added = copy_write_keys(self.alloc, writes)?;
        take_keys(self.alloc, &mut self.sessions, session, added)
    }

    /// Lets go of all that a session holds, at the end of its transaction. It takes no memory.
    ///
    /// T-SQL: COMMIT TRANSACTION and ROLLBACK TRANSACTION let go of the locks of the transaction.
    pub fn release(&mut self, session: u8)
        ensures { self.new ≡ without_session self.old session }
    {
        release_keys(&mut self.sessions, session);
    }
}
