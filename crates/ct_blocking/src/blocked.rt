ghost use Rattle.std.specs.Prelude.{◌≡◌, ℕ, IfOk};
ghost use Rattle.ct_blocking.specs.Locked.{AreLocked, refusal_at};
ghost use Rattle.ct_state.specs.Holding as spec;
ghost use Rattle.ct_session.specs.Sessions.{SessionState};

use ct_locks::{Holder, Locks};
use ct_types::{Copies, Key, Memory, Refusal, Text, Write};
use std::alloc::Global;

/// That a session holds a key of a table.
fn refusal(alloc: Global, name: &Text, key: &Key, holder: u8) -> Result<Option<Refusal>, Memory>
    ensures { IfOk result (λ made. made ≡ Some (Refusal.Blocked name.now key.now holder)) }
{
    Ok(Some(Refusal::Blocked {
        table: name.copy(alloc)?,
        key: key.copy(alloc)?,
        holder,
    }))
}

/// 1222 for the first of the keys of these writes that another session holds, with the least one that does; None where no other
/// one holds any. The name is that of the table of the statement. `Memory` is the only error.
///
/// It costs a look-up for each write. T-SQL: 1222. That it comes at once, and names the first key and the least session, is this
/// project's own.
pub fn blocked_keys(
    alloc: Global,
    locks: &Locks,
    session: u8,
    name: &Text,
    writes: &[Write],
) -> Result<Option<Refusal>, Memory>
    ensures { IfOk result (λ made. (sessions : ℕ → SessionState) → AreLocked locks.now sessions → made ≡ spec.blocked_keys sessions session name.now writes.now) }
{
    for write in writes {
        if let Some(holder) = locks.holder_of(session, write.table, &write.key) {
            return refusal(alloc, name, &write.key, holder);
        }
    }
    Ok(None)
}

/// That a session holds the key at a place among all that it holds.
fn held_at(
    alloc: Global,
    locks: &Locks,
    name: &Text,
    holder: Holder,
) -> Result<Option<Refusal>, Memory>
    ensures { IfOk result (λ made. made ≡ refusal_at locks.now name.now holder) }
{
    match locks.key_at(holder.session, holder.place) {
        None => Ok(None),
        Some(key) => refusal(alloc, name, key, holder.session),
    }
}

/// 1222 for a table of which another session holds a key: the first key of the table that the least such session holds; None
/// where no other one holds any. `Memory` is the only error.
///
/// T-SQL: 1222. That it comes at once, and names this key and this session, is this project's own.
pub fn blocked_table(
    alloc: Global,
    locks: &Locks,
    session: u8,
    name: &Text,
    table: u32,
) -> Result<Option<Refusal>, Memory>
    ensures { IfOk result (λ made. (sessions : ℕ → SessionState) → AreLocked locks.now sessions → made ≡ spec.blocked_table sessions session name.now table) }
{
    match locks.check_table(session, table) {
        Ok(()) => Ok(None),
        Err(holder) => held_at(alloc, locks, name, holder),
    }
}
