ghost use Rattle.std.specs.Prelude.{◌≡◌, ℕ, ◌<◌, ◌||◌, length, slice_index_or, IfOk, OnOk};
ghost use Rattle.std.specs.List.{list_any};
ghost use Rattle.ct_types.specs.declared.value.Key.{Key};
ghost use Rattle.ct_locks.specs.Holdings.{has_key, is_on};

use crate::taken::Taken;
use ct_ptree::Tree;
use ct_types::{Copies, Key, Memory};
use std::alloc::Global;

/// The keys of a table that a session holds.
#[derive(Drop)]
pub(crate) struct KeySet {
    pub(crate) table: u32,
    pub(crate) keys: Tree<()>,
}

/// Whether the set of the table has the key.
pub(crate) fn has(sets: &[KeySet], table: u32, key: &Key) -> bool
    ensures { result ≡ has_key sets.now table key.now }
{
    sets.iter()
        .any(|set| set.table == table && set.keys.get(key).is_some())
}

/// The set of a table, as its place. One that is not there is made, without keys.
fn place_of(alloc: Global, sets: &mut Vec<KeySet>, table: u32) -> Result<usize, Memory>
    ensures within { IfOk result (λ place. place < length sets.new.items) }
    ensures at { IfOk result (λ place. (d : KeySet) → (slice_index_or sets.new.items place d).table ≡ table) }
    ensures same { (other : ℕ) (key : Key) → has_key sets.new.items other key ≡ has_key sets.old.items other key }
{
    if let Some(place) = sets.iter().position(|set| set.table == table) {
        return Ok(place);
    }
    sets.push(KeySet {
        table,
        keys: Tree::new(alloc),
    })?;
    Ok(sets.len() - 1)
}

/// Puts a key into the set of its table.
fn put_key(alloc: Global, sets: &mut Vec<KeySet>, taken: &Taken) -> Result<(), Memory>
    ensures { OnOk result ((table : ℕ) (key : Key) → has_key sets.new.items table key ≡ (has_key sets.old.items table key || is_on table key taken.now)) }
{
    let key = taken.key.copy(alloc)?;
    let place = place_of(alloc, sets, taken.table)?;
    let set = &mut sets[place];
    set.keys.put(key, ())
}

/// A list of shares of all sets, with no copy of a key.
fn shares(alloc: Global, sets: &[KeySet]) -> Result<Vec<KeySet>, Memory>
    ensures { IfOk result (λ made. made.items ≡ sets.now) }
{
    let mut made = Vec::with_capacity(alloc, sets.len())?;
    for set in sets {
        made.push(KeySet {
            table: set.table,
            keys: set.keys.share()?,
        })?;
    }
    Ok(made)
}

/// The sets with these keys more, each in that of its table.
pub(crate) fn with_keys(
    alloc: Global,
    sets: &[KeySet],
    added: &[Taken],
) -> Result<Vec<KeySet>, Memory>
    ensures { IfOk result (λ made. (table : ℕ) (key : Key) → has_key made.items table key ≡ (has_key sets.now table key || list_any (is_on table key) added.now)) }
{
    let mut made = shares(alloc, sets)?;
    for taken in added {
        put_key(alloc, &mut made, taken)?;
    }
    Ok(made)
}
