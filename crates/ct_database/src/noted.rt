ghost use Rattle.std.specs.Prelude.{◌≡◌, ◌<◌, ◌++◌, ◌∷◌, [], ℕ, true, false, IfOk, OnOk, Some, List as Listed};
ghost use Rattle.std.specs.List.{AllByRecursion, list_any};
ghost use Rattle.ct_types.specs.declared.entry.Kept.{Kept};
ghost use Rattle.ct_types.specs.declared.value.Key.{Key};
ghost use Rattle.ct_ptree.specs.Pairs.{value_at};
ghost use Rattle.ct_database.specs.Steps.{AreNoted, MayBeNoted, Rise, commits_of, is_of, own_key as key_of_own, pointed};

use crate::chunk::Chunk;
use ct_ptree::Tree;
use ct_types::{Change, Copies, Kept, Key, List, Memory, Value, push};
use std::alloc::Global;
use std::sync::Arc;

/// The key at which the last change of a key of a table is noted: the table's id, and then the key.
#[tactic(auto, unfolding(crate::specs::Steps::own_key))]
pub(crate) fn own_key(alloc: Global, table: u32, key: &Key) -> Result<Key, Memory>
    ensures { IfOk result (λ made. made ≡ key_of_own table key.now) }
{
    let mut values = List::new(alloc);
    push(&mut values, Value::Int(i64::from(table)))?;
    for value in key.0.as_slice() {
        push(&mut values, value.copy(alloc)?)?;
    }
    Ok(Key(values))
}

/// Notes a version as that of the last change of each key that is changed. Want of memory leaves some of them noted.
fn note(
    alloc: Global,
    lasts: &mut Tree<u64>,
    version: u64,
    changes: &[Change],
) -> Result<(), Memory>
    ensures own { OnOk result ((table : ℕ) (key : Key) → list_any (is_of table key) changes.now ≡ true → value_at lasts.new (key_of_own table key) ≡ Some version) }
    ensures others { (table : ℕ) (key : Key) → list_any (is_of table key) changes.now ≡ false → value_at lasts.new (key_of_own table key) ≡ value_at lasts.old (key_of_own table key) }
{
    for change in changes {
        let own = own_key(alloc, change.table, &change.key)?;
        lasts.put(own, version)?;
    }
    Ok(())
}

/// Notes what a commit behind others changes. Want of memory leaves some of it noted, which spoils no other note.
fn note_one(alloc: Global, lasts: &mut Tree<u64>, one: &Kept) -> Result<(), Memory>
    ensures done { OnOk result ((older : Listed Kept) → AreNoted older (one.now ∷ []) lasts.old → AreNoted (older ++ one.now ∷ []) [] lasts.new) }
    ensures others { (older : Listed Kept) → AreNoted older (one.now ∷ []) lasts.old → AreNoted older (one.now ∷ []) lasts.new }
{
    note(alloc, lasts, one.version, one.changes.as_slice())
}

/// Notes what commits behind others change. Want of memory leaves some of it noted.
pub(crate) fn note_all(
    alloc: Global,
    lasts: &mut Tree<u64>,
    commits: &[Arc<Kept>],
) -> Result<(), Memory>
    ensures { OnOk result ((older : Listed Kept) → AreNoted older [] lasts.old → AreNoted (older ++ pointed commits.now) [] lasts.new) }
{
    for one in commits {
        note_one(alloc, lasts, one)?;
    }
    Ok(())
}

/// The notes on the commits of chunks.
pub(crate) fn notes_of(alloc: Global, sealed: &Tree<Arc<Chunk>>) -> Result<Tree<u64>, Memory>
    ensures { IfOk result (λ made. AreNoted (commits_of sealed.now) [] made) }
{
    let mut made = Tree::new(alloc);
    for pair in sealed.pairs() {
        note_all(alloc, &mut made, pair.value.pointers())?;
    }
    Ok(made)
}

/// Notes what the newest commit changes, where notes are made.
pub(crate) fn note_newest(
    alloc: Global,
    lasts: &mut Option<Tree<u64>>,
    newest: &Kept,
) -> Result<(), Memory>
    ensures done { OnOk result ((older : Listed Kept) → MayBeNoted older (newest.now ∷ []) lasts.old → MayBeNoted (older ++ newest.now ∷ []) [] lasts.new) }
    ensures others { (older : Listed Kept) → MayBeNoted older (newest.now ∷ []) lasts.old → MayBeNoted older (newest.now ∷ []) lasts.new }
{
    match lasts {
        None => Ok(()),
        Some(lasts) => note_one(alloc, lasts, newest),
    }
}
