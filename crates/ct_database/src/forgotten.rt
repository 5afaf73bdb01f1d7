ghost use Rattle.std.specs.Prelude.{◌≡◌, ◌<◌, ◌++◌, ℕ, false, Some, List as Listed};
ghost use Rattle.std.specs.List.{AllByRecursion};
ghost use Rattle.ct_types.specs.declared.entry.Kept.{Kept};
ghost use Rattle.ct_types.specs.declared.value.Key.{Key};
ghost use Rattle.ct_ptree.specs.Pairs.{value_at};
ghost use Rattle.ct_database.specs.Steps.{MayBeNoted, NotesStay, Rise, pointed};

use crate::chunk::Chunk;
use crate::noted::own_key;
use ct_ptree::Tree;
use ct_types::{Change, Kept, Key, Memory};
use std::alloc::Global;
use std::sync::Arc;

/// Whether a version is noted at a key that is not above this one.
fn is_stale(lasts: &Tree<u64>, own: &Key, version: u64) -> bool
    ensures { (noted : ℕ) → version < noted → value_at lasts.now own.now ≡ Some noted → result ≡ false }
{
    match lasts.get(own) {
        None => false,
        Some(noted) => *noted <= version,
    }
}

/// Removes the note on what is changed, unless it names a version above this one.
fn forget_one(
    alloc: Global,
    lasts: &mut Tree<u64>,
    version: u64,
    change: &Change,
) -> Result<(), Memory>
    ensures { NotesStay version lasts.old lasts.new }
{
    let own = own_key(alloc, change.table, &change.key)?;
    if is_stale(lasts, &own, version) {
        lasts.take(&own)?;
    }
    Ok(())
}

/// Removes the notes on changes that name no version above this one. Want of memory leaves some of them.
fn forget(
    alloc: Global,
    lasts: &mut Tree<u64>,
    version: u64,
    changes: &[Change],
) -> Result<(), Memory>
    ensures { NotesStay version lasts.old lasts.new }
{
    for change in changes {
        forget_one(alloc, lasts, version, change)?;
    }
    Ok(())
}

/// Removes the notes on what commits change that name no later version. Want of memory leaves some of them.
fn forget_all(alloc: Global, lasts: &mut Tree<u64>, commits: &[Arc<Kept>]) -> Result<(), Memory>
    ensures { (noted : ℕ) → AllByRecursion (λ one. one.version < noted) (pointed commits.now) → (key : Key) → value_at lasts.old key ≡ Some noted → value_at lasts.new key ≡ Some noted }
{
    for one in commits {
        forget(alloc, lasts, one.version, one.changes.as_slice())?;
    }
    Ok(())
}

/// Removes the notes on commits that are gone, where notes are made. Want of memory leaves some of them: a note of a version whose
/// commit is gone says nothing.
pub(crate) fn forget_chunk(
    alloc: Global,
    lasts: &mut Option<Tree<u64>>,
    gone: &Chunk,
) -> Result<(), Memory>
    ensures { (older newest : Listed Kept) → Rise (gone.now ++ older) → MayBeNoted (gone.now ++ older) newest lasts.old → MayBeNoted older newest lasts.new }
{
    match lasts {
        None => Ok(()),
        Some(lasts) => forget_all(alloc, lasts, gone.pointers()),
    }
}
