ghost use Rattle.std.specs.Prelude.{◌≡◌, IfOk, filter, map};
ghost use Rattle.ct_types.specs.declared.entry.Act.TheVariants.{Commit};
ghost use Rattle.ct_model.specs.Apply.{change_of, changes_of, kept_of};
ghost use Rattle.ct_database.specs.Steps.{added_by, newest_of};

use ct_types::{Act, Change, Copies, Entry, Kept, List, Memory, Write};
use std::alloc::Global;
use std::sync::Arc;

fn tracked_changes(alloc: Global, writes: &[Write]) -> Result<List<Change>, Memory>
    ensures { IfOk result (λ made. made ≡ map change_of (filter (λ write. write.tracked) writes.now)) }
{
    let mut made = List::new(alloc);
    for write in writes {
        if write.tracked {
            made.push(Change {
                table: write.table,
                key: write.key.copy(alloc)?,
                op: write.op,
                mask: write.mask,
                context: write.context.copy(alloc)?,
            })?;
        }
    }
    Ok(made)
}

fn changes(alloc: Global, act: &Act) -> Result<List<Change>, Memory>
    ensures { IfOk result (λ made. made ≡ changes_of act.now) }
{
    match act {
        Act::Commit(writes) => tracked_changes(alloc, writes.as_slice()),
        _ => Ok(List::new(alloc)),
    }
}

/// The commit of an entry, with its changes.
fn whole_commit(alloc: Global, entry: &Entry) -> Result<Kept, Memory>
    ensures { IfOk result (λ made. made ≡ kept_of entry.now) }
{
    Ok(Kept {
        version: entry.version,
        xdes: entry.xdes,
        time: entry.time,
        changes: changes(alloc, &entry.act)?,
    })
}

/// The commit of an entry that draws; none of one that does not.
pub(crate) fn commit_of(alloc: Global, entry: &Entry) -> Result<Option<Arc<Kept>>, Memory>
    ensures { IfOk result (λ made. newest_of made ≡ added_by entry.now) }
{
    if entry.draws {
        Ok(Some(Arc::new(alloc, whole_commit(alloc, entry)?)?))
    } else {
        Ok(None)
    }
}
