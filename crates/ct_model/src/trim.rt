ghost use Rattle.std.specs.Prelude.{◌≡◌, ◌++◌, ◌∷◌, [], IfOk, map, filter, if◌then◌else◌};
ghost use Rattle.ct_model.specs.Apply.{changes_of, kept_of, change_of, change_stays, commit_stays, trim, trim_one};
ghost use Rattle.ct_model.specs.Tables.{is_above as is_above_min};

use crate::Table;
use ct_types::{Act, Change, Copies, Entry, Kept, List, Memory, Tracked, Write};
use std::alloc::Global;

fn is_above(version: u64, tracked: Option<Tracked>) -> bool
    ensures { result ≡ is_above_min version tracked }
{
    tracked.is_some_and(|tracked| tracked.min < version)
}

fn keeps_change(tables: &[Table], version: u64, change: &Change) -> bool
    ensures { result ≡ change_stays tables.now version change.now }
{
    tables.iter().any(|table| table.schema.id == change.table && is_above(version, table.tracked))
}

fn keeps_commit(tables: &[Table], kept: &Kept) -> bool
    ensures { result ≡ commit_stays tables.now kept.now }
{
    tables
        .iter()
        .any(|table| is_above(kept.version, table.tracked))
}

fn trim_changes(
    alloc: Global,
    tables: &[Table],
    version: u64,
    changes: &[Change],
) -> Result<List<Change>, Memory>
    ensures { IfOk result (λ made. made ≡ filter (change_stays tables.now version) changes.now) }
{
    let mut made = List::new(alloc);
    for change in changes {
        if keeps_change(tables, version, change) {
            made.push(change.copy(alloc)?)?;
        }
    }
    Ok(made)
}

fn trim_kept(alloc: Global, tables: &[Table], kept: &Kept) -> Result<Kept, Memory>
    ensures { IfOk result (λ made. made ≡ trim_one tables.now kept.now) }
{
    Ok(Kept {
        version: kept.version,
        xdes: kept.xdes,
        time: kept.time,
        changes: trim_changes(alloc, tables, kept.version, kept.changes.as_slice())?,
    })
}

/// The kept commits that stay, with the changes that stay.
pub(crate) fn trim_all(alloc: Global, tables: &[Table], kept: &[Kept]) -> Result<List<Kept>, Memory>
    ensures { IfOk result (λ made. made ≡ trim tables.now kept.now) }
{
    let mut made = List::new(alloc);
    for one in kept {
        if keeps_commit(tables, one) {
            made.push(trim_kept(alloc, tables, one)?)?;
        }
    }
    Ok(made)
}

fn tracked_changes(alloc: Global, writes: &[Write]) -> Result<List<Change>, Memory>
    ensures { IfOk result (λ made. made ≡ map change_of (filter (λ write. write.tracked) writes.now)) }
{
    let mut made = List::new(alloc);
    for write in writes {
        if write.tracked {
            made.push(Change {
                table: write.table,
                key: write.key.copy(alloc)?,
                op: write.op,
                mask: write.mask,
                context: write.context.copy(alloc)?,
            })?;
        }
    }
    Ok(made)
}

fn entry_changes(alloc: Global, act: &Act) -> Result<List<Change>, Memory>
    ensures { IfOk result (λ made. made ≡ changes_of act.now) }
{
    match act {
        Act::Commit(writes) => tracked_changes(alloc, writes.as_slice()),
        _ => Ok(List::new(alloc)),
    }
}

/// The kept commits with that of an entry that draws at their end.
pub(crate) fn with_entry(
    alloc: Global,
    entry: &Entry,
    kept: &List<Kept>,
) -> Result<List<Kept>, Memory>
    ensures { IfOk result (λ made. made ≡ (if entry.now.draws then kept.now ++ kept_of entry.now ∷ [] else kept.now)) }
{
    let mut made = kept.copy(alloc)?;
    if entry.draws {
        made.push(Kept {
            version: entry.version,
            xdes: entry.xdes,
            time: entry.time,
            changes: entry_changes(alloc, &entry.act)?,
        })?;
    }
    Ok(made)
}
