ghost use Rattle.std.specs.Prelude.{◌==◌, false, OnOk};
ghost use Rattle.std.specs.List.{list_any};
ghost use Rattle.ct_conflicts.specs.Conflicts.{is_on, alters, writes_key};
ghost use Rattle.ct_conflicts.specs.Stamped.{IsStamped};

use crate::stamps::{Stamp, TableStamps, place_of};
use ct_types::{Act, Copies, Memory, Write};
use std::alloc::Global;

/// Stamps the key of a write.
fn stamp_key(
    alloc: Global,
    later: &mut Vec<TableStamps>,
    stamp: Stamp,
    write: &Write,
) -> Result<(), Memory>
    ensures { OnOk result (IsStamped later.new.items later.old.items stamp (λ table key. is_on table key write.now) (λ table. false)) }
{
    let key = write.key.copy(alloc)?;
    let place = place_of(alloc, later, write.table)?;
    let stamps = &mut later[place];
    stamps.written.put(key, stamp)
}

/// Stamps the keys of writes.
fn stamp_keys(
    alloc: Global,
    later: &mut Vec<TableStamps>,
    stamp: Stamp,
    writes: &[Write],
) -> Result<(), Memory>
    ensures { OnOk result (IsStamped later.new.items later.old.items stamp (λ table key. list_any (is_on table key) writes.now) (λ table. false)) }
{
    for write in writes {
        stamp_key(alloc, later, stamp, write)?;
    }
    Ok(())
}

/// Stamps a table.
fn stamp_table(
    alloc: Global,
    later: &mut Vec<TableStamps>,
    stamp: Stamp,
    table: u32,
) -> Result<(), Memory>
    ensures { OnOk result (IsStamped later.new.items later.old.items stamp (λ other key. false) (λ other. table == other)) }
{
    let place = place_of(alloc, later, table)?;
    let stamps = &mut later[place];
    stamps.altered = Some(stamp);
    Ok(())
}

/// Stamps what an act changes. Want of memory leaves some of it stamped.
pub(crate) fn stamp_act(
    alloc: Global,
    later: &mut Vec<TableStamps>,
    stamp: Stamp,
    act: &Act,
) -> Result<(), Memory>
    ensures { OnOk result (IsStamped later.new.items later.old.items stamp (λ table key. writes_key table key act.now) (λ table. alters table act.now)) }
{
    match act {
        Act::Commit(writes) => stamp_keys(alloc, later, stamp, writes.as_slice()),
        Act::Define(schema) => stamp_table(alloc, later, stamp, schema.id),
        Act::Truncate(table) => stamp_table(alloc, later, stamp, *table),
        Act::Enable { table, .. } => stamp_table(alloc, later, stamp, *table),
        Act::Disable(table) => stamp_table(alloc, later, stamp, *table),
        Act::Database(_) | Act::Raise(_) => Ok(()),
    }
}
