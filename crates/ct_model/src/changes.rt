ghost use Rattle.std.specs.Prelude.{◌≡◌, IfOk, OnOk, List as Listed, [], map, filter, fold, flat_map, ◌==◌, ◌++◌, ◌∷◌};
ghost use Rattle.std.specs.Option.{option_map, option_copied, option_to_list};
ghost use Rattle.std.specs.List.{filter_map};
ghost use Rattle.std.specs.Ordering.{is_lt, is_gt};
ghost use Rattle.ct_types.specs.Order.{key_cmp};
ghost use Rattle.ct_model.specs.Net.{floor_of, dated_in, changes_above, window, with_key, keys_of, last_of, is_insert, has_insert, op_after, inserts_of, row_of, net_rows, net_tracked, net as net_changes};

use crate::masks::net_mask;
use crate::tables::find_table;
use crate::{Dated, Db};
use ct_types::{Change, Copies, Kept, Key, List, Memory, NetRow, Op, Schema, Tracked, cmp_key};
use std::alloc::Global;
use std::cmp::Ordering;

fn floor(min: u64, last: Option<i64>) -> u64
    ensures { result ≡ floor_of min last }
{
    match last {
        Some(last) if last >= 0 => min.max(last as u64),
        _ => min,
    }
}

fn dated_changes(
    alloc: Global,
    table: u32,
    version: u64,
    changes: &[Change],
) -> Result<List<Dated>, Memory>
    ensures { IfOk result (λ made. made ≡ map (λ change. record { version = version; change = change }) (filter (λ change. change.table == table) changes.now)) }
{
    let mut made = List::new(alloc);
    for change in changes {
        if change.table == table {
            made.push(Dated {
                version,
                change: change.copy(alloc)?,
            })?;
        }
    }
    Ok(made)
}

fn commit_changes(alloc: Global, table: u32, floor: u64, kept: &Kept) -> Result<List<Dated>, Memory>
    ensures { IfOk result (λ made. made ≡ dated_in table floor kept.now) }
{
    if floor < kept.version {
        dated_changes(alloc, table, kept.version, kept.changes.as_slice())
    } else {
        Ok(List::new(alloc))
    }
}

fn append(all: &mut List<Dated>, more: &[Dated], alloc: Global) -> Result<(), Memory>
    ensures { OnOk result (all.new ≡ all.old ++ more.now) }
{
    for dated in more {
        all.push(dated.copy(alloc)?)?;
    }
    Ok(())
}

fn table_changes(
    alloc: Global,
    table: u32,
    floor: u64,
    kept: &[Kept],
) -> Result<List<Dated>, Memory>
    ensures { IfOk result (λ made. made ≡ changes_above table floor kept.now) }
{
    let mut all = List::new(alloc);
    for one in kept {
        let more = commit_changes(alloc, table, floor, one)?;
        append(&mut all, more.as_slice(), alloc)?;
    }
    Ok(all)
}

fn key_changes(alloc: Global, changes: &[Dated], key: &Key) -> Result<List<Dated>, Memory>
    ensures { IfOk result (λ made. made ≡ window changes.now key.now) }
{
    let mut made = List::new(alloc);
    for dated in changes {
        if cmp_key(&dated.change.key, key) == Ordering::Equal {
            made.push(dated.copy(alloc)?)?;
        }
    }
    Ok(made)
}

fn keys_before(alloc: Global, keys: &[Key], key: &Key) -> Result<List<Key>, Memory>
    ensures { IfOk result (λ made. made ≡ filter (λ k. is_lt (key_cmp k key.now)) keys.now) }
{
    let mut made = List::new(alloc);
    for old in keys {
        if cmp_key(old, key) == Ordering::Less {
            made.push(old.copy(alloc)?)?;
        }
    }
    Ok(made)
}

fn push_keys_after(
    alloc: Global,
    keys: &[Key],
    key: &Key,
    made: &mut List<Key>,
) -> Result<(), Memory>
    ensures { OnOk result (made.new ≡ made.old ++ filter (λ k. is_gt (key_cmp k key.now)) keys.now) }
{
    for old in keys {
        if cmp_key(old, key) == Ordering::Greater {
            made.push(old.copy(alloc)?)?;
        }
    }
    Ok(())
}

fn put_key(alloc: Global, keys: &[Key], key: &Key) -> Result<List<Key>, Memory>
    ensures { IfOk result (λ made. made ≡ with_key keys.now key.now) }
{
    let mut made = keys_before(alloc, keys, key)?;
    made.push(key.copy(alloc)?)?;
    push_keys_after(alloc, keys, key, &mut made)?;
    Ok(made)
}

fn changed_keys(alloc: Global, changes: &[Dated]) -> Result<List<Key>, Memory>
    ensures { IfOk result (λ made. made ≡ keys_of changes.now) }
{
    let mut keys = List::new(alloc);
    for dated in changes {
        keys = put_key(alloc, keys.as_slice(), &dated.change.key)?;
    }
    Ok(keys)
}

fn inserts(op: Op) -> bool
    ensures { result ≡ is_insert op }
{
    op == Op::Insert
}

fn any_insert(changes: &[Dated]) -> bool
    ensures { result ≡ has_insert changes.now }
{
    changes.iter().any(|dated| inserts(dated.change.op))
}

fn net_op(last: Op, inserted: bool) -> Op
    ensures { result ≡ op_after last inserted }
{
    match last {
        Op::Delete => Op::Delete,
        Op::Insert | Op::Update => { if inserted { Op::Insert } else { Op::Update } }
    }
}

fn only_inserts(alloc: Global, changes: &[Dated]) -> Result<List<Dated>, Memory>
    ensures { IfOk result (λ made. made ≡ inserts_of changes.now) }
{
    let mut made = List::new(alloc);
    for dated in changes {
        if inserts(dated.change.op) {
            made.push(dated.copy(alloc)?)?;
        }
    }
    Ok(made)
}

fn last_change(changes: &[Dated]) -> Option<&Dated>
    ensures { option_copied result ≡ last_of changes.now }
{
    changes.last()
}

fn last_version(changes: &[Dated]) -> Option<u64>
    ensures { result ≡ option_map (λ dated. dated.version) (last_of changes.now) }
{
    last_change(changes).map(|dated| dated.version)
}

fn net_row(
    alloc: Global,
    schema: &Schema,
    masks: bool,
    changes: &[Dated],
    last: &Dated,
) -> Result<NetRow, Memory>
    ensures { IfOk result (λ made. made ≡ row_of schema.now masks changes.now last.now) }
{
    let op = net_op(last.change.op, any_insert(changes));
    Ok(NetRow {
        version: last.version,
        creation: last_version(only_inserts(alloc, changes)?.as_slice()),
        op,
        mask: net_mask(schema, masks, op, changes),
        context: last.change.context.copy(alloc)?,
        key: last.change.key.copy(alloc)?,
    })
}

fn key_row(
    alloc: Global,
    schema: &Schema,
    masks: bool,
    changes: &[Dated],
    key: &Key,
) -> Result<Option<NetRow>, Memory>
    ensures { IfOk result (λ made. made ≡ option_map (row_of schema.now masks (window changes.now key.now)) (last_of (window changes.now key.now))) }
{
    let changes = key_changes(alloc, changes, key)?;
    match last_change(changes.as_slice()) {
        Some(last) => Ok(Some(net_row(alloc, schema, masks, changes.as_slice(), last)?)),
        None => Ok(None),
    }
}

fn push_some(rows: &mut List<NetRow>, row: Option<NetRow>) -> Result<(), Memory>
    ensures { OnOk result (rows.new ≡ rows.old ++ option_to_list row) }
{
    if let Some(row) = row {
        rows.push(row)?;
    }
    Ok(())
}

fn key_rows(
    alloc: Global,
    schema: &Schema,
    masks: bool,
    changes: &[Dated],
    keys: &[Key],
) -> Result<List<NetRow>, Memory>
    ensures { IfOk result (λ made. made ≡ filter_map (λ key. option_map (row_of schema.now masks (window changes.now key)) (last_of (window changes.now key))) keys.now) }
{
    let mut made = List::new(alloc);
    for key in keys {
        push_some(&mut made, key_row(alloc, schema, masks, changes, key)?)?;
    }
    Ok(made)
}

fn tracked_rows(
    alloc: Global,
    schema: &Schema,
    tracked: Tracked,
    kept: &[Kept],
    last: Option<i64>,
) -> Result<List<NetRow>, Memory>
    ensures { IfOk result (λ made. made ≡ net_rows schema.now tracked.masks (changes_above schema.now.id (floor_of tracked.min last) kept.now)) }
{
    let changes = table_changes(alloc, schema.id, floor(tracked.min, last), kept)?;
    let keys = changed_keys(alloc, changes.as_slice())?;
    key_rows(
        alloc,
        schema,
        tracked.masks,
        changes.as_slice(),
        keys.as_slice(),
    )
}

fn rows_of(
    alloc: Global,
    schema: &Schema,
    tracked: Option<Tracked>,
    kept: &[Kept],
    last: Option<i64>,
) -> Result<List<NetRow>, Memory>
    ensures { IfOk result (λ made. made ≡ net_tracked schema.now tracked kept.now last) }
{
    match tracked {
        None => Ok(List::new(alloc)),
        Some(tracked) => tracked_rows(alloc, schema, tracked, kept, last),
    }
}

/// The net changes of a table above a version: one row for each key that changed, in key order. NULL names the
/// table's minimum, and so does a version below it. A table that is not tracked, or is none, has no net changes.
///
/// The rows are those of CHANGETABLE(CHANGES ..).
#[tactic(auto, unfolding(crate::specs::Net::net))]
pub fn net(alloc: Global, db: &Db, table: u32, last: Option<i64>) -> Result<List<NetRow>, Memory>
    ensures { IfOk result (λ made. made ≡ net_changes db.now table last) }
{
    match find_table(db.tables.as_slice(), table) {
        None => Ok(List::new(alloc)),
        Some(table) => rows_of(
            alloc,
            &table.schema,
            table.tracked,
            db.kept.as_slice(),
            last,
        ),
    }
}
