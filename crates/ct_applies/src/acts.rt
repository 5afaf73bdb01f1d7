ghost use Rattle.std.specs.Prelude.{◌≡◌, ◌≢◌, ◌↔◌, ◌<◌, None, IsTrue, IfOk, length};
ghost use Rattle.std.specs.List.{AllByRecursion, list_any};
ghost use Rattle.ct_types.specs.declared.entry.Act.TheVariants as act_is;
ghost use Rattle.ct_model.specs.Applies.{IsNewSchema, MinRises, IsRaise, ActApplies};
ghost use Rattle.ct_model.specs.Lists.{EachToLater};
ghost use Rattle.ct_model.specs.Names.{folded};

use crate::names::is_same_name;
use crate::schemas::{is_schema, name_bytes};
use crate::valid::is_keep_valid;
use crate::writes::writes_apply;
use ct_model::{Db, Table, find_table};
use ct_types::{Act, Keep, List, Memory, Min, Schema, Tracked, Write};
use std::alloc::Global;

/// Whether one of the writes is tracked.
pub fn any_tracked(writes: &[Write]) -> bool
    ensures { result ≡ list_any (λ write. write.tracked) writes.now }
{
    writes.iter().any(|write| write.tracked)
}

fn commit_applies(
    alloc: Global,
    db: &Db,
    version: u64,
    draws: bool,
    writes: &List<Write>,
) -> Result<bool, Memory>
    ensures { IfOk result (λ b. IsTrue b ↔ ActApplies db.now version draws (act_is.Commit writes.now)) }
{
    let writes = writes.as_slice();
    if writes.is_empty() || draws != any_tracked(writes) {
        return Ok(false);
    }
    writes_apply(alloc, writes, &db.tables)
}

fn is_new_table(tables: &[Table], name: &[u8]) -> bool
    ensures { IsTrue result ↔ AllByRecursion (λ table. folded table.schema.name ≢ folded name.now) tables.now }
{
    tables.iter().all(|table| !is_same_name(name_bytes(&table.schema.name), name))
}

/// Whether a schema may go last into these tables: its id is the next one, its name is new, there are fewer than 256 tables, and
/// a definition may give it.
pub fn is_new_schema(tables: &[Table], schema: &Schema) -> bool
    ensures { IsTrue result ↔ IsNewSchema tables.now schema.now }
{
    tables.len() < 256
        && schema.id as usize == tables.len() + 1
        && is_new_table(tables, name_bytes(&schema.name))
        && is_schema(schema)
}

fn define_applies(db: &Db, version: u64, draws: bool, schema: &Schema) -> bool
    ensures { IsTrue result ↔ ActApplies db.now version draws (act_is.Define schema.now) }
{
    !draws && is_new_schema(db.tables.as_slice(), schema)
}

fn truncate_applies(db: &Db, version: u64, draws: bool, id: u32) -> bool
    ensures { IsTrue result ↔ ActApplies db.now version draws (act_is.Truncate id) }
{
    match find_table(db.tables.as_slice(), id) {
        None => false,
        Some(table) => draws == table.tracked.is_some(),
    }
}

fn enable_applies(db: &Db, version: u64, draws: bool, id: u32, masks: bool) -> bool
    ensures { IsTrue result ↔ ActApplies db.now version draws (act_is.Enable id masks) }
{
    if db.keep.is_none() || !draws {
        return false;
    }
    match find_table(db.tables.as_slice(), id) {
        None => false,
        Some(table) => table.tracked.is_none(),
    }
}

fn disable_applies(db: &Db, version: u64, draws: bool, id: u32) -> bool
    ensures { IsTrue result ↔ ActApplies db.now version draws (act_is.Disable id) }
{
    if draws {
        return false;
    }
    match find_table(db.tables.as_slice(), id) {
        None => false,
        Some(table) => table.tracked.is_some(),
    }
}

fn are_untracked(tables: &[Table]) -> bool
    ensures { IsTrue result ↔ AllByRecursion (λ table. table.tracked ≡ None) tables.now }
{
    tables.iter().all(|table| table.tracked.is_none())
}

fn database_applies(db: &Db, version: u64, draws: bool, keep: Option<Keep>) -> bool
    ensures { IsTrue result ↔ ActApplies db.now version draws (act_is.Database keep) }
{
    match keep {
        Some(_) => !draws && is_keep_valid(keep),
        None => !draws && db.keep.is_some() && are_untracked(db.tables.as_slice()),
    }
}

/// Whether a minimum is above that of a table, which is tracked.
pub fn min_rises(min: u64, tracked: Option<Tracked>) -> bool
    ensures { IsTrue result ↔ MinRises min tracked }
{
    match tracked {
        None => false,
        Some(tracked) => tracked.min < min,
    }
}

fn is_raise(tables: &[Table], version: u64, listed: Min) -> bool
    ensures { IsTrue result ↔ IsRaise tables.now version listed }
{
    if listed.min > version {
        return false;
    }
    match find_table(tables, listed.table) {
        None => false,
        Some(table) => min_rises(listed.min, table.tracked),
    }
}

fn are_raises(tables: &[Table], version: u64, minima: &[Min]) -> bool
    ensures { IsTrue result ↔ AllByRecursion (IsRaise tables.now version) minima.now }
{
    minima
        .iter()
        .all(|listed| is_raise(tables, version, *listed))
}

fn are_above(id: u32, minima: &[Min]) -> bool
    ensures { IsTrue result ↔ AllByRecursion (λ listed. id < listed.table) minima.now }
{
    minima.iter().all(|listed| id < listed.table)
}

/// Whether minima stand by rising table, each table once.
pub fn are_rising(minima: &[Min]) -> bool
    ensures { IsTrue result ↔ EachToLater (λ a b. a.table < b.table) minima.now }
{
    match minima {
        [] => true,
        [listed, minima @ ..] => are_above(listed.table, minima) && are_rising(minima),
    }
}

fn raise_applies(db: &Db, version: u64, draws: bool, minima: &List<Min>) -> bool
    ensures { IsTrue result ↔ ActApplies db.now version draws (act_is.Raise minima.now) }
{
    let minima = minima.as_slice();
    !draws
        && minima.len() > 0
        && are_raises(db.tables.as_slice(), version, minima)
        && are_rising(minima)
}

/// Whether an act applies, in an entry with this version that draws it or not.
pub(crate) fn act_applies(
    alloc: Global,
    db: &Db,
    version: u64,
    draws: bool,
    act: &Act,
) -> Result<bool, Memory>
    ensures { IfOk result (λ b. IsTrue b ↔ ActApplies db.now version draws act.now) }
{
    match act {
        Act::Commit(writes) => commit_applies(alloc, db, version, draws, writes),
        Act::Define(schema) => Ok(define_applies(db, version, draws, schema)),
        Act::Truncate(id) => Ok(truncate_applies(db, version, draws, *id)),
        Act::Enable { table, masks } => Ok(enable_applies(db, version, draws, *table, *masks)),
        Act::Disable(id) => Ok(disable_applies(db, version, draws, *id)),
        Act::Database(keep) => Ok(database_applies(db, version, draws, *keep)),
        Act::Raise(minima) => Ok(raise_applies(db, version, draws, minima)),
    }
}
