ghost use Rattle.std.specs.Prelude.{◌≡◌, ◌≢◌, ◌↔◌, ◌<◌, None, IsTrue, IfOk, length};
ghost use Rattle.std.specs.List.{AllByRecursion};
ghost use Rattle.ct_types.specs.declared.entry.Act.TheVariants as act_is;
ghost use Rattle.ct_model.specs.Applies.{IsNewSchema, IsRaise, ActApplies};
ghost use Rattle.ct_model.specs.Names.{folded};

use crate::writes::writes_apply;
use ct_applies::{
    any_tracked, are_rising, is_keep_valid, is_same_name, is_schema, min_rises, name_bytes,
};
use ct_database::Database;
use ct_types::{Act, Catalogued, Keep, List, Memory, Min, Schema, Write};
use std::alloc::Global;

fn commit_applies(
    alloc: Global,
    database: &Database,
    version: u64,
    draws: bool,
    writes: &List<Write>,
) -> Result<bool, Memory>
    ensures { IfOk result (λ b. IsTrue b ↔ ActApplies database.now version draws (act_is.Commit writes.now)) }
{
    let writes = writes.as_slice();
    if writes.is_empty() || draws != any_tracked(writes) {
        return Ok(false);
    }
    writes_apply(alloc, database, writes)
}

fn is_new_table(catalogue: &[Catalogued], name: &[u8]) -> bool
    ensures { IsTrue result ↔ AllByRecursion (λ table. folded table.schema.name ≢ folded name.now) catalogue.now }
{
    catalogue.iter().all(|table| !is_same_name(name_bytes(&table.schema.name), name))
}

/// Whether no table of a database has this name.
fn is_new_name(database: &Database, name: &[u8]) -> bool
    ensures { IsTrue result ↔ AllByRecursion (λ table. folded table.schema.name ≢ folded name.now) database.now.tables }
{
    is_new_table(database.catalogue(), name)
}

/// How many tables a database has.
fn table_count(database: &Database) -> usize
    ensures { result ≡ length database.now.tables }
{
    database.catalogue().len()
}

fn is_new_schema(database: &Database, schema: &Schema) -> bool
    ensures { IsTrue result ↔ IsNewSchema database.now.tables schema.now }
{
    let count = table_count(database);
    count < 256
        && schema.id as usize == count + 1
        && is_new_name(database, name_bytes(&schema.name))
        && is_schema(schema)
}

fn define_applies(database: &Database, version: u64, draws: bool, schema: &Schema) -> bool
    ensures { IsTrue result ↔ ActApplies database.now version draws (act_is.Define schema.now) }
{
    !draws && is_new_schema(database, schema)
}

fn truncate_applies(database: &Database, version: u64, draws: bool, id: u32) -> bool
    ensures { IsTrue result ↔ ActApplies database.now version draws (act_is.Truncate id) }
{
    match database.table(id) {
        None => false,
        Some(table) => draws == table.tracked().is_some(),
    }
}

fn enable_applies(database: &Database, version: u64, draws: bool, id: u32, masks: bool) -> bool
    ensures { IsTrue result ↔ ActApplies database.now version draws (act_is.Enable id masks) }
{
    if database.keep().is_none() || !draws {
        return false;
    }
    match database.table(id) {
        None => false,
        Some(table) => table.tracked().is_none(),
    }
}

fn disable_applies(database: &Database, version: u64, draws: bool, id: u32) -> bool
    ensures { IsTrue result ↔ ActApplies database.now version draws (act_is.Disable id) }
{
    if draws {
        return false;
    }
    match database.table(id) {
        None => false,
        Some(table) => table.tracked().is_some(),
    }
}

fn are_untracked(catalogue: &[Catalogued]) -> bool
    ensures { IsTrue result ↔ AllByRecursion (λ table. table.tracked ≡ None) catalogue.now }
{
    catalogue.iter().all(|table| table.tracked.is_none())
}

/// Whether no table of a database is tracked.
fn none_tracked(database: &Database) -> bool
    ensures { IsTrue result ↔ AllByRecursion (λ table. table.tracked ≡ None) database.now.tables }
{
    are_untracked(database.catalogue())
}

fn database_applies(database: &Database, version: u64, draws: bool, keep: Option<Keep>) -> bool
    ensures { IsTrue result ↔ ActApplies database.now version draws (act_is.Database keep) }
{
    match keep {
        Some(_) => !draws && is_keep_valid(keep),
        None => !draws && database.keep().is_some() && none_tracked(database),
    }
}

fn is_raise(database: &Database, version: u64, listed: Min) -> bool
    ensures { IsTrue result ↔ IsRaise database.now.tables version listed }
{
    if listed.min > version {
        return false;
    }
    match database.table(listed.table) {
        None => false,
        Some(table) => min_rises(listed.min, table.tracked()),
    }
}

fn are_raises(database: &Database, version: u64, minima: &[Min]) -> bool
    ensures { IsTrue result ↔ AllByRecursion (IsRaise database.now.tables version) minima.now }
{
    minima
        .iter()
        .all(|listed| is_raise(database, version, *listed))
}

fn raise_applies(database: &Database, version: u64, draws: bool, minima: &List<Min>) -> bool
    ensures { IsTrue result ↔ ActApplies database.now version draws (act_is.Raise minima.now) }
{
    let minima = minima.as_slice();
    !draws && minima.len() > 0 && are_raises(database, version, minima) && are_rising(minima)
}

/// Whether an act applies, in an entry with this version that draws it or not.
pub(crate) fn act_applies(
    alloc: Global,
    database: &Database,
    version: u64,
    draws: bool,
    act: &Act,
) -> Result<bool, Memory>
    ensures { IfOk result (λ b. IsTrue b ↔ ActApplies database.now version draws act.now) }
{
    match act {
        Act::Commit(writes) => commit_applies(alloc, database, version, draws, writes),
        Act::Define(schema) => Ok(define_applies(database, version, draws, schema)),
        Act::Truncate(id) => Ok(truncate_applies(database, version, draws, *id)),
        Act::Enable { table, masks } => {
            Ok(enable_applies(database, version, draws, *table, *masks))
        }
        Act::Disable(id) => Ok(disable_applies(database, version, draws, *id)),
        Act::Database(keep) => Ok(database_applies(database, version, draws, *keep)),
        Act::Raise(minima) => Ok(raise_applies(database, version, draws, minima)),
    }
}
