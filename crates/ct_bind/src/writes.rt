ghost use Rattle.std.specs.Prelude.{◌≡◌, ◌≤◌, [], map, length, Ok, Err, IfOk, MatchResult};
ghost use Rattle.ct_types.specs.Answers.{Gives, Lends, each, each_after, optional};
ghost use Rattle.ct_bind_names.specs.Names.{same, table_name as name_of};
ghost use Rattle.ct_bind_names.specs.Catalogue.{existing_table as table_of};
ghost use Rattle.ct_bind_expr.specs.Among.{among};
ghost use Rattle.ct_bind.specs.Limits.{HaveFewColumns};
ghost use Rattle.ct_bind.specs.Writes as spec;

use crate::hold::with_held;
use crate::queries::filter_of;
use crate::sources::{one_shape, optional_as, source_name, table_shape, walked_as};
use ct_bind_expr::{Binder, Place};
use ct_bind_kinds::{Kind, kind_of_type};
use ct_bind_names::{existing_table, is_among, last_part, same_name, table_name};
use ct_types::{
    BoundExpr, BoundSet, BoundWrite, Catalogued, Column, Copies, Expr, List, Memory, ObjectName,
    Refusal, RowChange, Schema, SetColumn, TableSource, Text, WriteStmt, push,
};
use sqlite_items::Items;
use std::alloc::Global;

/// A column that is written: its id and the kind of its values.
#[derive(Clone, Copy)]
pub(crate) struct Target {
    pub(crate) column: u16,
    pub(crate) kind: Kind,
}

/// All columns, whose ids count from 1.
#[tactic(auto, unfolding(crate::specs::Writes::targets_from))]
fn all_targets(alloc: Global, columns: &[Column]) -> Result<List<Target>, Memory>
    requires { length columns.now ≤ 64 }
    ensures { IfOk result (λ made. made ≡ spec.targets_from 1 columns.now) }
{
    let mut made = List::new(alloc);
    let mut id = 1;
    for column in columns {
        made.push(Target {
            column: id,
            kind: kind_of_type(column.kind),
        })?;
        id += 1;
    }
    Ok(made)
}

#[tactic(auto, unfolding(crate::specs::Writes::target_from))]
fn find_target(columns: &[Column], name: &Text) -> Option<Target>
    requires { length columns.now ≤ 64 }
    ensures { result ≡ spec.target_from name.now 1 columns.now }
{
    let mut id = 1;
    for column in columns {
        if same_name(column.name.as_str(), name.as_str()) {
            return Some(Target {
                column: id,
                kind: kind_of_type(column.kind),
            });
        }
        id += 1;
    }
    None
}

/// The column of that name: 207 where the table has none.
#[tactic(auto, unfolding(crate::specs::Writes::table_target))]
fn table_target(alloc: Global, table: &Schema, name: &Text) -> Result<Target, Refusal>
    requires { length table.now.columns ≤ 64 }
    ensures { Gives (spec.table_target table.now name.now) result }
{
    match find_target(table.columns.as_slice(), name) {
        Some(target) => Ok(target),
        None => Err(Refusal::NoColumn {
            name: name.copy(alloc)?,
        }),
    }
}

/// A column of the list of an INSERT: ambiguous where the list has it before.
#[tactic(auto, unfolding(crate::specs::Writes::listed_target))]
fn listed_target(
    alloc: Global,
    table: &Schema,
    before: &[Text],
    name: &Text,
) -> Result<Target, Refusal>
    requires { length table.now.columns ≤ 64 }
    ensures { Gives (spec.listed_target table.now before.now name.now) result }
{
    let target = table_target(alloc, table, name)?;
    if is_among(name, before) {
        return Err(Refusal::Ambiguous {
            name: name.copy(alloc)?,
        });
    }
    Ok(target)
}

#[tactic(auto, using(ct_bind_names::proofs::Walks::each_after_onto, ct_bind_names::proofs::Walks::each_after_stops))]
fn listed_targets(alloc: Global, table: &Schema, names: &[Text]) -> Result<List<Target>, Refusal>
    requires { length table.now.columns ≤ 64 }
    ensures { Gives (each_after (spec.listed_target table.now) [] names.now) result }
{
    let mut made = List::new(alloc);
    for at in 0..names.len() {
        let target = listed_target(alloc, table, &names[..at], &names[at])?;
        push(&mut made, target)?;
    }
    Ok(made)
}

/// The columns of an INSERT; where no list is written, all in order.
#[tactic(auto, unfolding(crate::specs::Writes::insert_targets))]
fn insert_targets(
    alloc: Global,
    table: &Schema,
    columns: &Option<List<Text>>,
) -> Result<List<Target>, Refusal>
    requires { length table.now.columns ≤ 64 }
    ensures { Gives (spec.insert_targets table.now columns.now) result }
{
    match columns {
        None => Ok(all_targets(alloc, table.columns.as_slice())?),
        Some(names) => listed_targets(alloc, table, names.as_slice()),
    }
}

fn is_set(name: &Text, before: &[SetColumn]) -> bool
    ensures { result ≡ spec.is_set name.now before.now }
{
    for set in before {
        if same_name(name.as_str(), set.column.as_str()) {
            return true;
        }
    }
    false
}

fn is_key(table: &Schema, column: u16) -> bool
    ensures { result ≡ spec.is_key table.now column }
{
    table.key.as_slice().contains(&column)
}

/// The column of a SET: 207, ambiguous where it is set before, KeyUpdate where it is of the key.
#[tactic(auto, unfolding(crate::specs::Writes::set_target))]
fn set_target(
    alloc: Global,
    table: &Schema,
    before: &[SetColumn],
    name: &Text,
) -> Result<Target, Refusal>
    requires { length table.now.columns ≤ 64 }
    ensures { Gives (spec.set_target table.now before.now name.now) result }
{
    let target = table_target(alloc, table, name)?;
    if is_set(name, before) {
        return Err(Refusal::Ambiguous {
            name: name.copy(alloc)?,
        });
    }
    if is_key(table, target.column) {
        return Err(Refusal::KeyUpdate {
            name: name.copy(alloc)?,
        });
    }
    Ok(target)
}

fn is_same_table(alloc: Global, a: &ObjectName, b: &ObjectName) -> Result<bool, Memory>
    ensures { IfOk result (λ is_same. is_same ≡ same (name_of a.now) (name_of b.now)) }
{
    let a = table_name(alloc, a)?;
    let b = table_name(alloc, b)?;
    Ok(same_name(a.as_str(), b.as_str()))
}

/// The name of an UPDATE's row: 208 where its FROM names another table.
#[tactic(auto, unfolding(crate::specs::Writes::updated_name))]
fn updated_name<'a>(
    alloc: Global,
    table: &'a ObjectName,
    from: &'a Option<TableSource>,
) -> Result<&'a Text, Refusal>
    ensures { Lends (spec.updated_name table.now from.now) result }
{
    match from {
        None => Ok(last_part(table)),
        Some(from) => {
            if is_same_table(alloc, &from.table, table)? {
                Ok(source_name(from))
            } else {
                Err(Refusal::NoObject {
                    name: table_name(alloc, &from.table)?,
                })
            }
        }
    }
}

/// A place on a row of the table under this name.
fn row_named(alloc: Global, name: &Text, table: &Schema) -> Result<Place, Memory>
    ensures { IfOk result (λ place. place ≡ spec.row_named name.now table.now) }
{
    let shape = table_shape(alloc, name, table)?;
    Ok(Place::row(alloc, one_shape(alloc, shape)?))
}

#[tactic(auto, unfolding(crate::specs::Writes::context_of, ct_bind_expr::specs::Versions::operand))]
fn optional_context(
    binder: &Binder<'_>,
    context: &Option<Expr>,
) -> Result<Option<BoundExpr>, Refusal>
    ensures { Gives (optional (among binder.now spec.context_of) context.now) result }
{
    optional_as(binder, Kind::Bytes, &Place::closed(binder.alloc), context)
}

fn kinds_of(alloc: Global, targets: &[Target]) -> Result<List<Kind>, Memory>
    ensures { IfOk result (λ made. made ≡ map (λ target. target.kind) targets.now) }
{
    let mut made = List::new(alloc);
    for target in targets {
        made.push(target.kind)?;
    }
    Ok(made)
}

fn ids_of(alloc: Global, targets: &[Target]) -> Result<List<u16>, Memory>
    ensures { IfOk result (λ made. made ≡ map (λ target. target.column) targets.now) }
{
    let mut made = List::new(alloc);
    for target in targets {
        made.push(target.column)?;
    }
    Ok(made)
}

#[tactic(auto, unfolding(crate::specs::Writes::tuple_of))]
fn tuple_of(
    binder: &Binder<'_>,
    targets: &[Target],
    values: &[Expr],
) -> Result<Items<BoundExpr>, Refusal>
    ensures { Gives (among binder.now spec.tuple_of targets.now values.now) result }
{
    let kinds = kinds_of(binder.alloc, targets)?;
    let place = Place::closed(binder.alloc);
    binder.tuple(&place, kinds.as_slice(), values)
}

#[tactic(auto, using(ct_bind_names::proofs::Walks::each_onto, ct_bind_names::proofs::Walks::each_stops))]
fn tuples_of(
    binder: &Binder<'_>,
    targets: &[Target],
    tuples: &[Items<Expr>],
) -> Result<List<Items<BoundExpr>>, Refusal>
    ensures { Gives (each (among binder.now spec.tuple_of targets.now) tuples.now) result }
{
    let mut made = List::new(binder.alloc);
    for values in tuples {
        let values = tuple_of(binder, targets, values.as_slice())?;
        push(&mut made, values)?;
    }
    Ok(made)
}

#[tactic(auto, unfolding(crate::specs::Writes::insert_change))]
fn insert_change(
    binder: &Binder<'_>,
    table: &Schema,
    columns: &Option<List<Text>>,
    tuples: &[Items<Expr>],
) -> Result<RowChange, Refusal>
    requires { length table.now.columns ≤ 64 }
    ensures { Gives (among binder.now spec.insert_change table.now columns.now tuples.now) result }
{
    let targets = insert_targets(binder.alloc, table, columns)?;
    if tuples.len() > 1000 {
        return Err(Refusal::TooMany { limit: 1000 });
    }
    let tuples = tuples_of(binder, targets.as_slice(), tuples)?;
    let columns = ids_of(binder.alloc, targets.as_slice());
    let (columns, tuples) = with_held(columns, tuples)?;
    Ok(RowChange::Insert { columns, tuples })
}

#[tactic(auto, unfolding(crate::specs::Writes::set_of, ct_bind_expr::specs::Versions::operand))]
fn set_of(
    binder: &Binder<'_>,
    table: &Schema,
    place: &Place,
    before: &[SetColumn],
    it: &SetColumn,
) -> Result<BoundSet, Refusal>
    requires { length table.now.columns ≤ 64 }
    ensures { Gives (among binder.now spec.set_of table.now place.now before.now it.now) result }
{
    let target = set_target(binder.alloc, table, before, &it.column)?;
    let value = walked_as(binder, target.kind, place, &it.value)?;
    Ok(BoundSet {
        column: target.column,
        value,
    })
}

#[tactic(auto, using(ct_bind_names::proofs::Walks::each_after_onto, ct_bind_names::proofs::Walks::each_after_stops))]
fn sets_of(
    binder: &Binder<'_>,
    table: &Schema,
    place: &Place,
    sets: &[SetColumn],
) -> Result<List<BoundSet>, Refusal>
    requires { length table.now.columns ≤ 64 }
    ensures { Gives (each_after (among binder.now spec.set_of table.now place.now) [] sets.now) result }
{
    let mut made = List::new(binder.alloc);
    for at in 0..sets.len() {
        let set = set_of(binder, table, place, &sets[..at], &sets[at])?;
        push(&mut made, set)?;
    }
    Ok(made)
}

/// A change of the table's rows, under this name.
#[tactic(auto, unfolding(crate::specs::Writes::update_change))]
fn update_change(
    binder: &Binder<'_>,
    table: &Schema,
    name: &Text,
    sets: &[SetColumn],
    filter: &Option<Expr>,
) -> Result<RowChange, Refusal>
    requires { length table.now.columns ≤ 64 }
    ensures { Gives (among binder.now spec.update_change table.now (spec.row_named name.now table.now) sets.now filter.now) result }
{
    let place = row_named(binder.alloc, name, table)?;
    let (sets, place) = with_held(sets_of(binder, table, &place, sets), place)?;
    let (filter, (sets, _place)) = with_held(filter_of(binder, &place, filter), (sets, place))?;
    Ok(RowChange::Update { sets, filter })
}

/// A removal of the table's rows, under this name.
#[tactic(auto, unfolding(crate::specs::Writes::delete_change))]
fn delete_change(
    binder: &Binder<'_>,
    table: &Schema,
    name: &Text,
    filter: &Option<Expr>,
) -> Result<RowChange, Refusal>
    ensures { Gives (among binder.now spec.delete_change (spec.row_named name.now table.now) filter.now) result }
{
    let place = row_named(binder.alloc, name, table)?;
    let (filter, _place) = with_held(filter_of(binder, &place, filter), place)?;
    Ok(RowChange::Delete { filter })
}

/// The write of a change, where there is one.
fn written(
    table: &Schema,
    context: Option<BoundExpr>,
    change: Result<RowChange, Refusal>,
) -> Result<BoundWrite, Refusal>
    ensures { MatchResult result
        (λ made. (change ≡ Ok made.change) × (made ≡ record { table = table.now.id; context = context; change = made.change }))
        (λ refusal. change ≡ Err refusal) }
{
    let (change, context) = with_held(change, context)?;
    Ok(BoundWrite {
        table: table.id,
        context,
        change,
    })
}

/// The table that is written, which has few columns as all have.
#[tactic(auto, using(crate::proofs::Few::few_of))]
fn written_table<'a>(binder: &Binder<'a>, name: &ObjectName) -> Result<&'a Catalogued, Refusal>
    requires { HaveFewColumns binder.now.tables.now }
    ensures value { Lends (table_of binder.now.tables.now name.now) result }
    ensures few { IfOk result (λ table. length table.now.schema.columns ≤ 64) }
{
    existing_table(binder.alloc, binder.tables, name)
}

#[tactic(auto, unfolding(crate::specs::Writes::insert))]
fn insert(
    binder: &Binder<'_>,
    context: &Option<Expr>,
    name: &ObjectName,
    columns: &Option<List<Text>>,
    tuples: &[Items<Expr>],
) -> Result<BoundWrite, Refusal>
    requires { HaveFewColumns binder.now.tables.now }
    ensures { Gives (among binder.now spec.insert context.now name.now columns.now tuples.now) result }
{
    let table = written_table(binder, name)?;
    let context = optional_context(binder, context)?;
    let change = insert_change(binder, &table.schema, columns, tuples);
    written(&table.schema, context, change)
}

#[tactic(auto, unfolding(crate::specs::Writes::update))]
fn update(
    binder: &Binder<'_>,
    context: &Option<Expr>,
    name: &ObjectName,
    sets: &[SetColumn],
    from: &Option<TableSource>,
    filter: &Option<Expr>,
) -> Result<BoundWrite, Refusal>
    requires { HaveFewColumns binder.now.tables.now }
    ensures { Gives (among binder.now spec.update context.now name.now sets.now from.now filter.now) result }
{
    let table = written_table(binder, name)?;
    let row = updated_name(binder.alloc, name, from)?;
    let context = optional_context(binder, context)?;
    let change = update_change(binder, &table.schema, row, sets, filter);
    written(&table.schema, context, change)
}

#[tactic(auto, unfolding(crate::specs::Writes::delete))]
fn delete(
    binder: &Binder<'_>,
    context: &Option<Expr>,
    name: &ObjectName,
    filter: &Option<Expr>,
) -> Result<BoundWrite, Refusal>
    ensures { Gives (among binder.now spec.delete context.now name.now filter.now) result }
{
    let table = existing_table(binder.alloc, binder.tables, name)?;
    let context = optional_context(binder, context)?;
    let change = delete_change(binder, &table.schema, last_part(name), filter);
    written(&table.schema, context, change)
}

/// What an INSERT, UPDATE or DELETE comes to.
#[tactic(auto, unfolding(crate::specs::Writes::write_of))]
pub(crate) fn write_of(
    binder: &Binder<'_>,
    context: &Option<Expr>,
    write: &WriteStmt,
) -> Result<BoundWrite, Refusal>
    requires { HaveFewColumns binder.now.tables.now }
    ensures { Gives (among binder.now spec.write_of context.now write.now) result }
{
    match write {
        WriteStmt::Insert {
            table,
            columns,
            tuples,
        } => insert(binder, context, table, columns, tuples.as_slice()),
        WriteStmt::Update {
            table,
            sets,
            from,
            condition,
        } => update(binder, context, table, sets.as_slice(), from, condition),
        WriteStmt::Delete { table, condition } => delete(binder, context, table, condition),
    }
}
