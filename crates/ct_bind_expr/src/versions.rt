ghost use Rattle.std.specs.Prelude.{◌≡◌, [], Ok, IfOk};
ghost use Rattle.std.specs.List.{filter_map};
ghost use Rattle.std.specs.Option.{option_copied};
ghost use Rattle.ct_types.specs.Answers.{Gives, each_after};
ghost use Rattle.ct_bind_kinds.specs.WellFormed as kinds;
ghost use Rattle.ct_bind_expr.specs.Versions as spec;

use crate::made::{add_some, takeable, taken_from};
use ct_bind_kinds::{Kind, kind_of_type};
use ct_bind_names::{is_among, place_after, place_of, same_name};
use ct_types::{
    BoundExpr, BoundRowVersion, Column, Copies, List, Memory, Refusal, Schema, Text, VersionColumn,
    push,
};
use sqlite_items::Items;
use std::alloc::Global;

/// The column of this id, counted from 1.
fn column_of(columns: &[Column], id: u16) -> Option<&Column>
    ensures { option_copied result ≡ kinds.column_of columns.now id }
{
    match id {
        0 => None,
        _ => columns.get(usize::from(id - 1)),
    }
}

/// The columns of the key, in key order.
#[tactic(auto, unfolding(crate::specs::Versions::key_columns))]
pub fn key_columns(alloc: Global, table: &Schema) -> Result<List<Column>, Memory>
    ensures { IfOk result (λ made. made ≡ spec.key_columns table.now) }
{
    let columns = table.columns.as_slice();
    let mut made = List::new(alloc);
    for id in table.key.as_slice() {
        if let Some(column) = column_of(columns, *id) {
            made.push(column.copy(alloc)?)?;
        }
    }
    Ok(made)
}

#[tactic(auto, unfolding(crate::specs::Versions::key_column))]
fn key_column<'a>(key: &'a [Column], name: &Text) -> Option<&'a Column>
    ensures { option_copied result ≡ spec.key_column key.now name.now }
{
    key.iter()
        .find(|column| same_name(column.name.as_str(), name.as_str()))
}

/// The kind of a listed column, which is one of the key and stands in the list for the first time.
#[tactic(auto, unfolding(crate::specs::Versions::listed_kind))]
fn listed_kind(alloc: Global, key: &[Column], before: &[Text], name: &Text) -> Result<Kind, Refusal>
    ensures { Gives (spec.listed_kind key.now before.now name.now) result }
{
    match key_column(key, name) {
        Some(column) if !is_among(name, before) => Ok(kind_of_type(column.kind)),
        _ => Err(Refusal::NoColumn {
            name: name.copy(alloc)?,
        }),
    }
}

/// The first column of the key that the list lacks.
#[tactic(auto, unfolding(crate::specs::Versions::missing))]
fn missing<'a>(key: &'a [Column], names: &[Text]) -> Option<&'a Column>
    ensures { option_copied result ≡ spec.missing key.now names.now }
{
    key.iter().find(|column| !is_among(&column.name, names))
}

#[tactic(auto, using(ct_bind_names::proofs::Walks::each_after_onto, ct_bind_names::proofs::Walks::each_after_stops))]
fn each_listed_kind(alloc: Global, key: &[Column], names: &[Text]) -> Result<List<Kind>, Refusal>
    ensures { Gives (each_after (spec.listed_kind key.now) [] names.now) result }
{
    let mut made = List::new(alloc);
    for at in 0..names.len() {
        let kind = listed_kind(alloc, key, &names[..at], &names[at])?;
        push(&mut made, kind)?;
    }
    Ok(made)
}

/// The kinds of the listed columns, which are those of the key, each once, in any order: 207 elsewhere.
#[tactic(auto, unfolding(crate::specs::Versions::listed_kinds))]
pub(crate) fn listed_kinds(
    alloc: Global,
    key: &[Column],
    names: &[Text],
) -> Result<List<Kind>, Refusal>
    ensures { Gives (spec.listed_kinds key.now names.now) result }
{
    let kinds = each_listed_kind(alloc, key, names)?;
    match missing(key, names) {
        None => Ok(kinds),
        Some(column) => Err(Refusal::NoColumn {
            name: column.name.copy(alloc)?,
        }),
    }
}

/// The values of the listed columns, in key order. A key that named one column twice would be want of memory.
#[tactic(auto, using(crate::proofs::Taken::collects))]
fn in_key_order<T: Drop>(
    alloc: Global,
    key: &[Column],
    names: &[Text],
    values: List<T>,
) -> Result<Items<T>, Memory>
    ensures { IfOk result (λ made. made ≡ filter_map (spec.value_of names.now values) key.now) }
{
    let mut left = takeable(alloc, values)?;
    let mut made = Items::new(alloc);
    for column in key {
        let value = taken_from(&mut left, place_of(&column.name, names))?;
        add_some(&mut made, value)?;
    }
    Ok(made)
}

/// The list and the tuple, whose values are bound.
#[tactic(auto, unfolding(crate::specs::Versions::in_key_order))]
pub(crate) fn version(
    alloc: Global,
    table: u32,
    key: &[Column],
    names: &[Text],
    values: List<BoundExpr>,
) -> Result<BoundRowVersion, Refusal>
    ensures { Gives (Ok (spec.version_in table key.now names.now values)) result }
{
    let values = in_key_order(alloc, key, names, values)?;
    Ok(BoundRowVersion { table, values })
}

#[tactic(auto, unfolding(crate::specs::Versions::key_column_from))]
fn shown_key_column(
    alloc: Global,
    name: &Text,
    key: &[Column],
) -> Result<(VersionColumn, Kind), Refusal>
    ensures { Gives (spec.key_column_from name.now 0 key.now) result }
{
    let mut at = 0;
    for column in key {
        if same_name(column.name.as_str(), name.as_str()) {
            return Ok((VersionColumn::Key(at), kind_of_type(column.kind)));
        }
        at = place_after(at, 1)?;
    }
    Err(Refusal::NoColumn {
        name: name.copy(alloc)?,
    })
}

/// The column of CHANGETABLE(VERSION ..) that is named so: 207 where there is none.
#[tactic(auto, unfolding(crate::specs::Versions::version_column))]
pub(crate) fn version_column(
    alloc: Global,
    table: &Schema,
    name: &Text,
) -> Result<(VersionColumn, Kind), Refusal>
    ensures { Gives (spec.version_column table.now name.now) result }
{
    if same_name(name.as_str(), "SYS_CHANGE_VERSION") {
        return Ok((VersionColumn::Version, Kind::Number));
    }
    if same_name(name.as_str(), "SYS_CHANGE_CONTEXT") {
        return Ok((VersionColumn::Context, Kind::Bytes));
    }
    let key = key_columns(alloc, table)?;
    shown_key_column(alloc, name, key.as_slice())
}
