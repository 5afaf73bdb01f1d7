ghost use Rattle.std.specs.Prelude.{◌≡◌, ℕ, ◌+◌, ◌-◌, ◌++◌, ◌∷◌, [], IfOk, slice_get};
ghost use Rattle.std.specs.List.{position};
ghost use Rattle.std.specs.Option.{option_map, option_and_then, option_copied};
ghost use Rattle.ct_bind_names.specs.Names.{same};
ghost use Rattle.ct_expr.specs.Functions as spec;

use crate::numbers::is_null;
use crate::tables::table_named;
use ct_bind_names::same_name;
use ct_mask::read;
use ct_types::{
    Bin, Catalogued, Column, Copies, Key, List, Memory, Value, Variable, VersionColumn, VersionRow,
};
use std::alloc::Global;

/// A copy of a value, or NULL where there is none.
pub(crate) fn value_or_null(alloc: Global, value: Option<&Value>) -> Result<Value, Memory>
    ensures { IfOk result (λ made. made ≡ spec.or_null (option_copied value.entry)) }
{
    match value {
        Some(value) => value.copy(alloc),
        None => Ok(Value::Null),
    }
}

/// Lends the value of the variable at a place, if there is one.
pub(crate) fn variable_in(variables: &[Variable], at: u32) -> Option<&Value>
    ensures { option_copied result ≡ option_map (λ variable. variable.value) (slice_get variables.now at) }
{
    match variables.get(at as usize) {
        Some(variable) => Some(&variable.value),
        None => None,
    }
}

/// The value of the variable at a place, counted from 0; NULL where there is none. `Memory` is the only error.
pub fn variable_at(alloc: Global, variables: &[Variable], at: u32) -> Result<Value, Memory>
    ensures { IfOk result (λ value. value ≡ spec.or_null (option_map (λ variable. variable.value) (slice_get variables.now at))) }
{
    match variable_in(variables, at) {
        Some(value) => value.copy(alloc),
        None => Ok(Value::Null),
    }
}

/// The values with one more at the end.
pub(crate) fn with(mut values: List<Value>, value: Value) -> Result<List<Value>, Memory>
    ensures { IfOk result (λ made. made ≡ values ++ value ∷ []) }
{
    values.push(value)?;
    Ok(values)
}

/// A number that is counted, as a value. One of 2^63 or more, which no version and no id is, has none, so it is NULL.
pub fn counted(n: u64) -> Value
    ensures { result ≡ spec.counted n }
{
    if n < 9_223_372_036_854_775_808 {
        Value::Int(n as i64)
    } else {
        Value::Null
    }
}

/// The same where there may be none, which is NULL.
pub fn counted_or_null(n: Option<u64>) -> Value
    ensures { result ≡ spec.counted_or_null n }
{
    match n {
        Some(n) => counted(n),
        None => Value::Null,
    }
}

/// ISNULL
pub(crate) fn if_null(a: Value, b: Value) -> Value
    ensures { result ≡ spec.if_null a b }
{
    if is_null(&a) { b } else { a }
}

/// OBJECT_ID
pub(crate) fn object_id(alloc: Global, tables: &[Catalogued], name: &Value) -> Result<Value, Memory>
    ensures { IfOk result (λ id. id ≡ spec.object_id tables.now name.now) }
{
    match name {
        Value::Text(name) => match table_named(alloc, tables, name.as_str())? {
            Some(table) => Ok(counted(u64::from(table.schema.id))),
            None => Ok(Value::Null),
        },
        _ => Ok(Value::Null),
    }
}

fn table_of(tables: &[Catalogued], id: i64) -> Option<&Catalogued>
    ensures { option_copied result ≡ spec.table_of tables.now id }
{
    tables.iter().find(|table| i64::from(table.schema.id) == id)
}

fn place_of(name: &str, columns: &[Column]) -> Option<usize>
    ensures { result ≡ position (λ column. same column.name name.now) columns.now }
{
    columns
        .iter()
        .position(|column| same_name(column.name.as_str(), name))
}

/// The id of the column of that name.
fn column_id(name: &str, table: &Catalogued) -> Option<u64>
    ensures { result ≡ spec.column_id name.now table.now }
{
    match place_of(name, table.schema.columns.as_slice()) {
        Some(place) => Some(place as u64 + 1),
        None => None,
    }
}

fn column_id_in(tables: &[Catalogued], table: i64, name: &str) -> Option<u64>
    ensures { result ≡ option_and_then (spec.column_id name.now) (spec.table_of tables.now table) }
{
    match table_of(tables, table) {
        Some(table) => column_id(name, table),
        None => None,
    }
}

/// COLUMNPROPERTY
pub(crate) fn column_property(
    tables: &[Catalogued],
    table: &Value,
    column: &Value,
    property: &Value,
) -> Value
    ensures { result ≡ spec.column_property tables.now table.now column.now property.now }
{
    match (table, column, property) {
        (Value::Int(table), Value::Text(column), Value::Text(property)) => {
            if same_name(property.as_str(), "ColumnId") {
                counted_or_null(column_id_in(tables, *table, column.as_str()))
            } else {
                Value::Null
            }
        }
        _ => Value::Null,
    }
}

/// The least version that a client of a table may hold.
fn minimum_of(table: &Catalogued) -> Option<u64>
    ensures { result ≡ spec.minimum_of table.now }
{
    match table.tracked {
        Some(tracked) => Some(tracked.min),
        None => None,
    }
}

fn minimum_in(tables: &[Catalogued], table: i64) -> Option<u64>
    ensures { result ≡ option_and_then spec.minimum_of (spec.table_of tables.now table) }
{
    match table_of(tables, table) {
        Some(table) => minimum_of(table),
        None => None,
    }
}

/// CHANGE_TRACKING_MIN_VALID_VERSION
pub(crate) fn min_valid_version(tables: &[Catalogued], table: &Value) -> Value
    ensures { result ≡ spec.min_valid_version tables.now table.now }
{
    match table {
        Value::Int(id) => counted_or_null(minimum_in(tables, *id)),
        _ => Value::Null,
    }
}

/// A truth as a value: 1 or 0.
pub fn one_or_zero(told: bool) -> Value
    ensures { result ≡ spec.one_or_zero told }
{
    Value::Int(i64::from(told))
}

/// CHANGE_TRACKING_IS_COLUMN_IN_MASK
pub(crate) fn is_column_in_mask(column: &Value, mask: &Value) -> Value
    ensures { result ≡ spec.is_column_in_mask column.now mask.now }
{
    match (column, mask) {
        (Value::Int(id), Value::Null) => one_or_zero(read(None, *id)),
        (Value::Int(id), Value::Bytes(mask)) => one_or_zero(read(Some(mask.as_bytes()), *id)),
        _ => Value::Null,
    }
}

/// Bytes as a value; NULL where there are none.
pub fn bytes_or_null(bytes: Option<Bin>) -> Value
    ensures { result ≡ spec.bytes_or_null bytes }
{
    match bytes {
        Some(bytes) => Value::Bytes(bytes),
        None => Value::Null,
    }
}

/// A column of CHANGETABLE(VERSION ..), by the key that was given and the row that it has.
pub(crate) fn version_column(
    alloc: Global,
    column: VersionColumn,
    key: &Key,
    row: VersionRow,
) -> Result<Value, Memory>
    ensures { IfOk result (λ value. value ≡ spec.version_column column key.now row) }
{
    match column {
        VersionColumn::Version => Ok(counted_or_null(row.version)),
        VersionColumn::Context => Ok(bytes_or_null(row.context)),
        VersionColumn::Key(at) => value_or_null(alloc, key.0.as_slice().get(at as usize)),
    }
}
