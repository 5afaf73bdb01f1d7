ghost use Rattle.std.specs.Prelude.{◌≡◌, ◌≢◌, ◌↔◌, IsTrue, ◌∷◌, [], map};
ghost use Rattle.std.specs.List.{AllByRecursion};
ghost use Rattle.ct_model.specs.Lists.{EachToLater};
ghost use Rattle.ct_model.specs.Names.{folded};
ghost use Rattle.ct_model.specs.Schemas.{IsType, IsColumn, IsKeyColumn, IsKey, IsSchema, change_columns};

use crate::names::{is_in_sys, is_name, is_same_name, is_table_name};
use ct_types::{ColType, Column, Schema, Text};

/// The bytes of a name.
pub fn name_bytes(name: &Text) -> &[u8]
    ensures { result.now ≡ name.now }
{
    name.as_str().as_bytes()
}

fn is_type(kind: ColType) -> bool
    ensures { IsTrue result ↔ IsType kind }
{
    match kind {
        ColType::Int | ColType::BigInt => true,
        ColType::NVarChar(most) => most >= 1 && most <= 4000,
        ColType::VarBinary(most) => most >= 1 && most <= 8000,
    }
}

fn is_column(column: &Column) -> bool
    ensures { IsTrue result ↔ IsColumn column.now }
{
    is_name(name_bytes(&column.name)) && is_type(column.kind)
}

fn are_columns(columns: &[Column]) -> bool
    ensures { IsTrue result ↔ AllByRecursion IsColumn columns.now }
{
    columns.iter().all(|column| is_column(column))
}

/// Whether the name is none of the columns that CHANGETABLE(CHANGES ..) shows beside the key.
fn is_free(name: &[u8]) -> bool
    ensures { IsTrue result ↔ AllByRecursion (λ shown. folded name.now ≢ folded shown) change_columns }
{
    !is_same_name(name, b"SYS_CHANGE_VERSION")
        && !is_same_name(name, b"SYS_CHANGE_CREATION_VERSION")
        && !is_same_name(name, b"SYS_CHANGE_OPERATION")
        && !is_same_name(name, b"SYS_CHANGE_COLUMNS")
        && !is_same_name(name, b"SYS_CHANGE_CONTEXT")
}

fn is_key_column(column: &Column) -> bool
    ensures { IsTrue result ↔ IsKeyColumn column.now }
{
    !column.nullable && is_free(name_bytes(&column.name))
}

fn is_key_at(columns: &[Column], id: u16) -> bool
    ensures { IsTrue result ↔ IsKey columns.now (id ∷ []) }
{
    if id < 1 {
        return false;
    }
    match columns.get(usize::from(id - 1)) {
        None => false,
        Some(column) => is_key_column(column),
    }
}

fn is_key(columns: &[Column], key: &[u16]) -> bool
    ensures { IsTrue result ↔ IsKey columns.now key.now }
{
    match key {
        [id] => is_key_at(columns, *id),
        _ => false,
    }
}

/// Whether no column of these has the name.
fn is_new_column(name: &[u8], columns: &[Column]) -> bool
    ensures { IsTrue result ↔ AllByRecursion (λ other. folded name.now ≢ other) (map (λ column. folded column.name) columns.now) }
{
    columns
        .iter()
        .all(|column| !is_same_name(name, name_bytes(&column.name)))
}

fn are_distinct(columns: &[Column]) -> bool
    ensures { IsTrue result ↔ EachToLater (λ a b. a ≢ b) (map (λ column. folded column.name) columns.now) }
{
    match columns {
        [] => true,
        [column, columns @ ..] => {
            is_new_column(name_bytes(&column.name), columns) && are_distinct(columns)
        }
    }
}

/// Whether a definition may give a table this schema.
pub fn is_schema(schema: &Schema) -> bool
    ensures { IsTrue result ↔ IsSchema schema.now }
{
    let name = name_bytes(&schema.name);
    let columns = schema.columns.as_slice();
    is_table_name(name)
        && !is_in_sys(name)
        && columns.len() <= 64
        && are_columns(columns)
        && are_distinct(columns)
        && is_key(columns, schema.key.as_slice())
}
