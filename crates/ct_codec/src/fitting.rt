ghost use Rattle.std.specs.Prelude.{◌≡◌, ◌↔◌, IsTrue, length};
ghost use Rattle.std.specs.List.{AllByRecursion};
ghost use Rattle.ct_codec.specs.Spellings.{IsIn, IsOne, TextFits, ValueFits, RowFits, KeyFits, ContextFits, ChangeFits, most_of, ColumnFits, SchemaFits, KeepFits, TrackedFits, KeptFits, PayloadFits};

use ct_types::{
    Bin, Change, ColType, Column, Keep, Kept, Key, Piece, Row, Schema, Text, Tracked, Value,
};

/// The greatest length of two bytes.
const MOST_FEW: usize = 65_535;

/// The greatest length of four bytes.
const MOST_MANY: usize = 4_294_967_295;

fn is_short(bytes: &[u8]) -> bool
    ensures { IsTrue result ↔ IsIn 4 (length bytes.now) }
{
    bytes.len() <= MOST_MANY
}

fn name_fits(name: &Text) -> bool
    ensures { IsTrue result ↔ TextFits 2 name.now }
{
    name.as_str().as_bytes().len() <= MOST_FEW
}

fn value_fits(value: &Value) -> bool
    ensures { IsTrue result ↔ ValueFits value.now }
{
    match value {
        Value::Null => true,
        Value::Int(number) => {
            let _number = *number;
            true
        }
        Value::Text(text) => is_short(text.as_str().as_bytes()),
        Value::Bytes(bytes) => is_short(bytes.as_bytes()),
    }
}

fn row_fits(row: &Row) -> bool
    ensures { IsTrue result ↔ RowFits row.now }
{
    let values = row.0.as_slice();
    values.len() <= MOST_FEW && values.iter().all(|value| value_fits(value))
}

fn key_fits(key: &Key) -> bool
    ensures { IsTrue result ↔ KeyFits key.now }
{
    match key.0.as_slice() {
        [value] => value_fits(value),
        _ => false,
    }
}

fn context_fits(context: &Option<Bin>) -> bool
    ensures { IsTrue result ↔ ContextFits context.now }
{
    match context {
        None => true,
        Some(bytes) => bytes.as_bytes().len() <= 128,
    }
}

fn change_fits(change: &Change) -> bool
    ensures { IsTrue result ↔ ChangeFits change.now }
{
    let _table = change.table;
    let _mask = change.mask;
    key_fits(&change.key) && context_fits(&change.context)
}

fn type_fits(kind: ColType) -> bool
    ensures { IsTrue result ↔ IsIn 2 (most_of kind) }
{
    match kind {
        ColType::Int | ColType::BigInt => true,
        ColType::NVarChar(most) | ColType::VarBinary(most) => usize::from(most) <= MOST_FEW,
    }
}

fn column_fits(column: &Column) -> bool
    ensures { IsTrue result ↔ ColumnFits column.now }
{
    name_fits(&column.name) && type_fits(column.kind)
}

fn columns_fit(columns: &[Column]) -> bool
    ensures { IsTrue result ↔ AllByRecursion ColumnFits columns.now }
{
    for column in columns {
        if !column_fits(column) {
            return false;
        }
    }
    true
}

fn is_one(key: &[u16]) -> bool
    ensures { IsTrue result ↔ IsOne (IsIn 2) key.now }
{
    match key {
        [id] => {
            let _id = *id;
            true
        }
        _ => false,
    }
}

fn schema_fits(schema: &Schema) -> bool
    ensures { IsTrue result ↔ SchemaFits schema.now }
{
    let _id = schema.id;
    let columns = schema.columns.as_slice();
    name_fits(&schema.name)
        && columns.len() <= MOST_FEW
        && columns_fit(columns)
        && is_one(schema.key.as_slice())
}

fn keep_fits(keep: Option<Keep>) -> bool
    ensures { IsTrue result ↔ KeepFits keep }
{
    match keep {
        None => true,
        Some(keep) => {
            let _retention = keep.retention;
            true
        }
    }
}

fn tracked_fits(tracked: Option<Tracked>) -> bool
    ensures { IsTrue result ↔ TrackedFits tracked }
{
    match tracked {
        None => true,
        Some(tracked) => {
            let _min = tracked.min;
            true
        }
    }
}

fn changes_fit(changes: &[Change]) -> bool
    ensures { IsTrue result ↔ AllByRecursion ChangeFits changes.now }
{
    changes.iter().all(|change| change_fits(change))
}

fn kept_fits(kept: &Kept) -> bool
    ensures { IsTrue result ↔ KeptFits kept.now }
{
    let _version = kept.version;
    let _xdes = kept.xdes;
    let _time = kept.time;
    let changes = kept.changes.as_slice();
    changes.len() <= MOST_MANY && changes_fit(changes)
}

fn rows_fit(rows: &[Row]) -> bool
    ensures { IsTrue result ↔ AllByRecursion RowFits rows.now }
{
    rows.iter().all(|row| row_fits(row))
}

/// Whether the payload of a piece can be spelled: each count and each length in it fits its field, and a key has one value.
pub fn payload_fits(piece: &Piece) -> bool
    ensures { IsTrue result ↔ PayloadFits piece.now }
{
    match piece {
        Piece::Head {
            version,
            time,
            last_xdes,
            keep,
        } => {
            let _version = *version;
            let _time = *time;
            let _last_xdes = *last_xdes;
            keep_fits(*keep)
        }
        Piece::Table { schema, tracked } => schema_fits(schema) && tracked_fits(*tracked),
        Piece::Rows { table, rows } => {
            let _table = *table;
            let rows = rows.as_slice();
            rows.len() <= MOST_MANY && rows_fit(rows)
        }
        Piece::Kept(kept) => kept_fits(kept),
        Piece::End => true,
    }
}
