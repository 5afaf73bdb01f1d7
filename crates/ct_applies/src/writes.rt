ghost use Rattle.std.specs.Prelude.{◌≡◌, ◌↔◌, ◌^◌, ◌<◌, IsTrue, IfOk, IsSome, is_some};
ghost use Rattle.std.specs.Option.{IsSomeAnd};
ghost use Rattle.ct_types.specs.declared.entry.Op.TheVariants.{Update as update};
ghost use Rattle.ct_model.specs.Applies.{is_present_before, RowIsOf, ContextIsOf, WriteFits, WritesApply};
ghost use Rattle.ct_model.specs.Schemas.{RowFits};
ghost use Rattle.ct_model.specs.Tables.{key_of, table_of, has_masks as has_masks_on};
ghost use Rattle.ct_model.specs.Valid.{MaskFits};

use crate::holds::row_fits;
use ct_model::{Table, find_table, has_key, has_row, write_one};
use ct_types::{Bin, Copies, Key, List, Memory, Op, Row, Schema, Tracked, Write};
use std::alloc::Global;

fn is_key_of(schema: &Schema, row: &Row, key: &Key) -> bool
    ensures { IsTrue result ↔ (key_of schema.now row.now ≡ key.now) }
{
    has_key(schema, row, key)
}

fn is_row_of(schema: &Schema, key: &Key, row: &Row) -> bool
    ensures { IsTrue result ↔ (RowFits schema.now row.now × (key_of schema.now row.now ≡ key.now)) }
{
    row_fits(schema, row) && is_key_of(schema, row, key)
}

/// Whether a write of this operation and key may have this row, or none, in a table with this schema.
pub fn row_applies(schema: &Schema, op: Op, key: &Key, row: &Option<Row>) -> bool
    ensures { IsTrue result ↔ RowIsOf schema.now op key.now row.now }
{
    match op {
        Op::Delete => row.is_none(),
        Op::Insert | Op::Update => match row {
            None => false,
            Some(row) => is_row_of(schema, key, row),
        },
    }
}

/// Whether a write that is tracked or not may have this context, or none.
pub fn context_applies(tracked: bool, context: &Option<Bin>) -> bool
    ensures { IsTrue result ↔ ContextIsOf tracked context.now }
{
    match context {
        None => true,
        Some(bytes) => tracked && bytes.as_bytes().len() <= 128,
    }
}

fn has_masks(tracked: Option<Tracked>) -> bool
    ensures { result ≡ has_masks_on tracked }
{
    tracked.is_some_and(|tracked| tracked.masks)
}

/// Whether a mask has columns of the first ones alone.
pub fn is_within(mask: u64, columns: usize) -> bool
    ensures { IsTrue result ↔ (mask < 2 ^ columns) }
{
    columns >= 64 || mask >> columns == 0
}

fn update_mask_fits(table: &Table, mask: u64) -> bool
    ensures { IsTrue result ↔ MaskFits table.now update mask }
{
    if has_masks(table.tracked) {
        mask > 0 && is_within(mask, table.schema.columns.as_slice().len())
    } else {
        mask == 0
    }
}

/// Whether a mask fits an operation on a table.
pub(crate) fn mask_fits(table: &Table, op: Op, mask: u64) -> bool
    ensures { IsTrue result ↔ MaskFits table.now op mask }
{
    match op {
        Op::Update => update_mask_fits(table, mask),
        Op::Insert | Op::Delete => mask == 0,
    }
}

/// Whether the key of a write of this operation is present before it.
pub fn was_present(op: Op) -> bool
    ensures { result ≡ is_present_before op }
{
    op != Op::Insert
}

fn write_fits(write: &Write, table: &Table) -> bool
    ensures { IsTrue result ↔ WriteFits write.now table.now }
{
    has_row(&table.schema, table.rows.as_slice(), &write.key) == was_present(write.op)
        && row_applies(&table.schema, write.op, &write.key, &write.row)
        && write.tracked == table.tracked.is_some()
        && context_applies(write.tracked, &write.context)
        && mask_fits(table, write.op, write.mask)
}

fn write_applies(write: &Write, tables: &[Table]) -> bool
    ensures { IsTrue result ↔ IsSomeAnd (table_of tables.now write.now.table) (WriteFits write.now) }
{
    match find_table(tables, write.table) {
        None => false,
        Some(table) => write_fits(write, table),
    }
}

/// Whether the writes fit one after the other, each on the tables after those before it.
pub(crate) fn writes_apply(
    alloc: Global,
    writes: &[Write],
    tables: &List<Table>,
) -> Result<bool, Memory>
    ensures { IfOk result (λ b. IsTrue b ↔ WritesApply tables.now writes.now) }
{
    let mut after = tables.copy(alloc)?;
    for write in writes {
        if !write_applies(write, after.as_slice()) {
            return Ok(false);
        }
        after = write_one(alloc, write, after.as_slice())?;
    }
    Ok(true)
}
