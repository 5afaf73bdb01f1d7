ghost use Rattle.std.specs.Prelude.{◌≡◌, ◌↔◌, IsTrue, IfOk, OnOk, map};
ghost use Rattle.std.specs.Option.{IsSomeAnd};
ghost use Rattle.ct_types.specs.declared.entry.Op.TheVariants.{Update as update};
ghost use Rattle.ct_model.specs.Applies.{WriteFits, WritesApply};
ghost use Rattle.ct_model.specs.Apply.{written};
ghost use Rattle.ct_model.specs.Tables.{has_masks as has_masks_on, table_of};
ghost use Rattle.ct_model.specs.Valid.{MaskFits};

use ct_applies::{context_applies, is_within, row_applies, was_present};
use ct_database::Database;
use ct_source::Stored;
use ct_types::{Memory, Op, Tracked, Write};
use std::alloc::Global;
use std::slice;

fn has_masks(tracked: Option<Tracked>) -> bool
    ensures { result ≡ has_masks_on tracked }
{
    tracked.is_some_and(|tracked| tracked.masks)
}

fn update_mask_fits(table: &Stored, mask: u64) -> bool
    ensures { IsTrue result ↔ MaskFits table.now update mask }
{
    if has_masks(table.tracked()) {
        mask > 0 && is_within(mask, table.schema().columns.as_slice().len())
    } else {
        mask == 0
    }
}

/// Whether a mask fits an operation on a table.
fn mask_fits(table: &Stored, op: Op, mask: u64) -> bool
    ensures { IsTrue result ↔ MaskFits table.now op mask }
{
    match op {
        Op::Update => update_mask_fits(table, mask),
        Op::Insert | Op::Delete => mask == 0,
    }
}

/// Whether a write fits its table, by a look-up of its key.
fn write_fits(write: &Write, table: &Stored) -> bool
    ensures { IsTrue result ↔ WriteFits write.now table.now }
{
    table.has(&write.key) == was_present(write.op)
        && row_applies(table.schema(), write.op, &write.key, &write.row)
        && write.tracked == table.tracked().is_some()
        && context_applies(write.tracked, &write.context)
        && mask_fits(table, write.op, write.mask)
}

fn write_applies(write: &Write, database: &Database) -> bool
    ensures { IsTrue result ↔ IsSomeAnd (table_of database.now.tables write.now.table) (WriteFits write.now) }
{
    match database.table(write.table) {
        None => false,
        Some(table) => write_fits(write, table),
    }
}

/// Puts the row of a write that fits its table.
#[tactic(auto, using(crate::proofs::Puts::put_tables))]
fn put_one(after: &mut Database, write: &Write) -> Result<(), Memory>
    requires { IsSomeAnd (table_of after.old.tables write.now.table) (WriteFits write.now) }
    ensures { OnOk result (after.new.tables ≡ map (written write.now) after.old.tables) }
{
    after.put_rows(slice::from_ref(write))
}

/// Whether the writes fit one after the other, each on the tables after those before it, whose rows are put into this share.
fn writes_apply_in_turn(mut after: Database, writes: &[Write]) -> Result<bool, Memory>
    ensures { IfOk result (λ b. IsTrue b ↔ WritesApply after.tables writes.now) }
{
    for write in writes {
        if !write_applies(write, &after) {
            return Ok(false);
        }
        put_one(&mut after, write)?;
    }
    Ok(true)
}

/// Whether the writes fit one after the other, each on the tables after those before it. One write alone costs a look-up; several
/// are put into a share of the database.
pub(crate) fn writes_apply(
    alloc: Global,
    database: &Database,
    writes: &[Write],
) -> Result<bool, Memory>
    ensures { IfOk result (λ b. IsTrue b ↔ WritesApply database.now.tables writes.now) }
{
    match writes {
        [write] => Ok(write_applies(write, database)),
        _ => writes_apply_in_turn(database.share(alloc)?, writes),
    }
}
