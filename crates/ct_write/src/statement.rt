ghost use Rattle.std.specs.Prelude.{◌≡◌, map, IfOk, IfSome};
ghost use Rattle.std.specs.List.{AllByRecursion};
ghost use Rattle.ct_types.specs.Answers.{Gives};
ghost use Rattle.ct_model.specs.Tables.{catalogued};
ghost use Rattle.ct_source.specs.Rows.{IsRowOf};
ghost use Rattle.ct_write.specs.Fitting.{IsFit};
ghost use Rattle.ct_write.specs.Writes as spec;

use crate::changes::{Changed, changes_of};
use crate::contexts::context_of;
use crate::fitting::fit_all;
use crate::masks::{mask_of, op_of};
use ct_expr::{Env, Versions};
use ct_source::Stored;
use ct_types::{Bin, BoundWrite, Copies, List, Memory, Op, Refusal, RowChange, Write};
use std::alloc::Global;

fn kept_context(tracked: bool, context: Option<Bin>) -> Option<Bin>
    ensures { result ≡ spec.kept_context tracked context }
{
    if tracked { context } else { None }
}

fn record_all(
    alloc: Global,
    table: &Stored,
    op: Op,
    mask: u64,
    context: &Option<Bin>,
    changes: List<Changed>,
) -> Result<List<Write>, Memory>
    ensures { IfOk result (λ made. made ≡ map (spec.recorded (catalogued table.now) op mask context.now) changes) }
{
    let mut made = List::new(alloc);
    for changed in changes.into_vec() {
        made.push(Write {
            table: table.schema().id,
            op,
            key: changed.key,
            row: changed.row,
            tracked: table.tracked().is_some(),
            mask,
            context: context.copy(alloc)?,
        })?;
    }
    Ok(made)
}

fn writes_with(
    alloc: Global,
    table: &Stored,
    change: &RowChange,
    context: Option<Bin>,
    changes: List<Changed>,
) -> Result<List<Write>, Memory>
    requires { spec.NamesIds change.now }
    ensures { IfOk result (λ made. made ≡ map (spec.write_of (catalogued table.now) change.now context) changes) }
{
    let mask = mask_of(alloc, table.tracked(), change)?;
    let kept = kept_context(table.tracked().is_some(), context);
    record_all(alloc, table, op_of(change), mask, &kept, changes)
}

/// The writes of an INSERT, UPDATE or DELETE on the rows of its table, as the statement sees them, in key order.
///
/// The targets of UPDATE and DELETE are the rows for which WHERE is true; where WHERE pins the key, one row is looked up, and
/// else all are tested. The context is evaluated and fitted first; then all rows are evaluated, an UPDATE on the row before
/// it; then all are fitted, row by row and column by column in the table's order. Columns that an INSERT does not name get
/// NULL. The writes stand in key order, or in that of VALUES. Each has the context where the table is tracked, and an update
/// of a table with masks the columns of the SET list. The values of its row fit their columns (`fit`), and the row has a
/// value for each column and the write's key, where no SET list names a column of the key (`keyed`).
///
/// `Overflow` where a number of an expression does not fit 64 bits, or one of a row its INT column; `NotNull` for NULL in
/// a column that is not nullable; `TooLong` for a context of more than 128 bytes, named `CHANGE_TRACKING_CONTEXT`, and
/// for a text or bytes longer than the column allows; the first of them in that order. `Memory` is the only other error.
///
/// The statements are those of T-SQL; the order of refusals, and that too long a value answers 8152 with the column's
/// name, are this project's own.
#[tactic(auto, unfolding(crate::specs::Writes::writes_of))]
pub fn writes<L: Versions>(
    alloc: Global,
    bound: &BoundWrite,
    table: &Stored,
    env: &Env<'_>,
    versions: &L,
) -> Result<List<Write>, Refusal>
    requires { spec.NamesIds bound.now.change }
    ensures gives { Gives (spec.writes_of (record { env = env.now; versions = L.row_of versions.now }) (catalogued table.now) bound.now table.now.rows) result }
    ensures fit { IfOk result (λ made. AllByRecursion (λ write. IsFit table.now.schema.columns write.row) made) }
    ensures keyed { spec.SparesKey table.now.schema bound.now.change → IfOk result (λ made. AllByRecursion (λ write. IfSome write.row (IsRowOf table.now.schema write.key)) made) }
{
    table.rows_rise();
    let context = context_of(alloc, &bound.context, env, versions)?;
    let changes = changes_of(alloc, table, &bound.change, env, versions)?;
    fit_all(alloc, table.schema().columns.as_slice(), changes.as_slice())?;
    Ok(writes_with(alloc, table, &bound.change, context, changes)?)
}
