ghost use Rattle.std.specs.Prelude.{◌≡◌, ◌<◌, ◌+◌, ◌∷◌, [], IfOk, IfSome, Some, length};
ghost use Rattle.ct_expr.specs.Meaning.{holds as is_true};
ghost use Rattle.ct_expr.specs.Conditions.{only};
ghost use Rattle.ct_scan.specs.Enough.{AreEnough};
ghost use Rattle.ct_source.specs.Rows.{lent, GivesLent};
ghost use Rattle.ct_source.specs.Sources.{source_rows};

use crate::reading::pinned;
use crate::seen::Seen;
use ct_expr::{Env, Versions, holds};
use ct_source::{Source, Stored};
use ct_types::{BoundExpr, List, Memory, Refusal, Row, push};
use std::alloc::Global;

/// The place, counted from 0, of the column that is the key of a table, where one column is.
pub(crate) fn key_place(table: &Stored) -> Option<u32>
    ensures within { IfSome result (λ at. at < length table.now.schema.columns) }
    ensures only { IfSome result (λ at. table.now.schema.key ≡ (at + 1) ∷ []) }
{
    table.rows_rise();
    match table.schema().key.as_slice() {
        [id] => Some(u32::from(*id) - 1),
        _ => None,
    }
}

/// The rows of a table on which a condition can be true: those with the value that it pins the column at a place to, or else
/// all.
fn rows_at<'a>(
    alloc: Global,
    condition: &BoundExpr,
    at: u32,
    table: &'a Stored,
    env: &Env<'_>,
) -> Result<List<&'a Row>, Memory>
    ensures { IfOk result (λ made. AreEnough env.now (Some condition.now) table.now.rows (lent made)) }
{
    match pinned(alloc, condition, at, env, &Seen::nothing())? {
        Some(value) => table.with_value(alloc, at, &value),
        None => table.rows(alloc),
    }
}

/// The rows of a table on which a condition can be true: one at most, where it pins the key.
fn stored_candidates<'a>(
    alloc: Global,
    condition: &BoundExpr,
    table: &'a Stored,
    env: &Env<'_>,
) -> Result<List<&'a Row>, Memory>
    ensures { IfOk result (λ made. AreEnough env.now (Some condition.now) table.now.rows (lent made)) }
{
    match key_place(table) {
        Some(at) => rows_at(alloc, condition, at, table, env),
        None => table.rows(alloc),
    }
}

/// The rows of a source on which a condition can be true: one at most, where it pins the key of a table.
fn candidates<'a>(
    alloc: Global,
    condition: &Option<BoundExpr>,
    source: Source<'a>,
    env: &Env<'_>,
) -> Result<List<&'a Row>, Memory>
    ensures { IfOk result (λ made. AreEnough env.now condition.now (source_rows source.entry) (lent made)) }
{
    match (condition, source) {
        (Some(condition), Source::Stored(table)) => stored_candidates(alloc, condition, table, env),
        _ => source.all(alloc),
    }
}

/// Lends those of some rows on which a condition is true, in their order.
fn chosen<'a, L: Versions>(
    alloc: Global,
    condition: &Option<BoundExpr>,
    rows: &[&'a Row],
    env: &Env<'_>,
    versions: &L,
) -> Result<List<&'a Row>, Refusal>
    ensures { GivesLent (only (is_true (record { env = env.now; versions = L.row_of versions.now }) condition.now) (lent rows.now)) result }
{
    let mut found = List::new(alloc);
    for row in rows {
        if holds(alloc, condition, row, env, versions)? {
            push(&mut found, *row)?;
        }
    }
    Ok(found)
}

/// Lends the rows of a source on which a condition is true, in their order; all rows where there is no condition.
///
/// Where the condition pins the key of the source's table, the one row that has the value is looked up and tested, and else
/// every row is. `Overflow`: a sum, difference, product or sign of the condition does not fit 64 bits on some row. `Memory`
/// is the only other error. This project's own.
pub fn rows_where<'a, L: Versions>(
    alloc: Global,
    condition: &Option<BoundExpr>,
    source: Source<'a>,
    env: &Env<'_>,
    versions: &L,
) -> Result<List<&'a Row>, Refusal>
    ensures { GivesLent (only (is_true (record { env = env.now; versions = L.row_of versions.now }) condition.now) (source_rows source.entry)) result }
{
    let rows = candidates(alloc, condition, source, env)?;
    chosen(alloc, condition, rows.as_slice(), env, versions)
}
