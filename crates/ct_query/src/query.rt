ghost use Rattle.std.specs.Prelude.{◌≡◌, IfOk, map};
ghost use Rattle.ct_types.specs.Answers.{Gives, each};
ghost use Rattle.ct_query.specs.Answer as spec;
ghost use Rattle.ct_query.specs.Joins.{only_source};
ghost use Rattle.ct_source.specs.Rows.{lent};
ghost use Rattle.ct_source.specs.Sources.{source_rows};

use crate::joins::{applied, inner, joined_by, pair};
use crate::shown::Shown;
use crate::side::Side;
use crate::sorting::sorted;
use ct_expr::{Env, Versions, eval};
use ct_scan::rows_where;
use ct_source::Source;
use ct_types::{
    BoundExpr, Copies, Grid, Join, List, Memory, OrderBy, Plan, Refusal, Row, Value, push,
};
use std::alloc::Global;

fn values<L: Versions>(
    alloc: Global,
    exprs: &[BoundExpr],
    row: &Row,
    env: &Env<'_>,
    versions: &L,
) -> Result<List<Value>, Refusal>
    ensures { Gives (spec.values_on (record { env = env.now; versions = L.row_of versions.now }) row.now exprs.now) result }
{
    let mut made = List::new(alloc);
    for expr in exprs {
        push(&mut made, eval(alloc, expr, row, env, versions)?)?;
    }
    Ok(made)
}

fn keys<L: Versions>(
    alloc: Global,
    parts: &[OrderBy],
    row: &Row,
    env: &Env<'_>,
    versions: &L,
) -> Result<List<Value>, Refusal>
    ensures { Gives (spec.keys_on (record { env = env.now; versions = L.row_of versions.now }) row.now parts.now) result }
{
    let mut made = List::new(alloc);
    for part in parts {
        push(&mut made, eval(alloc, &part.expr, row, env, versions)?)?;
    }
    Ok(made)
}

/// The values by which a row is ordered whose items have `values`. The row is copied only where ORDER BY is written.
fn keys_of<L: Versions>(
    alloc: Global,
    parts: &[OrderBy],
    row: &Row,
    values: &Row,
    env: &Env<'_>,
    versions: &L,
) -> Result<List<Value>, Refusal>
    ensures { Gives (spec.keys_on (record { env = env.now; versions = L.row_of versions.now }) (spec.with_items row.now values.now.0) parts.now) result }
{
    if parts.is_empty() {
        return Ok(List::new(alloc));
    }
    let longer = pair(alloc, row, values)?;
    keys(alloc, parts, &longer, env, versions)
}

/// What is shown of a row, and the values by which it is ordered.
fn show<L: Versions>(
    alloc: Global,
    plan: &Plan,
    row: &Row,
    env: &Env<'_>,
    versions: &L,
) -> Result<Shown, Refusal>
    ensures { Gives (spec.shown (record { env = env.now; versions = L.row_of versions.now }) plan.now row.now) result }
{
    let items = Row(values(alloc, plan.items.as_slice(), row, env, versions)?);
    let keys = keys_of(alloc, plan.order.as_slice(), row, &items, env, versions)?;
    Ok(Shown { keys, row: items })
}

fn show_all<L: Versions>(
    alloc: Global,
    plan: &Plan,
    rows: &[&Row],
    env: &Env<'_>,
    versions: &L,
) -> Result<List<Shown>, Refusal>
    ensures { Gives (each (spec.shown (record { env = env.now; versions = L.row_of versions.now }) plan.now) (lent rows.now)) result }
{
    let mut made = List::new(alloc);
    for row in rows {
        push(&mut made, show(alloc, plan, row, env, versions)?)?;
    }
    Ok(made)
}

fn rows_of(alloc: Global, all: Vec<Shown>) -> Result<List<Row>, Memory>
    ensures { IfOk result (λ rows. rows ≡ map (λ one. one.row) all.items) }
{
    let rows = all.into_iter().map(|one| one.row).collect(alloc)?;
    Ok(List::from_vec(rows))
}

/// The grid of rows, in order.
fn grid(alloc: Global, plan: &Plan, all: List<Shown>) -> Result<Grid, Memory>
    ensures { IfOk result (λ made. made ≡ spec.grid_of plan.now all) }
{
    let all = sorted(plan.order.as_slice(), all.into_vec())?;
    Ok(Grid {
        names: plan.names.copy(alloc)?,
        rows: rows_of(alloc, all)?,
    })
}

/// The answer over joined rows, or over those of the only source.
fn answer<L: Versions>(
    alloc: Global,
    plan: &Plan,
    rows: Source<'_>,
    env: &Env<'_>,
    versions: &L,
) -> Result<Grid, Refusal>
    ensures { Gives (spec.answer_over (record { env = env.now; versions = L.row_of versions.now }) plan.now (source_rows rows.entry)) result }
{
    let kept = rows_where(alloc, &plan.filter, rows, env, versions)?;
    let all = show_all(alloc, plan, kept.as_slice(), env, versions)?;
    Ok(grid(alloc, plan, all)?)
}

/// The answer over rows that were joined.
fn joined_answer<L: Versions>(
    alloc: Global,
    plan: &Plan,
    rows: List<Row>,
    env: &Env<'_>,
    versions: &L,
) -> Result<Grid, Refusal>
    ensures { Gives (spec.answer_over (record { env = env.now; versions = L.row_of versions.now }) plan.now rows) result }
{
    answer(alloc, plan, Source::Listed(rows.as_slice()), env, versions)
}

/// The answer over the rows of the only source, or over one row without values where there is none.
fn one_source<L: Versions>(
    alloc: Global,
    plan: &Plan,
    rows: Source<'_>,
    env: &Env<'_>,
    versions: &L,
) -> Result<Grid, Refusal>
    ensures { Gives (spec.answer_over (record { env = env.now; versions = L.row_of versions.now }) plan.now (only_source plan.now.left (source_rows rows.entry))) result }
{
    if plan.left == 0 {
        let row = Row(List::new(alloc));
        answer(alloc, plan, Source::Listed(&[row]), env, versions)
    } else {
        answer(alloc, plan, rows, env, versions)
    }
}

/// What a SELECT answers, over the rows of its sources.
///
/// `left` are the rows of the left or only source, `right` those of the right one; of a CROSS APPLY, `right` has one
/// row for each left row. A SELECT without FROM has a plan whose left source has no columns: its expressions are
/// evaluated on one row without values, whatever `left` holds. A joined row is the left row's values followed by the
/// right row's; a missing row stands with NULLs. ON, WHERE and the items are evaluated on it, and the parts of ORDER BY
/// on its values followed by those of the items, where the value of the first item has the place after the last column.
/// Without ORDER BY the rows stand by left row and then right row, of a RIGHT JOIN by right row and then left row; rows
/// that tie under ORDER BY keep this order.
///
/// Where WHERE pins the key of the only source's table, its row is looked up; so are the right rows that ON pins for a
/// left row, and in a RIGHT JOIN the left rows that it pins for a right row, and also in an INNER JOIN of a table with a
/// list whose rows pin rising keys. Where ON pins a column that is not the key of a table, the rows are sorted by it once, so
/// that a join takes n log n steps for n rows of both sources, and one for each pair whose column has the pinned value. Else
/// all rows of the source are tested.
///
/// `Overflow`: a sum, difference, product or sign does not fit 64 bits in ON on a pair, in WHERE on a joined row, or in
/// an item or an expression of ORDER BY on a kept row. `Memory` is the only other error.
#[tactic(auto, unfolding(crate::specs::Answer::answer))]
pub fn select<L: Versions>(
    alloc: Global,
    plan: &Plan,
    left: Source<'_>,
    right: Source<'_>,
    env: &Env<'_>,
    versions: &L,
) -> Result<Grid, Refusal>
    ensures { Gives (spec.answer (record { env = env.now; versions = L.row_of versions.now }) plan.now (source_rows left.entry) (source_rows right.entry)) result }
{
    match plan.join {
        Join::One => one_source(alloc, plan, left, env, versions),
        Join::Inner => {
            let rows = inner(alloc, plan, left, right, env, versions)?;
            joined_answer(alloc, plan, rows, env, versions)
        }
        Join::Left => {
            let lefts = left.all(alloc)?;
            let lefts = lefts.as_slice();
            let rows = joined_by(alloc, plan, Side::Left, true, lefts, right, env, versions)?;
            joined_answer(alloc, plan, rows, env, versions)
        }
        Join::Right => {
            let rights = right.all(alloc)?;
            let rights = rights.as_slice();
            let rows = joined_by(alloc, plan, Side::Right, true, rights, left, env, versions)?;
            joined_answer(alloc, plan, rows, env, versions)
        }
        Join::Apply => {
            let lefts = left.all(alloc)?;
            let rights = right.all(alloc)?;
            let rows = applied(alloc, lefts.as_slice(), rights.as_slice())?;
            joined_answer(alloc, plan, rows, env, versions)
        }
    }
}
