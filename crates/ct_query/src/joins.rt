ghost use Rattle.std.specs.Prelude.{◌≡◌, ◌++◌, IfOk, IfSome, OnOk, false, map, replicate};
ghost use Rattle.ct_types.specs.declared.value.Value.TheVariants.{Null as null};
ghost use Rattle.ct_types.specs.Answers.{Gives};
ghost use Rattle.ct_query.specs.declared.side.Side.TheVariants.{Left as left_side};
ghost use Rattle.ct_query.specs.Joins.{pair as a_pair, left_only as a_left, right_only as a_right, row_of, side_by_side};
ghost use Rattle.ct_expr.specs.Meaning.{holds as holds_on};
ghost use Rattle.ct_scan.specs.Lists.{all_of};
ghost use Rattle.ct_query.specs.Steps as spec;
ghost use Rattle.ct_source.specs.Rows.{lent};
ghost use Rattle.ct_source.specs.Sources.{source_rows};

use crate::lists::append;
use crate::side::Side;
use ct_expr::{Env, Versions, pair_holds};
use ct_scan::{index_of_lefts, index_of_rights, lefts_of, rights_of, stand_alike};
use ct_source::{Index, Source};
use ct_types::{Copies, List, Memory, Plan, Refusal, Row, Value, push};
use std::alloc::Global;

fn push_copies(alloc: Global, values: &mut List<Value>, more: &[Value]) -> Result<(), Memory>
    ensures { OnOk result (values.new ≡ values.old ++ more.now) }
{
    for value in more {
        values.push(value.copy(alloc)?)?;
    }
    Ok(())
}

fn push_nulls(values: &mut List<Value>, count: u32) -> Result<(), Memory>
    ensures { OnOk result (values.new ≡ values.old ++ replicate count null) }
{
    for _ in 0..count {
        values.push(Value::Null)?;
    }
    Ok(())
}

/// The values of a row, then those of another: the row of a pair.
pub(crate) fn pair(alloc: Global, left: &Row, right: &Row) -> Result<Row, Memory>
    ensures { IfOk result (λ row. row ≡ row_of 0 0 (a_pair left.now right.now)) }
{
    let mut values = left.0.copy(alloc)?;
    push_copies(alloc, &mut values, right.0.as_slice())?;
    Ok(Row(values))
}

/// A left row, and NULL for each column of the right source.
fn left_only(alloc: Global, left: &Row, columns: u32) -> Result<Row, Memory>
    ensures { IfOk result (λ row. row ≡ row_of 0 columns (a_left left.now)) }
{
    let mut values = left.0.copy(alloc)?;
    push_nulls(&mut values, columns)?;
    Ok(Row(values))
}

/// NULL for each column of the left source, and a right row.
fn right_only(alloc: Global, columns: u32, right: &Row) -> Result<Row, Memory>
    ensures { IfOk result (λ row. row ≡ row_of columns 0 (a_right right.now)) }
{
    let mut values = List::new(alloc);
    push_nulls(&mut values, columns)?;
    push_copies(alloc, &mut values, right.0.as_slice())?;
    Ok(Row(values))
}

/// A row of a side with a row of the other side: the row of their pair.
fn pair_at(alloc: Global, side: Side, row: &Row, other: &Row) -> Result<Row, Memory>
    ensures { IfOk result (λ made. made ≡ spec.pair_at side row.now other.now) }
{
    match side {
        Side::Left => pair(alloc, row, other),
        Side::Right => pair(alloc, other, row),
    }
}

/// A row of a side, and NULL for each column of the other side.
fn alone_at(alloc: Global, plan: &Plan, side: Side, row: &Row) -> Result<Row, Memory>
    ensures { IfOk result (λ made. made ≡ spec.row_in plan.now (spec.alone_at side row.now)) }
{
    match side {
        Side::Left => left_only(alloc, row, plan.right),
        Side::Right => right_only(alloc, plan.left, row),
    }
}

/// Whether ON is true on the pair of a row of a side with a row of the other side.
fn on_holds<L: Versions>(
    alloc: Global,
    plan: &Plan,
    side: Side,
    row: &Row,
    other: &Row,
    env: &Env<'_>,
    versions: &L,
) -> Result<bool, Refusal>
    ensures { Gives (holds_on (record { env = env.now; versions = L.row_of versions.now }) plan.now.on (spec.pair_at side row.now other.now)) result }
{
    match side {
        Side::Left => pair_holds(alloc, &plan.on, row, other, env, versions),
        Side::Right => pair_holds(alloc, &plan.on, other, row, env, versions),
    }
}

/// The pairs of a row of a side with these rows of the other side for which ON is true. No other pair is made.
fn true_pairs<L: Versions>(
    alloc: Global,
    plan: &Plan,
    side: Side,
    row: &Row,
    others: &[&Row],
    env: &Env<'_>,
    versions: &L,
) -> Result<List<Row>, Refusal>
    ensures { Gives (spec.pairs_of (record { env = env.now; versions = L.row_of versions.now }) plan.now side (lent others.now) row.now) result }
{
    let mut found = List::new(alloc);
    for other in others {
        if on_holds(alloc, plan, side, row, other, env, versions)? {
            let made = pair_at(alloc, side, row, other)?;
            push(&mut found, made)?;
        }
    }
    Ok(found)
}

/// Rows of the other side, among which are all that make a pair with a row of a side on which ON can be true.
fn partners<'a>(
    alloc: Global,
    plan: &Plan,
    side: Side,
    row: &Row,
    others: Source<'a>,
    env: &Env<'_>,
) -> Result<List<&'a Row>, Memory>
    ensures { IfOk result (λ made. spec.ArePartners side env.now plan.now.on row.now (source_rows others.entry) (lent made)) }
{
    match side {
        Side::Left => rights_of(alloc, &plan.on, row, others, env),
        Side::Right => lefts_of(alloc, &plan.on, others, row, env),
    }
}

/// The pairs of a row of a side for which ON is true.
fn pairs_of<L: Versions>(
    alloc: Global,
    plan: &Plan,
    side: Side,
    row: &Row,
    others: Source<'_>,
    env: &Env<'_>,
    versions: &L,
) -> Result<List<Row>, Refusal>
    ensures { Gives (spec.pairs_of (record { env = env.now; versions = L.row_of versions.now }) plan.now side (source_rows others.entry) row.now) result }
{
    let partners = partners(alloc, plan, side, row, others, env)?;
    true_pairs(alloc, plan, side, row, partners.as_slice(), env, versions)
}

/// The pairs of a row of a side, or the row with NULLs where there are none.
fn pairs_or_alone<L: Versions>(
    alloc: Global,
    plan: &Plan,
    side: Side,
    row: &Row,
    others: Source<'_>,
    env: &Env<'_>,
    versions: &L,
) -> Result<List<Row>, Refusal>
    ensures { Gives (spec.pairs_or_alone (record { env = env.now; versions = L.row_of versions.now }) plan.now side (source_rows others.entry) row.now) result }
{
    let mut found = pairs_of(alloc, plan, side, row, others, env, versions)?;
    if found.as_slice().is_empty() {
        push(&mut found, alone_at(alloc, plan, side, row)?)?;
    }
    Ok(found)
}

/// The joined rows of a row of a side: its pairs, and in an outer join the row with NULLs where there are none.
fn rows_of<L: Versions>(
    alloc: Global,
    plan: &Plan,
    side: Side,
    outer: bool,
    row: &Row,
    others: Source<'_>,
    env: &Env<'_>,
    versions: &L,
) -> Result<List<Row>, Refusal>
    ensures { Gives (spec.rows_of (record { env = env.now; versions = L.row_of versions.now }) plan.now side outer (source_rows others.entry) row.now) result }
{
    if outer {
        pairs_or_alone(alloc, plan, side, row, others, env, versions)
    } else {
        pairs_of(alloc, plan, side, row, others, env, versions)
    }
}

/// The joined rows of each of these rows of a side, in their order.
fn by_rows<L: Versions>(
    alloc: Global,
    plan: &Plan,
    side: Side,
    outer: bool,
    rows: &[&Row],
    others: Source<'_>,
    env: &Env<'_>,
    versions: &L,
) -> Result<List<Row>, Refusal>
    ensures { Gives (all_of (spec.rows_of (record { env = env.now; versions = L.row_of versions.now }) plan.now side outer (source_rows others.entry)) (lent rows.now)) result }
{
    let mut all = Vec::new(alloc);
    for row in rows {
        let found = rows_of(alloc, plan, side, outer, row, others, env, versions)?;
        append(&mut all, found)?;
    }
    Ok(List::from_vec(all))
}

/// The rows of the other side by a column that ON pins beside the first of several rows of a side. None where there is no such
/// column, and where they are looked up as they are.
fn index_beside<'a>(
    alloc: Global,
    plan: &Plan,
    side: Side,
    rows: &[&Row],
    others: Source<'a>,
    env: &Env<'_>,
) -> Result<Option<Index<'a>>, Memory>
    ensures { IfOk result (λ made. IfSome made (λ index. index.rows ≡ source_rows others.entry)) }
{
    match (side, rows) {
        (Side::Left, [row, _, ..]) => {
            index_of_rights(alloc, &plan.on, row, plan.right, others, env)
        }
        (Side::Right, [row, _, ..]) => {
            index_of_lefts(alloc, &plan.on, plan.left, others, row, env)
        }
        _ => Ok(None),
    }
}

/// The joined rows of each of these rows of a side, in their order. Where ON pins a column of the other side, its rows are
/// looked up, and sorted once for it where they are not a table with this key.
pub(crate) fn joined_by<L: Versions>(
    alloc: Global,
    plan: &Plan,
    side: Side,
    outer: bool,
    rows: &[&Row],
    others: Source<'_>,
    env: &Env<'_>,
    versions: &L,
) -> Result<List<Row>, Refusal>
    ensures { Gives (all_of (spec.rows_of (record { env = env.now; versions = L.row_of versions.now }) plan.now side outer (source_rows others.entry)) (lent rows.now)) result }
{
    match index_beside(alloc, plan, side, rows, others, env)? {
        Some(index) => {
            let others = Source::Indexed(&index);
            by_rows(alloc, plan, side, outer, rows, others, env, versions)
        }
        None => by_rows(alloc, plan, side, outer, rows, others, env, versions),
    }
}

/// The rows of an INNER JOIN, by left row and then right row. Where they stand alike by right row, as those of a table with
/// its changes do, no left row is read but those that ON pins.
pub(crate) fn inner<L: Versions>(
    alloc: Global,
    plan: &Plan,
    lefts: Source<'_>,
    rights: Source<'_>,
    env: &Env<'_>,
    versions: &L,
) -> Result<List<Row>, Refusal>
    ensures { Gives (all_of (spec.rows_of (record { env = env.now; versions = L.row_of versions.now }) plan.now left_side false (source_rows rights.entry)) (source_rows lefts.entry)) result }
{
    if stand_alike(alloc, &plan.on, lefts, rights, env)? {
        let rights = rights.all(alloc)?;
        by_rows(
            alloc,
            plan,
            Side::Right,
            false,
            rights.as_slice(),
            lefts,
            env,
            versions,
        )
    } else {
        let lefts = lefts.all(alloc)?;
        joined_by(
            alloc,
            plan,
            Side::Left,
            false,
            lefts.as_slice(),
            rights,
            env,
            versions,
        )
    }
}

/// Each left row with the right row at its place.
pub(crate) fn applied(alloc: Global, lefts: &[&Row], rights: &[&Row]) -> Result<List<Row>, Memory>
    ensures { IfOk result (λ rows. rows ≡ map (row_of 0 0) (side_by_side (lent lefts.now) (lent rights.now))) }
{
    let mut rows = List::new(alloc);
    for (left, right) in lefts.iter().zip(rights) {
        rows.push(pair(alloc, left, right)?)?;
    }
    Ok(rows)
}
