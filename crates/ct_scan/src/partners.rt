ghost use Rattle.std.specs.Prelude.{◌≡◌, ◌<◌, IfOk, Some};
ghost use Rattle.ct_scan.specs.Enough.{AreEnoughLefts, AreEnoughRights};
ghost use Rattle.ct_scan.specs.Steps as spec;
ghost use Rattle.ct_source.specs.Indexed.{AreAsWide};
ghost use Rattle.ct_source.specs.Rows.{lent};
ghost use Rattle.ct_source.specs.Sources.{source_rows};

use crate::lookups::{LookUp, look_up};
use crate::reading::pinned;
use crate::seen::Seen;
use ct_bind_names::place_after;
use ct_expr::Env;
use ct_source::Source;
use ct_types::{BoundExpr, List, Memory, Row, Value};
use std::alloc::Global;

/// The rows of a source with the value that a condition pins the column at a place to: all where it pins it to none, and no row
/// where it pins it to NULL, which equals nothing.
fn with_pinned<'a>(
    alloc: Global,
    at: u32,
    value: &Option<Value>,
    source: Source<'a>,
) -> Result<List<&'a Row>, Memory>
    ensures { IfOk result (λ made. lent made ≡ spec.with_pinned at value.now (source_rows source.entry)) }
{
    match value {
        None => source.all(alloc),
        Some(Value::Null) => Ok(List::new(alloc)),
        Some(value) => source.with_value(alloc, at, value),
    }
}

/// The left rows that can make a pair with this right row: those with the value that ON pins the column to by which they are
/// looked up. The right row's values stand behind those of a left row.
fn lefts_at<'a>(
    alloc: Global,
    on: &BoundExpr,
    how: LookUp,
    lefts: Source<'a>,
    right: &Row,
    env: &Env<'_>,
) -> Result<List<&'a Row>, Memory>
    requires within { how.at < how.width }
    requires wide { AreAsWide (source_rows lefts) how.width }
    ensures { IfOk result (λ made. AreEnoughLefts env.now (Some on.now) right.now (source_rows lefts.entry) (lent made)) }
{
    let columns = place_after(0, how.width)?;
    let value = pinned(alloc, on, how.at, env, &Seen::row(columns, right))?;
    with_pinned(alloc, how.at, &value, lefts)
}

/// Lends rows of the left source of a join, among which are all that make a pair with this right row on which ON can be
/// true. Where ON pins the key of the left source's table, or the column by which its rows are, it is a look-up, and else all
/// rows are lent. This project's own.
pub fn lefts_of<'a>(
    alloc: Global,
    on: &Option<BoundExpr>,
    lefts: Source<'a>,
    right: &Row,
    env: &Env<'_>,
) -> Result<List<&'a Row>, Memory>
    ensures { IfOk result (λ made. AreEnoughLefts env.now on.now right.now (source_rows lefts.entry) (lent made)) }
{
    match (on, look_up(lefts)) {
        (Some(on), Some(how)) => lefts_at(alloc, on, how, lefts, right, env),
        _ => lefts.all(alloc),
    }
}

/// The right rows that can make a pair with this left row: those with the value that ON pins the column at a place to. The left
/// row's values stand before those of a right row.
fn rights_at<'a>(
    alloc: Global,
    on: &BoundExpr,
    left: &Row,
    at: u32,
    rights: Source<'a>,
    env: &Env<'_>,
) -> Result<List<&'a Row>, Memory>
    ensures { IfOk result (λ made. AreEnoughRights env.now (Some on.now) left.now (source_rows rights.entry) (lent made)) }
{
    let joined = place_after(at, left.0.as_slice().len())?;
    let value = pinned(alloc, on, joined, env, &Seen::row(0, left))?;
    with_pinned(alloc, at, &value, rights)
}

/// Lends rows of the right source of a join, among which are all that make a pair with this left row on which ON can be
/// true. Where ON pins the key of the right source's table, or the column by which its rows are, it is a look-up, and else all
/// rows are lent. This project's own.
pub fn rights_of<'a>(
    alloc: Global,
    on: &Option<BoundExpr>,
    left: &Row,
    rights: Source<'a>,
    env: &Env<'_>,
) -> Result<List<&'a Row>, Memory>
    ensures { IfOk result (λ made. AreEnoughRights env.now on.now left.now (source_rows rights.entry) (lent made)) }
{
    match (on, look_up(rights)) {
        (Some(on), Some(how)) => rights_at(alloc, on, left, how.at, rights, env),
        _ => rights.all(alloc),
    }
}
