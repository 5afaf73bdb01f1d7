ghost use Rattle.std.specs.Prelude.{◌≡◌, ◌<◌, is_some, IfOk, IfSome};
ghost use Rattle.ct_scan.specs.Readings as spec;
ghost use Rattle.ct_source.specs.Indexed.{AreAsWide};
ghost use Rattle.ct_source.specs.Sources.{source_rows};

use crate::conditions::key_place;
use crate::reading::pinned;
use crate::seen::Seen;
use ct_bind_names::place_after;
use ct_expr::Env;
use ct_source::{Index, Source, Stored};
use ct_types::{BoundExpr, Memory, Row};
use std::alloc::Global;

/// How rows of a source are looked up.
#[derive(Clone, Copy)]
pub(crate) struct LookUp {
    /// The place of the column by whose values they are.
    pub(crate) at: u32,
    /// How many values each row has.
    pub(crate) width: usize,
}

/// How rows of a table are looked up: by the key, where it is one column.
fn stored_look_up(table: &Stored) -> Option<LookUp>
    ensures within { IfSome result (λ how. how.at < how.width) }
    ensures wide { IfSome result (λ how. AreAsWide table.now.rows how.width) }
{
    table.rows_rise();
    let width = table.schema().columns.as_slice().len();
    match key_place(table) {
        Some(at) => Some(LookUp { at, width }),
        None => None,
    }
}

/// How rows are looked up in an index of theirs.
fn indexed_look_up(index: &Index<'_>) -> Option<LookUp>
    ensures within { IfSome result (λ how. how.at < how.width) }
    ensures wide { IfSome result (λ how. AreAsWide index.now.rows how.width) }
{
    let at = index.at();
    match index.width() {
        Some(width) => {
            if (at as usize) < width {
                Some(LookUp { at, width })
            } else {
                None
            }
        }
        None => None,
    }
}

/// How rows of a source are looked up; none where all have to be read.
pub(crate) fn look_up(source: Source<'_>) -> Option<LookUp>
    ensures within { IfSome result (λ how. how.at < how.width) }
    ensures wide { IfSome result (λ how. AreAsWide (source_rows source.entry) how.width) }
{
    match source {
        Source::Listed(_) => None,
        Source::Stored(table) => stored_look_up(table),
        Source::Indexed(index) => indexed_look_up(index),
    }
}

/// Whether ON pins the column at a place of the joined row.
fn is_pinned(
    alloc: Global,
    on: &BoundExpr,
    place: u32,
    seen: &Seen<'_>,
    env: &Env<'_>,
) -> Result<bool, Memory>
    ensures { IfOk result (λ pins. pins ≡ is_some (spec.pinned env.now seen.now place on.now)) }
{
    Ok(pinned(alloc, on, place, env, seen)?.is_some())
}

/// The first of some columns that ON pins to a value which it has of the row that is seen, or else the first that it pins to the
/// same value beside each row. They stand in the joined row from a place on. Any column is right: this is a choice of the fewest
/// rows, and no promise.
fn first_pinned(
    alloc: Global,
    on: &BoundExpr,
    seen: &Seen<'_>,
    from: usize,
    columns: u32,
    env: &Env<'_>,
) -> Result<Option<u32>, Memory> {
    let mut first = None;
    for at in 0..columns {
        let place = place_after(at, from)?;
        if is_pinned(alloc, on, place, seen, env)? {
            if !is_pinned(alloc, on, place, &Seen::nothing(), env)? {
                return Ok(Some(at));
            }
            first = first.or(Some(at));
        }
    }
    Ok(first)
}

/// Whether ON pins the column by which rows of a source are looked up as they are.
fn is_looked_up(
    alloc: Global,
    on: &BoundExpr,
    seen: &Seen<'_>,
    from: usize,
    source: Source<'_>,
    env: &Env<'_>,
) -> Result<bool, Memory> {
    match look_up(source) {
        Some(how) => is_pinned(alloc, on, place_after(how.at, from)?, seen, env),
        None => Ok(false),
    }
}

/// The rows of a source by a column that ON pins; none where it pins none, or one by which they are looked up
/// as they are.
fn index_by<'a>(
    alloc: Global,
    on: &BoundExpr,
    seen: &Seen<'_>,
    from: usize,
    columns: u32,
    source: Source<'a>,
    env: &Env<'_>,
) -> Result<Option<Index<'a>>, Memory>
    ensures { IfOk result (λ made. IfSome made (λ index. index.rows ≡ source_rows source.entry)) }
{
    if is_looked_up(alloc, on, seen, from, source, env)? {
        return Ok(None);
    }
    match first_pinned(alloc, on, seen, from, columns, env)? {
        Some(at) => Ok(Some(Index::of(alloc, source, at)?)),
        None => Ok(None),
    }
}

/// The right rows of a join by one of their columns, of which there are so many: one that ON compares for equality with
/// a value that is known beside a left row, as this one. None where there is no such column, and where the right rows are
/// looked up as they are. This project's own.
pub fn index_of_rights<'a>(
    alloc: Global,
    on: &Option<BoundExpr>,
    left: &Row,
    columns: u32,
    rights: Source<'a>,
    env: &Env<'_>,
) -> Result<Option<Index<'a>>, Memory>
    ensures { IfOk result (λ made. IfSome made (λ index. index.rows ≡ source_rows rights.entry)) }
{
    let from = left.0.as_slice().len();
    match on {
        Some(on) => index_by(alloc, on, &Seen::row(0, left), from, columns, rights, env),
        None => Ok(None),
    }
}

/// The left rows of a join by one of their columns, of which there are so many: the same beside a right row.
pub fn index_of_lefts<'a>(
    alloc: Global,
    on: &Option<BoundExpr>,
    columns: u32,
    lefts: Source<'a>,
    right: &Row,
    env: &Env<'_>,
) -> Result<Option<Index<'a>>, Memory>
    ensures { IfOk result (λ made. IfSome made (λ index. index.rows ≡ source_rows lefts.entry)) }
{
    match on {
        Some(on) => index_by(
            alloc,
            on,
            &Seen::row(columns, right),
            0,
            columns,
            lefts,
            env,
        ),
        None => Ok(None),
    }
}
