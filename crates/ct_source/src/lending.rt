ghost use Rattle.std.specs.Prelude.{◌≡◌, IfOk, filter};
ghost use Rattle.ct_source.specs.Cells.{has_value as has_that_value};
ghost use Rattle.ct_source.specs.Rows.{lent};

use crate::cells::has_value;
use ct_types::{List, Memory, Row, Value, push};
use std::alloc::Global;

/// Rows that are lent, lent once more.
pub(crate) fn lent_again<'a>(alloc: Global, rows: &[&'a Row]) -> Result<List<&'a Row>, Memory>
    ensures { IfOk result (λ made. lent made ≡ lent rows.now) }
{
    let mut made = List::new(alloc);
    for row in rows {
        push(&mut made, *row)?;
    }
    Ok(made)
}

/// Those of some rows with a value in the column at a place, of a walk over all.
pub(crate) fn lent_with<'a>(
    alloc: Global,
    rows: &[&'a Row],
    at: u32,
    value: &Value,
) -> Result<List<&'a Row>, Memory>
    ensures { IfOk result (λ made. lent made ≡ filter (has_that_value at value.now) (lent rows.now)) }
{
    let mut made = List::new(alloc);
    for row in rows {
        if has_value(row, at, value) {
            push(&mut made, *row)?;
        }
    }
    Ok(made)
}
