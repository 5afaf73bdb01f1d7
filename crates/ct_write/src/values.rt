ghost use Rattle.std.specs.Prelude.{◌≡◌, ◌-◌, map, slice_set, OnOk, IfOk};
ghost use Rattle.ct_expr.specs.Meaning.{value};
ghost use Rattle.ct_types.specs.Answers.{Gives, each};
ghost use Rattle.ct_write.specs.Rows.{assigned, nulls as all_null, set_columns as columns_of};

use ct_expr::{Env, Versions, eval};
use ct_types::{BoundExpr, BoundSet, Column, Copies, List, Memory, Refusal, Row, Value, push};
use std::alloc::Global;

/// The values of a tuple.
pub(crate) fn tuple_values<L: Versions>(
    alloc: Global,
    tuple: &[BoundExpr],
    row: &Row,
    env: &Env<'_>,
    versions: &L,
) -> Result<List<Value>, Refusal>
    ensures { Gives (each (value (record { row = row.now; env = env.now; versions = L.row_of versions.now })) tuple.now) result }
{
    let mut values = List::new(alloc);
    for expr in tuple {
        push(&mut values, eval(alloc, expr, row, env, versions)?)?;
    }
    Ok(values)
}

/// The values of a SET list, each on the row as it is before the update.
pub(crate) fn set_values<L: Versions>(
    alloc: Global,
    sets: &[BoundSet],
    row: &Row,
    env: &Env<'_>,
    versions: &L,
) -> Result<List<Value>, Refusal>
    ensures { Gives (each (λ set. value (record { row = row.now; env = env.now; versions = L.row_of versions.now }) set.value) sets.now) result }
{
    let mut values = List::new(alloc);
    for set in sets {
        push(&mut values, eval(alloc, &set.value, row, env, versions)?)?;
    }
    Ok(values)
}

/// The columns of a SET list, in its order.
pub(crate) fn set_columns(alloc: Global, sets: &[BoundSet]) -> Result<List<u16>, Memory>
    ensures { IfOk result (λ ids. ids ≡ columns_of sets.now) }
{
    let ids = sets.iter().map(|set| set.column).collect(alloc)?;
    Ok(List::from_vec(ids))
}

/// NULL for each column.
pub(crate) fn nulls(alloc: Global, columns: &[Column]) -> Result<Vec<Value>, Memory>
    ensures { IfOk result (λ row. row.items ≡ all_null columns.now) }
{
    Ok(columns.iter().map(|_column| Value::Null).collect(alloc)?)
}

/// Puts a value in the place of the column with this id, if there is one.
fn put(row: &mut Vec<Value>, id: u16, value: Value)
    ensures { row.new.items ≡ slice_set row.old.items (id - 1) value }
{
    let place = usize::from(id.saturating_sub(1));
    if place < row.len() {
        row[place] = value;
    }
}

/// Puts each value into the column of its id.
pub(crate) fn assign(
    alloc: Global,
    ids: &[u16],
    values: &[Value],
    row: &mut Vec<Value>,
) -> Result<(), Memory>
    ensures { OnOk result (row.new.items ≡ assigned ids.now values.now row.old.items) }
{
    match ids {
        [] => Ok(()),
        [id, ids @ ..] => match values {
            [] => Ok(()),
            [value, values @ ..] => {
                put(row, *id, value.copy(alloc)?);
                assign(alloc, ids, values, row)
            }
        },
    }
}
