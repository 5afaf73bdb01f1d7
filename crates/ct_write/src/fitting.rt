ghost use Rattle.std.specs.Prelude.{OnOk};
ghost use Rattle.std.specs.List.{AllByRecursion};
ghost use Rattle.ct_types.specs.ColumnFit.{Fits};
ghost use Rattle.ct_types.specs.Answers.{Gives};
ghost use Rattle.ct_write.specs.Fitting as spec;
ghost use Rattle.ct_write.specs.Steps.{in_turn};

use crate::changes::Changed;
use ct_types::{Column, Copies, Misfit, Refusal, Row, Value, fits};
use std::alloc::Global;

/// Whether a value fits its column. `NotNull` for NULL in a column that may not be NULL, `Overflow` for a number outside 32
/// bits in an INT column, `TooLong` for a text or bytes longer than the column allows; the first and the last name the column.
/// `Memory` is the only other error.
///
/// SQL Server's 515 and 8115. That too long a value answers 8152 with the column's name is this project's own.
#[tactic(auto, using(crate::proofs::Fits::fit_steps))]
pub fn fit_value(alloc: Global, column: &Column, value: &Value) -> Result<(), Refusal>
    ensures gives { Gives (spec.fit column.now value.now) result }
    ensures fits { OnOk result (Fits column.now value.now) }
{
    match fits(column, value) {
        Ok(()) => Ok(()),
        Err(Misfit::NotNull) => Err(Refusal::NotNull {
            column: column.name.copy(alloc)?,
        }),
        Err(Misfit::Overflow) => Err(Refusal::Overflow),
        Err(Misfit::TooLong) => Err(Refusal::TooLong {
            column: column.name.copy(alloc)?,
        }),
    }
}

fn fit_values(alloc: Global, columns: &[Column], values: &[Value]) -> Result<(), Refusal>
    ensures gives { Gives (spec.fit_values columns.now values.now) result }
    ensures fits { OnOk result (spec.AreFit columns.now values.now) }
{
    match columns {
        [] => Ok(()),
        [column, columns @ ..] => match values {
            [] => Ok(()),
            [value, values @ ..] => {
                fit_value(alloc, column, value)?;
                fit_values(alloc, columns, values)
            }
        },
    }
}

pub(crate) fn fit_row(alloc: Global, columns: &[Column], row: &Option<Row>) -> Result<(), Refusal>
    ensures gives { Gives (spec.fit_row columns.now row.now) result }
    ensures fits { OnOk result (spec.IsFit columns.now row.now) }
{
    match row {
        None => Ok(()),
        Some(row) => fit_values(alloc, columns, row.0.as_slice()),
    }
}

/// Whether each row fits the columns: the first that does not tells the refusal, by its first column that does not.
pub(crate) fn fit_all(alloc: Global, columns: &[Column], changes: &[Changed]) -> Result<(), Refusal>
    ensures gives { Gives (in_turn (λ changed. spec.fit_row columns.now changed.row) changes.now) result }
    ensures fits { OnOk result (AllByRecursion (λ changed. spec.IsFit columns.now changed.row) changes.now) }
{
    for changed in changes {
        fit_row(alloc, columns, &changed.row)?;
    }
    Ok(())
}
