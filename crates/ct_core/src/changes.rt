ghost use Rattle.std.specs.Prelude.{◌≡◌, ◌++◌, map, IfOk, OnOk};
ghost use Rattle.std.specs.Option.{option_map};
ghost use Rattle.ct_expr.specs.Functions.{bytes_or_null as bytes_or_null_of};
ghost use Rattle.ct_mask.specs.Masks.{bytes_of};
ghost use Rattle.ct_machine.specs.Reads.{op_name, shown};

use ct_expr::{bytes_or_null, counted, counted_or_null};
use ct_mask::Mask;
use ct_types::{Bin, Copies, List, Memory, NetRow, Op, Row, Text, Value};
use std::alloc::Global;

fn operation(alloc: Global, op: Op) -> Result<Text, Memory>
    ensures { IfOk result (λ made. made ≡ op_name op) }
{
    match op {
        Op::Insert => Text::of(alloc, "I"),
        Op::Update => Text::of(alloc, "U"),
        Op::Delete => Text::of(alloc, "D"),
    }
}

fn columns(alloc: Global, mask: Option<u64>) -> Result<Value, Memory>
    ensures { IfOk result (λ made. made ≡ bytes_or_null_of (option_map bytes_of mask)) }
{
    match mask {
        Some(mask) => Ok(Value::Bytes(Mask::from_bits(mask).bytes(alloc)?)),
        None => Ok(Value::Null),
    }
}

fn context(alloc: Global, bytes: &Option<Bin>) -> Result<Value, Memory>
    ensures { IfOk result (λ made. made ≡ bytes_or_null_of bytes.now) }
{
    Ok(bytes_or_null(bytes.copy(alloc)?))
}

/// Adds copies of these values at the end.
pub(crate) fn push_all(
    alloc: Global,
    values: &mut List<Value>,
    more: &[Value],
) -> Result<(), Memory>
    ensures { OnOk result (values.new ≡ values.old ++ more.now) }
{
    for value in more {
        values.push(value.copy(alloc)?)?;
    }
    Ok(())
}

/// The row that CHANGETABLE(CHANGES ..) shows of a net change.
fn show(alloc: Global, row: &NetRow) -> Result<Row, Memory>
    ensures { IfOk result (λ made. made ≡ shown row.now) }
{
    let mut values = List::new(alloc);
    values.push(counted(row.version))?;
    values.push(counted_or_null(row.creation))?;
    values.push(Value::Text(operation(alloc, row.op)?))?;
    values.push(columns(alloc, row.mask)?)?;
    values.push(context(alloc, &row.context)?)?;
    push_all(alloc, &mut values, row.key.0.as_slice())?;
    Ok(Row(values))
}

/// The rows that CHANGETABLE(CHANGES ..) shows of these net changes.
pub(crate) fn show_changes(alloc: Global, rows: &[NetRow]) -> Result<List<Row>, Memory>
    ensures { IfOk result (λ made. made ≡ map shown rows.now) }
{
    let mut made = List::new(alloc);
    for row in rows {
        made.push(show(alloc, row)?)?;
    }
    Ok(made)
}
