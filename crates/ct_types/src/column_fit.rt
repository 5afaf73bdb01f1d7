ghost use Rattle.std.specs.Prelude.{◌≡◌, ◌↔◌, IsTrue, IsOk};
ghost use Rattle.std.specs.Str.{IsUtf8};
ghost use Rattle.ct_types.specs.ColumnFit.{code_points, has_kind, IsInt, IsMissing, IsOutOfRange, IsTooLong, Fits};

use crate::{ColType, Column, Text, Value};

/// Why a value does not fit a column.
#[derive(Clone, Copy, Debug, PartialEq, Eq)]
pub enum Misfit {
    /// NULL in a column that is not nullable.
    NotNull,
    /// A number outside 32 bits in an INT column.
    Overflow,
    /// More code points or bytes than the column's type allows.
    TooLong,
}

/// How many code points a text has.
fn count_code_points(text: &Text) -> usize
    ensures count { result ≡ code_points text.now }
    ensures utf8 { IsUtf8 text.now }
{
    text.as_str()
        .as_bytes()
        .iter()
        .filter(|byte| **byte < 128 || **byte >= 192)
        .count()
}

fn is_int(number: i64) -> bool
    ensures { IsTrue result ↔ IsInt number }
{
    number >= -2_147_483_648 && number <= 2_147_483_647
}

/// Whether a value has the kind of a type: NULL has each kind, a number that of INT and BIGINT, a text that of
/// NVARCHAR, bytes that of VARBINARY.
pub fn is_of_kind(kind: ColType, value: &Value) -> bool
    ensures { result ≡ has_kind kind value.now }
{
    match value {
        Value::Null => true,
        Value::Int(_) => match kind {
            ColType::Int | ColType::BigInt => true,
            ColType::NVarChar(_) | ColType::VarBinary(_) => false,
        },
        Value::Text(_) => match kind {
            ColType::NVarChar(_) => true,
            ColType::Int | ColType::BigInt | ColType::VarBinary(_) => false,
        },
        Value::Bytes(_) => match kind {
            ColType::VarBinary(_) => true,
            ColType::Int | ColType::BigInt | ColType::NVarChar(_) => false,
        },
    }
}

/// Whether a value fits a column of its kind: `NotNull` exactly for NULL in a column that is not nullable,
/// `Overflow` exactly for a number outside 32 bits in an INT column, `TooLong` exactly for more code points or
/// bytes than the type's number. `is_of_kind` tells whether the value has the column's kind.
///
/// The numbers of the types are those of T-SQL's int, bigint, nvarchar and varbinary; that the length of a text
/// counts code points is this project's own.
pub fn fits(column: &Column, value: &Value) -> Result<(), Misfit>
    ensures not_null { (result ≡ Err Misfit.NotNull) ↔ IsMissing column.now value.now }
    ensures overflow { (result ≡ Err Misfit.Overflow) ↔ IsOutOfRange column.now.kind value.now }
    ensures too_long { (result ≡ Err Misfit.TooLong) ↔ IsTooLong column.now.kind value.now }
    ensures fits { IsOk result ↔ Fits column.now value.now }
{
    match value {
        Value::Null => {
            if column.nullable {
                Ok(())
            } else {
                Err(Misfit::NotNull)
            }
        }
        Value::Int(number) => match column.kind {
            ColType::Int => {
                if is_int(*number) {
                    Ok(())
                } else {
                    Err(Misfit::Overflow)
                }
            }
            ColType::BigInt => {
                let _number = *number;
                Ok(())
            }
            ColType::NVarChar(_) | ColType::VarBinary(_) => Ok(()),
        },
        Value::Text(text) => match column.kind {
            ColType::NVarChar(most) => {
                if count_code_points(text) <= usize::from(most) {
                    Ok(())
                } else {
                    Err(Misfit::TooLong)
                }
            }
            ColType::Int | ColType::BigInt | ColType::VarBinary(_) => Ok(()),
        },
        Value::Bytes(bytes) => match column.kind {
            ColType::VarBinary(most) => {
                if bytes.as_bytes().len() <= usize::from(most) {
                    Ok(())
                } else {
                    Err(Misfit::TooLong)
                }
            }
            ColType::Int | ColType::BigInt | ColType::NVarChar(_) => Ok(()),
        },
    }
}
