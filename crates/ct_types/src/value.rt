use crate::{Bin, Copies, List, Memory, Text};
use std::alloc::Global;

/// A value of a column, a variable or an expression. Values stand in the order of the variants.
#[derive(Debug, PartialEq, Eq, PartialOrd, Ord, Drop)]
pub enum Value {
    /// NULL, which equals itself here. The three-valued comparisons of the language are another thing.
    Null,
    /// A number of 64 bits.
    Int(i64),
    Text(Text),
    Bytes(Bin),
}

/// The values of a row's key columns, in key order.
#[derive(Debug, PartialEq, Eq, PartialOrd, Ord, Drop)]
pub struct Key(pub List<Value>);

/// The values of a row, a value for each column.
#[derive(Debug, PartialEq, Eq, PartialOrd, Ord, Drop)]
pub struct Row(pub List<Value>);

impl Copies for Value {
    fn copy(&self, alloc: Global) -> Result<Value, Memory> {
        match self {
            Value::Null => Ok(Value::Null),
            Value::Int(number) => Ok(Value::Int(*number)),
            Value::Text(text) => Ok(Value::Text(text.copy(alloc)?)),
            Value::Bytes(bytes) => Ok(Value::Bytes(bytes.copy(alloc)?)),
        }
    }
}

impl Copies for Key {
    fn copy(&self, alloc: Global) -> Result<Key, Memory> {
        Ok(Key(self.0.copy(alloc)?))
    }
}

impl Copies for Row {
    fn copy(&self, alloc: Global) -> Result<Row, Memory> {
        Ok(Row(self.0.copy(alloc)?))
    }
}
