use crate::{Copies, List, Memory, Text};
use std::alloc::Global;

/// The type of a column, with the greatest length of its values.
#[derive(Clone, Copy, Debug, PartialEq, Eq)]
pub enum ColType {
    /// A number of 32 bits.
    Int,
    /// A number of 64 bits.
    BigInt,
    /// A text of at most 1 to 4,000 code points.
    NVarChar(u16),
    /// At most 1 to 8,000 bytes.
    VarBinary(u16),
}

/// A column of a table.
#[derive(Debug, Drop)]
pub struct Column {
    pub name: Text,
    pub kind: ColType,
    pub nullable: bool,
}

/// What a table is by its definition.
#[derive(Debug, Drop)]
pub struct Schema {
    /// Tables are numbered from 1 in the order in which they were created.
    pub id: u32,
    /// A name of two parts has a full stop between them.
    pub name: Text,
    /// A column's id is its place in this list, from 1 on.
    pub columns: List<Column>,
    /// The ids of the key columns, in key order.
    pub key: List<u16>,
}

impl Copies for Column {
    fn copy(&self, alloc: Global) -> Result<Column, Memory> {
        Ok(Column {
            name: self.name.copy(alloc)?,
            kind: self.kind,
            nullable: self.nullable,
        })
    }
}

impl Copies for Schema {
    fn copy(&self, alloc: Global) -> Result<Schema, Memory> {
        Ok(Schema {
            id: self.id,
            name: self.name.copy(alloc)?,
            columns: self.columns.copy(alloc)?,
            key: self.key.copy(alloc)?,
        })
    }
}
