use crate::{ColType, Copies, List, Memory, Schema, Text, Tracked, Value};
use std::alloc::Global;

/// A table of the catalogue: what it is by its definition, and how it is tracked.
#[derive(Debug, Drop)]
pub struct Catalogued {
    pub schema: Schema,
    pub tracked: Option<Tracked>,
}

/// A variable of a session.
#[derive(Debug, Drop)]
pub struct Variable {
    /// With its `@`, as DECLARE writes it.
    pub name: Text,
    pub kind: ColType,
    /// NULL, or a value that a column of this type holds.
    pub value: Value,
}

/// The variables of a session, in the order in which they were declared.
#[derive(Debug, Drop)]
pub struct Variables(pub List<Variable>);

impl Copies for Catalogued {
    fn copy(&self, alloc: Global) -> Result<Catalogued, Memory> {
        Ok(Catalogued {
            schema: self.schema.copy(alloc)?,
            tracked: self.tracked,
        })
    }
}

impl Copies for Variable {
    fn copy(&self, alloc: Global) -> Result<Variable, Memory> {
        Ok(Variable {
            name: self.name.copy(alloc)?,
            kind: self.kind,
            value: self.value.copy(alloc)?,
        })
    }
}

impl Copies for Variables {
    fn copy(&self, alloc: Global) -> Result<Variables, Memory> {
        Ok(Variables(self.0.copy(alloc)?))
    }
}
