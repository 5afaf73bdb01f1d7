ghost use Rattle.std.specs.Prelude.{◌≡◌, ◌++◌, ◌∷◌, [], None, IfOk, OnOk, OnErr, map, fold};
ghost use Rattle.std.specs.List.{AllByRecursion};
ghost use Rattle.std.specs.Option.{option_copied};
ghost use Rattle.ct_model.specs.Apply.{written, tracked_as, truncated, raised};
ghost use Rattle.ct_model.specs.Tables.{catalogued, table_of};
ghost use Rattle.ct_model.specs.Valid.{AreNumbered};
ghost use Rattle.ct_database.specs.Steps.{listed_of};
ghost use Rattle.ct_database.specs.Storable.{IsWriteStorable, IsSchemaStorable};

use crate::{acts, writes};
use ct_source::Stored;
use ct_types::{Catalogued, List, Memory, Min, Schema, Tracked, Write};
use std::alloc::Global;
use std::marker::Model;
use std::sync::Arc;

/// The tables by id from 1 on, and their catalogue.
///
/// What changes more than rows is done to shares of all tables, and makes a new catalogue: so shares have one catalogue in common.
#[derive(Drop)]
pub(crate) struct Tables {
    alloc: Global,
    /// None while there is no table.
    catalogue: Option<Arc<List<Catalogued>>>,
    tables: Vec<Stored>,
}

impl Model for Tables {
    ghost use Rattle.std.specs.Prelude.{List};
    ghost use Rattle.ct_model.specs.declared.db.Table.{Table};
    ghost use Rattle.ct_database.specs.Steps.{AreListed, listed_of};

    ghost Value = { List Table };

    ghost view = { λ it. it.tables.items };

    ghost invariant = { λ it. AreListed (listed_of it.catalogue) it.tables.items };
}

/// The same catalogue once more.
fn share_listed(
    catalogue: &Option<Arc<List<Catalogued>>>,
) -> Result<Option<Arc<List<Catalogued>>>, Memory>
    ensures { IfOk result (λ made. listed_of made ≡ listed_of catalogue.now) }
{
    match catalogue {
        None => Ok(None),
        Some(catalogue) => Ok(Some(Arc::try_clone(catalogue)?)),
    }
}

impl Tables {
    /// No table. It takes no memory.
    pub(crate) fn new(alloc: Global) -> Tables
        ensures { result ≡ [] }
    {
        Tables {
            alloc,
            catalogue: None,
            tables: Vec::new(alloc),
        }
    }

    /// The ids of the tables count from 1.
    pub(crate) fn are_numbered(&self)
        ensures { AreNumbered 1 self.now }
    {
        let _ = &self.tables;
    }

    /// The same tables once more, with no copy of a row or a definition.
    pub(crate) fn share(&self, alloc: Global) -> Result<Tables, Memory>
        ensures { IfOk result (λ made. made ≡ self.now) }
    {
        Ok(Tables {
            alloc,
            catalogue: share_listed(&self.catalogue)?,
            tables: writes::shares(alloc, self.tables.as_slice())?,
        })
    }

    /// The tables as the catalogue has them.
    pub(crate) fn catalogue(&self) -> &[Catalogued]
        ensures { result.now ≡ map catalogued self.now }
    {
        match &self.catalogue {
            None => &[],
            Some(catalogue) => catalogue.as_slice(),
        }
    }

    /// The tables.
    pub(crate) fn as_slice(&self) -> &[Stored]
        ensures { result.now ≡ self.now }
    {
        self.tables.as_slice()
    }

    /// The table of an id, if there is one.
    pub(crate) fn table(&self, id: u32) -> Option<&Stored>
        ensures { option_copied result ≡ table_of self.now id }
    {
        let tables = self.tables.as_slice();
        match writes::place(id, tables.len()) {
            None => None,
            Some(at) => Some(&tables[at]),
        }
    }

    /// Writes rows in their order, or none where memory is wanted.
    pub(crate) fn write(&mut self, writes: List<Write>) -> Result<(), Memory>
        requires { AllByRecursion (IsWriteStorable self.old) writes }
        ensures ok { OnOk result (self.new ≡ fold (λ before write. map (written write) before) self.old writes) }
        ensures err { OnErr result (self.new ≡ self.old) }
    {
        writes::write(self.alloc, &mut self.tables, writes)
    }

    /// Has these tables, whose ids count from 1, in place of its own. Want of memory leaves its own.
    pub(crate) fn replace(&mut self, tables: Vec<Stored>) -> Result<(), Memory>
        requires { AreNumbered 1 tables.items }
        ensures ok { OnOk result (self.new ≡ tables.items) }
        ensures err { OnErr result (self.new ≡ self.old) }
    {
        let catalogue = acts::list(self.alloc, tables.as_slice())?;
        self.catalogue = Some(Arc::new(self.alloc, catalogue)?);
        self.tables = tables;
        Ok(())
    }

    /// Adds a table without rows, untracked. Want of memory leaves the tables as they were.
    pub(crate) fn define(&mut self, schema: Schema) -> Result<(), Memory>
        requires { IsSchemaStorable self.old schema }
        ensures ok { OnOk result (self.new ≡ self.old ++ record { schema = schema; rows = []; tracked = None } ∷ []) }
        ensures err { OnErr result (self.new ≡ self.old) }
    {
        let mut made = writes::shares(self.alloc, self.tables.as_slice())?;
        made.push(Stored::new(self.alloc, schema)?)?;
        self.replace(made)
    }

    /// Removes the rows of a table, which gets this version as its minimum where the entry draws. Want of memory leaves the tables
    /// as they were.
    pub(crate) fn truncate(&mut self, id: u32, version: u64, draws: bool) -> Result<(), Memory>
        ensures ok { OnOk result (self.new ≡ map (truncated id version draws) self.old) }
        ensures err { OnErr result (self.new ≡ self.old) }
    {
        let made = acts::truncate(self.alloc, self.tables.as_slice(), id, version, draws)?;
        self.replace(made)
    }

    /// Tracks a table in another way, or no more. Want of memory leaves the tables as they were.
    pub(crate) fn track(&mut self, id: u32, tracked: Option<Tracked>) -> Result<(), Memory>
        ensures ok { OnOk result (self.new ≡ map (tracked_as id tracked) self.old) }
        ensures err { OnErr result (self.new ≡ self.old) }
    {
        let made = acts::track(self.alloc, self.tables.as_slice(), id, tracked)?;
        self.replace(made)
    }

    /// Gives the listed tables the listed minima. Want of memory leaves the tables as they were.
    pub(crate) fn raise(&mut self, minima: &[Min]) -> Result<(), Memory>
        ensures ok { OnOk result (self.new ≡ fold (λ before listed. map (raised listed) before) self.old minima.now) }
        ensures err { OnErr result (self.new ≡ self.old) }
    {
        let made = acts::raise(self.alloc, self.tables.as_slice(), minima)?;
        self.replace(made)
    }
}
