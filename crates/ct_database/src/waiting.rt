ghost use Rattle.std.specs.Prelude.{◌≡◌, false, IfOk, OnOk, OnErr};
ghost use Rattle.std.specs.List.{AllByRecursion};
ghost use Rattle.ct_types.specs.declared.entry.Act.TheVariants.{Commit};
ghost use Rattle.ct_model.specs.Apply.{tables_after};
ghost use Rattle.ct_database.specs.Storable.{IsWriteStorable};

use crate::database::Database;
use ct_types::{Copies, List, Memory, Write};
use std::alloc::Global;

/// The same writes once more.
fn copied(alloc: Global, writes: &[Write]) -> Result<List<Write>, Memory>
    ensures { IfOk result (λ made. made ≡ writes.now) }
{
    let mut made = Vec::with_capacity(alloc, writes.len())?;
    for write in writes {
        made.push(write.copy(alloc)?)?;
    }
    Ok(List::from_vec(made))
}

impl Database {
    /// Puts the rows of writes into their tables, in their order, and changes nothing else: no version, no time, and nothing of
    /// tracking. So a share of a database becomes what a transaction sees with its own writes. `Memory` is the only error, and the
    /// database is then as before.
    ///
    /// It copies the writes, and costs a look-up for each. The caller knows that their rows can be stored.
    pub fn put_rows(&mut self, writes: &[Write]) -> Result<(), Memory>
        requires { AllByRecursion (IsWriteStorable self.old.tables) writes.now }
        ensures ok { OnOk result (self.new ≡ record self.old { tables = tables_after (Commit writes.now) self.old.version false self.old.tables }) }
        ensures err { OnErr result (self.new ≡ self.old) }
    {
        let writes = copied(self.alloc, writes)?;
        self.tables.write(writes)
    }
}
