ghost use Rattle.std.specs.Prelude.{◌≡◌, ℕ, ◌+◌, ◌≤◌, ◌++◌, ◌∷◌, [], List, length, drop, IfOk};
ghost use Rattle.ct_types.specs.declared.entry.Entry.{Entry};
ghost use Rattle.ct_conflicts.specs.Conflicts.{conflicting};
ghost use Rattle.ct_conflicts.specs.Later.{IsLater};

use crate::acts::stamp_act;
use crate::stamps::{Stamp, TableStamps, altered_after, first_written, shares};
use ct_types::{Entry, Memory, Write};
use std::alloc::Global;
use std::marker::Model;

/// What entries wrote and altered: of each table, and of each key, its last change. Contracts see the tables with their stamps.
///
/// It answers for the views from a count of entries on: from that of the entries that there were when it was made or cleared.
/// What it keeps grows with the keys that were written since, so whoever has no view any more clears it.
#[derive(Drop)]
pub struct Later {
    alloc: Global,
    tables: Vec<TableStamps>,
}

impl Model for Later {
    ghost use Rattle.std.specs.Prelude.{List};
    ghost use Rattle.ct_conflicts.specs.declared.stamps.TableStamps.{TableStamps};

    ghost Value = { List TableStamps };

    ghost view = { λ it. it.tables.items };
}

impl Later {
    /// Nothing was changed. It takes no memory.
    pub fn new(alloc: Global) -> Later
        ensures empty { result ≡ [] }
        ensures later { (past : List Entry) → IsLater result past (length past) }
    {
        Later {
            alloc,
            tables: Vec::new(alloc),
        }
    }

    /// What is kept with an entry more, by its place, counted from 1, behind those that were noted; what was kept stays as it is.
    /// `Memory` is the only error.
    ///
    /// A commit costs a look-up for each of its writes, and a pointer for each table of which a change is kept.
    pub fn noted(&self, at: u64, entry: &Entry) -> Result<Later, Memory>
        ensures { IfOk result (λ made. (past : List Entry) (from : ℕ) → at ≡ length past + 1 → IsLater self.now past from → IsLater made (past ++ entry.now ∷ []) from) }
    {
        let stamp = Stamp {
            at,
            xdes: entry.xdes,
        };
        let mut tables = shares(self.alloc, self.tables.as_slice())?;
        stamp_act(self.alloc, &mut tables, stamp, &entry.act)?;
        Ok(Later {
            alloc: self.alloc,
            tables,
        })
    }

    /// The transaction, by its number, that a statement of a transaction with this view conflicts with: the last one that altered
    /// its table after the view; else, of the first of its writes whose key was written after it, the last one that wrote it. A
    /// statement without a write conflicts with none. It takes no memory, and costs a look-up for each write.
    ///
    /// T-SQL: 3960. That a definition, TRUNCATE, ENABLE or DISABLE counts, and which transaction is named, is this project's own.
    pub fn conflict(&self, view: u64, table: u32, writes: &[Write]) -> Option<u64>
        ensures { (past : List Entry) (from : ℕ) → IsLater self.now past from → from ≤ view → result ≡ conflicting (drop view past) table writes.now }
    {
        if writes.is_empty() {
            return None;
        }
        match altered_after(self.tables.as_slice(), view, table) {
            None => first_written(self.tables.as_slice(), view, writes),
            Some(number) => Some(number),
        }
    }

    /// Forgets all changes: from then on it answers for views that see all entries so far. It takes no memory.
    pub fn clear(&mut self)
        ensures empty { self.new ≡ [] }
        ensures later { (past : List Entry) → IsLater self.new past (length past) }
    {
        self.tables.clear();
    }
}
