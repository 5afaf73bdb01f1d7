ghost use Rattle.std.specs.Prelude.{◌≡◌, ◌++◌, ◌∷◌, [], IfOk, OnOk, OnErr, filter, map};
ghost use Rattle.std.specs.List.{find};
ghost use Rattle.std.specs.Option.{option_copied};
ghost use Rattle.ct_model.specs.Apply.{trim};
ghost use Rattle.ct_source.specs.Rows.{lent};
ghost use Rattle.ct_database.specs.Commits.{committed, commits_on};
ghost use Rattle.ct_database.specs.Steps.{AreNewest, AreNoted, AreUnneeded, Rise, gone_of, is_later, is_version};

use crate::by_table::later_on;
use crate::chunk::Chunk;
use crate::committed::Committed;
use crate::noted::{note_all, notes_of};
use crate::sealed::{later, older_at, seal, take_unneeded};
use crate::told::{told, told_recent};
use ct_ptree::Tree;
use ct_source::Stored;
use ct_types::{Kept, List, Memory};
use std::alloc::Global;
use std::marker::Model;
use std::sync::Arc;

/// Commits by strictly rising version, which contracts see as their list.
///
/// Those of full chunks stand in a tree, each chunk at the key of its last version; the recent ones, at most a chunk, behind them.
/// So a commit costs a pointer, and one in as many as a chunk has costs a change of the tree, and one of each table that the
/// chunk changes: the chunks with a change of a table stand once more at the id of the table.
#[derive(Drop)]
pub(crate) struct Older {
    alloc: Global,
    sealed: Tree<Arc<Chunk>>,
    by_table: Tree<Tree<Arc<Chunk>>>,
    recent: Chunk,
}

impl Model for Older {
    ghost use Rattle.std.specs.Prelude.{List};
    ghost use Rattle.ct_types.specs.declared.entry.Kept.{Kept};
    ghost use Rattle.ct_database.specs.Steps.{AreAtLasts, AreByTable, Rise, older_of};

    ghost Value = { List Kept };

    ghost view = { λ it. older_of it.sealed it.recent };

    ghost invariant = { λ it. AreAtLasts it.sealed × AreByTable it.sealed it.by_table × Rise (older_of it.sealed it.recent) };
}

impl Older {
    /// No commit. It takes no memory.
    pub(crate) fn new(alloc: Global) -> Older
        ensures { result ≡ [] }
    {
        Older {
            alloc,
            sealed: Tree::new(alloc),
            by_table: Tree::new(alloc),
            recent: Chunk::new(alloc),
        }
    }

    /// The same commits once more, with no copy of one. It costs a pointer for each recent commit, fewer than a chunk has or as
    /// many, whatever the number of commits.
    pub(crate) fn share(&self) -> Result<Older, Memory>
        ensures { IfOk result (λ made. made ≡ self.now) }
    {
        Ok(Older {
            alloc: self.alloc,
            sealed: self.sealed.share()?,
            by_table: self.by_table.share()?,
            recent: self.recent.share(self.alloc)?,
        })
    }

    /// The versions rise strictly.
    pub(crate) fn rise(&self)
        ensures { Rise self.now }
    {
        let _ = &self.sealed;
    }

    /// The commits above a version, lent. It costs those of the chunks that end at or above it.
    pub(crate) fn since(&self, version: u64) -> Result<List<&Kept>, Memory>
        ensures { IfOk result (λ made. lent made ≡ filter (is_later version) self.now) }
    {
        let mut made = later(self.alloc, &self.sealed, version)?;
        self.recent.push_later(&mut made, version)?;
        Ok(made)
    }

    /// Commits above a version, lent: all that have a change of a table, and maybe others. It costs those of the chunks that have
    /// a change of the table and end at or above the version, and at most a chunk more.
    pub(crate) fn since_on(&self, table: u32, version: u64) -> Result<List<&Kept>, Memory>
        ensures { IfOk result (λ made. commits_on table (lent made) ≡ commits_on table (filter (is_later version) self.now)) }
    {
        let mut made = later_on(self.alloc, &self.by_table, table, version)?;
        self.recent.push_later(&mut made, version)?;
        Ok(made)
    }

    /// The commit of a version, if it is there. It is a look-up of a chunk, and a walk over that.
    pub(crate) fn at(&self, version: u64) -> Result<Option<&Kept>, Memory>
        ensures { IfOk result (λ made. option_copied made ≡ find (is_version version) self.now) }
    {
        older_at(self.alloc, &self.sealed, &self.recent, version)
    }

    /// What is told of the commits that some tracked table needs, in their order.
    pub(crate) fn told(&self, alloc: Global, tables: &[Stored]) -> Result<List<Committed>, Memory>
        ensures { IfOk result (λ made. made ≡ map committed (trim tables.now self.now)) }
    {
        let mut made = told(alloc, tables, &self.sealed)?;
        told_recent(&mut made, tables, &self.recent)?;
        Ok(made)
    }

    /// The notes on all of them.
    pub(crate) fn notes(&self) -> Result<Tree<u64>, Memory>
        ensures { IfOk result (λ made. AreNoted self.now [] made) }
    {
        let mut made = notes_of(self.alloc, &self.sealed)?;
        note_all(self.alloc, &mut made, self.recent.pointers())?;
        Ok(made)
    }

    /// Adds a commit above all others. Want of memory leaves them as they were.
    pub(crate) fn push(&mut self, one: &Arc<Kept>) -> Result<(), Memory>
        requires { AreNewest self.old (one.now.value ∷ []) }
        ensures ok { OnOk result (self.new ≡ self.old ++ one.now.value ∷ []) }
        ensures err { OnErr result (self.new ≡ self.old) }
    {
        self.recent.push(Arc::try_clone(one)?)
    }

    /// Whether the recent commits are as many as a chunk is to have.
    pub(crate) fn is_full(&self) -> bool {
        self.recent.is_full()
    }

    /// Makes a chunk of the recent commits.
    pub(crate) fn seal(&mut self) -> Result<(), Memory>
        ensures { self.new ≡ self.old }
    {
        seal(
            self.alloc,
            &mut self.sealed,
            &mut self.by_table,
            &mut self.recent,
        )
    }

    /// Takes the first chunk out, if no tracked table needs a commit of it. Want of memory leaves the commits as they were.
    pub(crate) fn take_unneeded(&mut self, tables: &[Stored]) -> Result<Option<Arc<Chunk>>, Memory>
        ensures parts { IfOk result (λ gone. self.old ≡ gone_of gone ++ self.new) }
        ensures unneeded { IfOk result (λ gone. AreUnneeded tables.now (gone_of gone)) }
        ensures err { OnErr result (self.new ≡ self.old) }
    {
        take_unneeded(self.alloc, &mut self.sealed, &mut self.by_table, tables)
    }
}
