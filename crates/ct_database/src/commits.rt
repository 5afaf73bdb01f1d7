ghost use Rattle.std.specs.Prelude.{◌≡◌, ℕ, ◌++◌, ◌∷◌, [], true, IfOk, OnOk, OnErr, filter, map};
ghost use Rattle.ct_model.specs.Apply.{trim};
ghost use Rattle.ct_source.specs.Rows.{lent};
ghost use Rattle.ct_database.specs.Commits.{committed};
ghost use Rattle.ct_database.specs.Steps.{AreNewest, AreWithin, newest_of, is_later};
ghost use Rattle.ct_model.specs.Net.{changes_above, last_of, window};
ghost use Rattle.ct_model.specs.Versions.{version_row_of};

use crate::committed::Committed;
use crate::forgotten::forget_chunk;
use crate::last::{last_change, older_last, row_above};
use crate::noted::note_newest;
use crate::older::Older;
use crate::told::told_newest;
use ct_ptree::Tree;
use ct_source::Stored;
use ct_types::{Kept, Key, List, Memory, VersionRow, push};
use std::alloc::Global;
use std::marker::Model;
use std::sync::Arc;

/// The most chunks that are given back where one is made. It is more than one, so that what is not needed goes in the end.
const SWEPT: usize = 2;

/// The commits that are stored, by strictly rising version: those that count, and some that no table needs any more.
///
/// The newest stands beside the older ones until it has to make room for the next: so a commit is added without memory.
#[derive(Drop)]
pub(crate) struct Commits {
    alloc: Global,
    older: Older,
    newest: Option<Arc<Kept>>,
    /// The version of the last change of each key of a table among the older ones, but for keys that the newest changes too. None
    /// until notes are asked for. A note may stay when its commit is removed.
    lasts: Option<Tree<u64>>,
}

impl Model for Commits {
    ghost use Rattle.ct_database.specs.Steps.{StoredCommits, stored, newest_of, AreNewest, MayBeNoted};

    ghost Value = { StoredCommits };

    ghost view = { λ it. stored it.older it.newest };

    ghost invariant = { λ it. AreNewest it.older (newest_of it.newest) × MayBeNoted it.older (newest_of it.newest) it.lasts };
}

/// The same commit once more, if there is one.
fn share_newest(newest: &Option<Arc<Kept>>) -> Result<Option<Arc<Kept>>, Memory>
    ensures { IfOk result (λ made. newest_of made ≡ newest_of newest.now) }
{
    match newest {
        None => Ok(None),
        Some(newest) => Ok(Some(Arc::try_clone(newest)?)),
    }
}

/// The same notes once more, if there are some.
fn share_lasts(lasts: &Option<Tree<u64>>) -> Result<Option<Tree<u64>>, Memory>
    ensures { IfOk result (λ made. made ≡ lasts.now) }
{
    match lasts {
        None => Ok(None),
        Some(lasts) => Ok(Some(lasts.share()?)),
    }
}

/// Lends the newest commit too, if it is above a version.
fn push_since<'a>(
    made: &mut List<&'a Kept>,
    newest: &'a Option<Arc<Kept>>,
    version: u64,
) -> Result<(), Memory>
    ensures { OnOk result (lent made.new ≡ lent made.old ++ filter (is_later version) (newest_of newest.now)) }
{
    if let Some(newest) = newest {
        if version < newest.version {
            push(made, &**newest)?;
        }
    }
    Ok(())
}

impl Commits {
    /// No commit, and no notes. It takes no memory.
    pub(crate) fn new(alloc: Global) -> Commits
        ensures { result ≡ record { commits = []; has_room = true } }
    {
        Commits {
            alloc,
            older: Older::new(alloc),
            newest: None,
            lasts: None,
        }
    }

    /// The same commits and notes once more, with no copy of one. It costs at most a pointer for each commit of a chunk.
    pub(crate) fn share(&self) -> Result<Commits, Memory>
        ensures { IfOk result (λ made. made ≡ self.now) }
    {
        Ok(Commits {
            alloc: self.alloc,
            older: self.older.share()?,
            newest: share_newest(&self.newest)?,
            lasts: share_lasts(&self.lasts)?,
        })
    }

    /// The commits above a version, lent. It costs those above it, and at most a chunk more.
    pub(crate) fn since(&self, version: u64) -> Result<List<&Kept>, Memory>
        ensures { IfOk result (λ made. lent made ≡ filter (is_later version) self.now.commits) }
    {
        let mut made = self.older.since(version)?;
        push_since(&mut made, &self.newest, version)?;
        Ok(made)
    }

    /// Commits above a version, lent, whose changes of a table are those of all of them. It costs those of the chunks that have a
    /// change of the table and end at or above the version, and at most a chunk more.
    pub(crate) fn since_on(&self, table: u32, version: u64) -> Result<List<&Kept>, Memory>
        ensures { IfOk result (λ made. changes_above table version (lent made) ≡ changes_above table version self.now.commits) }
    {
        let mut made = self.older.since_on(table, version)?;
        push_since(&mut made, &self.newest, version)?;
        Ok(made)
    }

    /// The version and the context of the last change of a key among the commits above a version. It is a look-up where notes are
    /// made, and else a walk over those of these commits that stand in chunks with a change of the table. It copies the context.
    pub(crate) fn last(
        &self,
        alloc: Global,
        table: u32,
        floor: u64,
        key: &Key,
    ) -> Result<VersionRow, Memory>
        ensures { IfOk result (λ made. made ≡ version_row_of (last_of (window (changes_above table floor self.now.commits) key.now))) }
    {
        if let Some(newest) = &self.newest {
            if let Some(change) = last_change(table, key, newest.changes.as_slice()) {
                return row_above(alloc, floor, newest.version, change);
            }
        }
        older_last(alloc, &self.older, &self.lasts, table, floor, key)
    }

    /// What is told of the commits that some tracked table needs, in their order. It costs all that are stored.
    pub(crate) fn told(&self, alloc: Global, tables: &[Stored]) -> Result<List<Committed>, Memory>
        ensures { IfOk result (λ made. made ≡ map committed (trim tables.now self.now.commits)) }
    {
        let mut made = self.older.told(alloc, tables)?;
        told_newest(&mut made, tables, &self.newest)?;
        Ok(made)
    }

    /// Notes all that is stored, where nothing is noted yet. From then on each commit is noted.
    pub(crate) fn note_versions(&mut self) -> Result<(), Memory>
        ensures { self.new ≡ self.old }
    {
        if self.lasts.is_none() {
            self.lasts = Some(self.older.notes()?);
        }
        Ok(())
    }

    /// Makes room for one more commit. Where a chunk of the older ones is full, up to two that no tracked table needs are removed
    /// first, so that what is stored stays within what is needed, and a chunk or two.
    pub(crate) fn make_room(&mut self, tables: &[Stored]) -> Result<(), Memory>
        ensures room { OnOk result (self.new.has_room ≡ true) }
        ensures counted { trim tables.now self.new.commits ≡ trim tables.now self.old.commits }
        ensures within { (version : ℕ) → AreWithin version self.old.commits → AreWithin version self.new.commits }
    {
        if self.older.is_full() {
            self.sweep(tables, SWEPT)?;
            self.seal()?;
        }
        self.settle()
    }

    /// Makes a chunk of the older commits that are in none.
    fn seal(&mut self) -> Result<(), Memory>
        ensures { self.new ≡ self.old }
    {
        self.older.seal()
    }

    /// Puts the newest commit to the older ones, if there is one.
    fn settle(&mut self) -> Result<(), Memory>
        ensures room { OnOk result (self.new.has_room ≡ true) }
        ensures same { self.new.commits ≡ self.old.commits }
    {
        if let Some(newest) = &self.newest {
            note_newest(self.alloc, &mut self.lasts, newest)?;
            self.older.push(newest)?;
            self.newest = None;
        }
        Ok(())
    }

    /// Adds a commit above all others, or none. It takes no memory.
    pub(crate) fn push(&mut self, one: Option<Arc<Kept>>)
        requires room { self.old.has_room ≡ true }
        requires above { AreNewest self.old.commits (newest_of one) }
        ensures { self.new.commits ≡ self.old.commits ++ newest_of one }
    {
        self.newest = one;
    }

    /// Removes up to so many of the oldest chunks of which no tracked table needs a commit, and what is noted of them.
    pub(crate) fn sweep(&mut self, tables: &[Stored], most: usize) -> Result<(), Memory>
        ensures counted { trim tables.now self.new.commits ≡ trim tables.now self.old.commits }
        ensures within { (version : ℕ) → AreWithin version self.old.commits → AreWithin version self.new.commits }
    {
        for _ in 0..most {
            if !self.sweep_one(tables)? {
                return Ok(());
            }
        }
        Ok(())
    }

    /// Removes the oldest chunk, if no tracked table needs a commit of it, and tells whether it did.
    fn sweep_one(&mut self, tables: &[Stored]) -> Result<bool, Memory>
        ensures counted { trim tables.now self.new.commits ≡ trim tables.now self.old.commits }
        ensures within { (version : ℕ) → AreWithin version self.old.commits → AreWithin version self.new.commits }
    {
        self.older.rise();
        match self.older.take_unneeded(tables)? {
            None => Ok(false),
            Some(gone) => forget_chunk(self.alloc, &mut self.lasts, &gone).map(|()| true),
        }
    }
}
