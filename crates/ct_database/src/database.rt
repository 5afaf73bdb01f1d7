ghost use Rattle.std.specs.Prelude.{◌≡◌, IfOk, OnOk, OnErr, map};
ghost use Rattle.std.specs.Option.{option_copied};
ghost use Rattle.ct_model.specs.Apply.{apply as applied, no_db};
ghost use Rattle.ct_model.specs.Net.{net as net_changes};
ghost use Rattle.ct_model.specs.Tables.{catalogued, table_of};
ghost use Rattle.ct_model.specs.Valid.{IsValid};
ghost use Rattle.ct_model.specs.Versions.{row_version as row_version_of};
ghost use Rattle.ct_database.specs.Commits.{committed};
ghost use Rattle.ct_database.specs.Storable.{IsStorable};

use crate::changing::{act_on, keep_of};
use crate::commits::Commits;
use crate::committed::Committed;
use crate::fresh::commit_of;
use crate::last::last_counted;
use crate::net::net_since;
use crate::plain::{commits_of, plain_commits, plain_tables, tables_of};
use crate::tables::Tables;
use ct_model::Db;
use ct_source::Stored;
use ct_types::{Catalogued, Entry, Keep, Key, List, Memory, NetRow, VersionRow};
use std::alloc::Global;
use std::marker::Model;

/// The database in memory, which contracts see as the plain database.
///
/// Commits stand in chunks of 64. A commit that no tracked table needs any more stays stored until its whole chunk goes: a later
/// [`Database::apply`] or [`Database::sweep`] removes it. So do changes of a table up to its minimum, or of one that is tracked no
/// more, while another table needs a commit of their chunk. They do not count: no call shows them.
#[derive(Drop)]
pub struct Database {
    pub(crate) alloc: Global,
    version: u64,
    time: u64,
    last_xdes: u64,
    keep: Option<Keep>,
    pub(crate) tables: Tables,
    kept: Commits,
}

impl Model for Database {
    ghost use Rattle.ct_model.specs.declared.db.Db.{Db};
    ghost use Rattle.ct_model.specs.Apply.{trim};
    ghost use Rattle.ct_database.specs.Steps.{AreWithin};

    ghost Value = { Db };

    ghost view = { λ it. record { version = it.version; time = it.time; last_xdes = it.last_xdes; keep = it.keep; tables = it.tables; kept = trim it.tables it.kept.commits } };

    ghost invariant = { λ it. AreWithin it.version it.kept.commits };
}

impl Database {
    /// The empty database: version, time and transactions at 0, tracking off, no table. It takes no memory.
    pub fn empty(alloc: Global) -> Database
        ensures { result ≡ no_db }
    {
        Database {
            alloc,
            version: 0,
            time: 0,
            last_xdes: 0,
            keep: None,
            tables: Tables::new(alloc),
            kept: Commits::new(alloc),
        }
    }

    /// The database of a plain one, as a checkpoint gives it. It takes a logarithm of a table's rows for each row, and a step for each
    /// commit; nothing of the plain one is copied but the keys of its rows. `Memory` is the only error.
    pub fn of(alloc: Global, db: Db) -> Result<Database, Memory>
        requires { IsValid db }
        ensures { IfOk result (λ made. made ≡ db) }
    {
        let Db {
            version,
            time,
            last_xdes,
            keep,
            tables,
            kept,
        } = db;
        let tables = tables_of(alloc, tables)?;
        let kept = commits_of(alloc, tables.as_slice(), kept)?;
        Ok(Database {
            alloc,
            version,
            time,
            last_xdes,
            keep,
            tables,
            kept,
        })
    }

    /// The plain database, with a copy of each row and of each commit that counts. It costs all that is stored. `Memory` is the only
    /// error.
    pub fn to_db(&self, alloc: Global) -> Result<Db, Memory>
        ensures { IfOk result (λ made. made ≡ self.now) }
    {
        let tables = self.tables.as_slice();
        Ok(Db {
            version: self.version,
            time: self.time,
            last_xdes: self.last_xdes,
            keep: self.keep,
            tables: plain_tables(alloc, tables)?,
            kept: plain_commits(alloc, tables, &self.kept)?,
        })
    }

    /// The version of the last committed transaction that drew one; 0 at first.
    pub fn version(&self) -> u64
        ensures { result ≡ self.now.version }
    {
        self.version
    }

    /// The time of the last entry, in seconds.
    pub fn time(&self) -> u64
        ensures { result ≡ self.now.time }
    {
        self.time
    }

    /// The greatest number of a transaction.
    pub fn last_xdes(&self) -> u64
        ensures { result ≡ self.now.last_xdes }
    {
        self.last_xdes
    }

    /// The settings of tracking, or none where it is off.
    pub fn keep(&self) -> Option<Keep>
        ensures { result ≡ self.now.keep }
    {
        self.keep
    }

    /// The tables by id, as the catalogue has them.
    pub fn catalogue(&self) -> &[Catalogued]
        ensures { result.now ≡ map catalogued self.now.tables }
    {
        self.tables.catalogue()
    }

    /// The table of an id, if there is one.
    pub fn table(&self, id: u32) -> Option<&Stored>
        ensures { option_copied result ≡ table_of self.now.tables id }
    {
        self.tables.table(id)
    }

    /// The net changes of a table above a version: one row for each key that changed, in key order. None names the table's
    /// minimum, and so does a version below it. A table that is not tracked, or is none, has no net changes.
    ///
    /// It costs the changes of the commits above the version, at most a chunk of commits more, and not all that is kept.
    #[tactic(auto, unfolding(ct_model::specs::Net::net))]
    pub fn net(&self, alloc: Global, table: u32, since: Option<i64>) -> Result<List<NetRow>, Memory>
        ensures { IfOk result (λ made. made ≡ net_changes self.now table since) }
    {
        self.tables.are_numbered();
        net_since(alloc, self.tables.table(table), &self.kept, since)
    }

    /// The version, transaction number and time of each commit whose changes are kept, by rising version. It costs all commits that
    /// are stored.
    pub fn kept(&self, alloc: Global) -> Result<List<Committed>, Memory>
        ensures { IfOk result (λ made. made ≡ map committed self.now.kept) }
    {
        self.kept.told(alloc, self.tables.as_slice())
    }

    /// The version and the context of the last kept change of a key, or none of both.
    ///
    /// It is a walk over the commits above the table's minimum until [`Database::note_versions`] was called. From then on it is a
    /// look-up of what is noted of the key, one of the commit with that version, and a walk over that commit's changes. It copies the
    /// key and the context, which takes memory.
    pub fn row_version(&self, alloc: Global, table: u32, key: &Key) -> Result<VersionRow, Memory>
        ensures { IfOk result (λ made. made ≡ row_version_of self.now table key.now) }
    {
        self.tables.are_numbered();
        last_counted(alloc, self.tables.table(table), &self.kept, key)
    }

    /// The same database once more, with no copy of a row or a commit: its cost grows with the number of tables alone, beside at
    /// most 64 pointers to commits. Either is then changed without the other, and a change copies what it touches and the other holds
    /// too: a leaf, a branch and a root. A share has the notes that the database has.
    pub fn share(&self, alloc: Global) -> Result<Database, Memory>
        ensures { IfOk result (λ made. made ≡ self.now) }
    {
        Ok(Database {
            alloc,
            version: self.version,
            time: self.time,
            last_xdes: self.last_xdes,
            keep: self.keep,
            tables: self.tables.share(alloc)?,
            kept: self.kept.share()?,
        })
    }

    /// From now on the last version of each key is noted, so that [`Database::row_version`] is a look-up. The first call costs the
    /// stored commits, each later one nothing. The database stays the same, also where memory is wanted: then nothing is noted yet.
    pub fn note_versions(&mut self) -> Result<(), Memory>
        ensures { self.new ≡ self.old }
    {
        self.kept.note_versions()
    }

    /// Gives back the memory of up to so many of the oldest chunks of 64 commits of which no tracked table needs one, and of what is
    /// noted of them. The database stays the same, also where memory is wanted: the removal of what a share holds too copies its path.
    pub fn sweep(&mut self, most: usize) -> Result<(), Memory>
        ensures { self.new ≡ self.old }
    {
        self.kept.sweep(self.tables.as_slice(), most)
    }

    /// Makes of the database what one committed entry makes of it, in place, at the cost of what the entry touches.
    ///
    /// No act itself removes a commit, also where it raises minima or tracks a table no more. But each entry that finds 64 commits
    /// since the last chunk makes a chunk of them, and first removes up to two of the oldest chunks that no table needs: so what is
    /// stored stays near what is needed. Want of memory leaves the database as it was.
    #[tactic(auto, unfolding(ct_model::specs::Apply::apply))]
    pub fn apply(&mut self, entry: Entry) -> Result<(), Memory>
        requires { IsStorable self.old entry }
        ensures ok { OnOk result (self.new ≡ applied self.old entry) }
        ensures err { OnErr result (self.new ≡ self.old) }
    {
        self.tables.are_numbered();
        let fresh = commit_of(self.alloc, &entry)?;
        let keep = keep_of(&entry.act, self.keep);
        self.kept.make_room(self.tables.as_slice())?;
        let Entry {
            version,
            draws,
            xdes,
            time,
            act,
        } = entry;
        act_on(&mut self.tables, &mut self.kept, fresh, act, version, draws)?;
        self.version = version;
        self.time = time;
        self.last_xdes = self.last_xdes.max(xdes);
        self.keep = keep;
        Ok(())
    }
}
