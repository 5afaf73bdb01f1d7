ghost use Rattle.std.specs.Prelude.{◌≡◌, ◌++◌, ◌∷◌, [], IfOk, OnOk, OnErr};
ghost use Rattle.std.specs.Option.{option_copied};
ghost use Rattle.ct_rows.specs.Versions.{row_at, rows_at, written_since, with_version, versions_or_none};
ghost use Rattle.ct_rows.specs.Prunes.{pruned, IsPrunedAt, SeesAlike};

use crate::rows_at::RowsAt;
use crate::version::Version;
use crate::versions::Versions;
use ct_ptree::{Pair, Tree};
use ct_types::{Copies, Key, List, Memory, Row, push};
use std::alloc::Global;
use std::marker::Model;

/// The rows of a table with their versions, which contracts see as the list of the keys in rising order, each with its
/// versions, the oldest first.
///
/// A commit of several tables puts its versions into shares of their rows, and then puts the shares in the place of the
/// rows, which takes no memory: so it changes all of its tables or none.
#[derive(Drop)]
pub struct Rows {
    alloc: Global,
    tree: Tree<Versions>,
}

impl Model for Rows {
    ghost use Rattle.std.specs.Prelude.{List};
    ghost use Rattle.ct_ptree.specs.declared.pair.Pair.{Pair};
    ghost use Rattle.ct_rows.specs.declared.version.Version.{Version};

    ghost Value = { List (Pair (List Version)) };

    ghost view = { λ it. it.tree };
}

/// The versions of a key, if it has some, and a later one.
fn grown(alloc: Global, old: Option<&Versions>, version: Version) -> Result<Versions, Memory>
    ensures { IfOk result (λ made. made ≡ versions_or_none (option_copied old.entry) ++ version ∷ []) }
{
    match old {
        None => Versions::one(alloc, version),
        Some(old) => old.with(alloc, version),
    }
}

/// Takes away the versions of a key that no view from a least one on needs.
fn prune_key(
    alloc: Global,
    made: &mut Tree<Versions>,
    pair: &Pair<Versions>,
    least: u64,
) -> Result<(), Memory>
    ensures { OnOk result (IsPrunedAt made.new made.old pair.now least) }
{
    let outdated = pair.value.outdated(least);
    if outdated == pair.value.len() {
        made.take(&pair.key)?;
    } else if outdated > 0 {
        made.put(pair.key.copy(alloc)?, pair.value.from(alloc, outdated)?)?;
    }
    Ok(())
}

impl Rows {
    /// No row and no version. It takes no memory.
    pub fn new(alloc: Global) -> Rows
        ensures { result ≡ [] }
    {
        Rows {
            alloc,
            tree: Tree::new(alloc),
        }
    }

    /// The row of a key at a view, None where the view sees none.
    pub fn at(&self, view: u64, key: &Key) -> Option<&Row>
        ensures { option_copied result ≡ row_at self.now view key.now }
    {
        match self.tree.get(key) {
            None => None,
            Some(versions) => versions.row_seen(view),
        }
    }

    /// The rows at a view, in rising order of keys. They are lent, with no copy.
    pub fn rows(&self, view: u64) -> RowsAt<'_>
        ensures { result ≡ rows_at self.now view }
    {
        RowsAt::of(self.tree.pairs(), view)
    }

    /// Copies of the rows at a view, in rising order of keys.
    pub fn scan(&self, view: u64) -> Result<List<Row>, Memory>
        ensures { IfOk result (λ made. made ≡ rows_at self.now view) }
    {
        let mut made = List::new(self.alloc);
        for row in self.rows(view) {
            push(&mut made, row.copy(self.alloc)?)?;
        }
        Ok(made)
    }

    /// The transaction of the last write of a key, where that write is after a view.
    pub fn written_after(&self, view: u64, key: &Key) -> Option<u64>
        ensures { result ≡ written_since self.now view key.now }
    {
        match self.tree.get(key) {
            None => None,
            Some(versions) => versions.written_later(view),
        }
    }

    /// Adds a version of a key behind those that it has; a row of None is a deletion. Memory leaves the rows as they were.
    pub fn put(&mut self, at: u64, xdes: u64, key: Key, row: Option<Row>) -> Result<(), Memory>
        ensures ok { OnOk result (self.new ≡ with_version self.old key (record { at = at; xdes = xdes; row = row })) }
        ensures err { OnErr result (self.new ≡ self.old) }
    {
        let versions = grown(self.alloc, self.tree.get(&key), Version { at, xdes, row })?;
        self.tree.put(key, versions)
    }

    /// Takes away the versions that no view from a least one on needs: the answers for these views stay the same. Memory
    /// leaves the rows as they were.
    pub fn prune(&mut self, least: u64) -> Result<(), Memory>
        ensures ok { OnOk result (self.new ≡ pruned self.old least) }
        ensures err { OnErr result (self.new ≡ self.old) }
        ensures alike { SeesAlike self.new self.old least }
    {
        let mut made = self.tree.share()?;
        for pair in self.tree.pairs() {
            prune_key(self.alloc, &mut made, pair, least)?;
        }
        self.tree = made;
        Ok(())
    }

    /// The same rows once more, with no copy of a version. It takes the same time whatever the size.
    pub fn share(&self) -> Result<Rows, Memory>
        ensures { IfOk result (λ made. made ≡ self.now) }
    {
        Ok(Rows {
            alloc: self.alloc,
            tree: self.tree.share()?,
        })
    }
}
