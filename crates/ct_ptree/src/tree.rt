ghost use Rattle.std.specs.Prelude.{◌≡◌, [], IfOk, OnOk, OnErr};
ghost use Rattle.std.specs.Option.{option_copied};
ghost use Rattle.ct_ptree.specs.Pairs.{Ascends, IsFilled, content, value_at, set_pair, with_pair, without, from_key};

use crate::pair::Pair;
use crate::range::Range;
use crate::root::Root;
use crate::slot::{Slot, Sought};
use ct_types::{Key, Memory};
use std::alloc::Global;
use std::marker::Model;
use std::sync::Arc;

/// An ordered map from keys to values, which contracts see as the list of its pairs in rising order of keys.
///
/// It has three levels: a root of branches, branches of leaves, leaves of pairs. A leaf has at most 128 pairs and a branch
/// at most 128 leaves, but for the root there is no most; small leaves and branches are merged. Each list of a level, and
/// each pair, stands behind a counted pointer, and several trees may hold it. Beside each leaf's and each branch's list is a
/// pointer to a pair of its first key, so that a search in the level above compares with that key and reads no list below.
/// It may be an earlier pair of that key, whose value is then kept until another pair stands there.
/// Beside each pointer to a pair is the number that its key begins with, and a search reads a pair only where numbers do not
/// decide.
#[derive(Drop)]
pub struct Tree<V> {
    alloc: Global,
    root: Option<Root<V>>,
}

impl<V> Model for Tree<V> {
    ghost use Rattle.std.specs.Prelude.{List};
    ghost use Rattle.ct_ptree.specs.declared.pair.Pair.{Pair};
    ghost use Rattle.ct_ptree.specs.Pairs.{content, IsFilled, Ascends};

    ghost Value = { List (Pair V) };

    ghost view = { λ it. content it.root };

    ghost invariant = { λ it. Ascends (content it.root) × IsFilled it.root };
}

/// Puts a pair in the place of its key, into a root or none.
fn root_put<V: Drop>(alloc: Global, root: &mut Option<Root<V>>, pair: Slot<V>) -> Result<(), Memory>
    requires rising { Ascends (content root.old) }
    requires filled { IsFilled root.old }
    ensures ok { OnOk result (content root.new ≡ with_pair (content root.old) pair) }
    ensures err { OnErr result (content root.new ≡ content root.old) }
    ensures filled { IsFilled root.new }
{
    match root {
        None => {
            *root = Some(Root::one(alloc, pair)?);
            Ok(())
        }
        Some(root) => root.put(alloc, pair),
    }
}

/// Takes the pair of a key away, and a root that has none left.
fn root_take<V: Drop>(
    alloc: Global,
    root: &mut Option<Root<V>>,
    key: &Sought<'_>,
) -> Result<(), Memory>
    requires rising { Ascends (content root.old) }
    requires filled { IsFilled root.old }
    ensures ok { OnOk result (content root.new ≡ without (content root.old) key.now) }
    ensures err { OnErr result (content root.new ≡ content root.old) }
    ensures filled { IsFilled root.new }
{
    match root {
        None => Ok(()),
        Some(some) => {
            some.take(alloc, key)?;
            if some.is_empty() {
                *root = None;
            }
            Ok(())
        }
    }
}

impl<V: Drop> Tree<V> {
    /// The empty tree. It takes no memory.
    pub fn new(alloc: Global) -> Tree<V>
        ensures { result ≡ [] }
    {
        Tree { alloc, root: None }
    }

    /// The value of a key, None where it has none.
    pub fn get(&self, key: &Key) -> Option<&V>
        ensures { option_copied result ≡ value_at self.now key.now }
    {
        match &self.root {
            None => None,
            Some(root) => root.get(&Sought::of(key)),
        }
    }

    /// All pairs, in rising order of keys.
    pub fn pairs(&self) -> Range<'_, V>
        ensures all { result ≡ self.now }
        ensures rising { Ascends self.now }
    {
        match &self.root {
            None => Range::of(&[], &[], &[]),
            Some(root) => Range::of(&[], &[], root.branches()),
        }
    }

    /// The pairs from a key on, in rising order of keys.
    pub fn range(&self, from: &Key) -> Range<'_, V>
        ensures { result ≡ from_key self.now from.now }
    {
        match &self.root {
            None => Range::of(&[], &[], &[]),
            Some(root) => root.range(&Sought::of(from)),
        }
    }

    /// The same tree once more, with no copy of a pair. It takes the same time whatever the size.
    pub fn share(&self) -> Result<Tree<V>, Memory>
        ensures { IfOk result (λ made. made ≡ self.now) }
    {
        match &self.root {
            None => Ok(Tree {
                alloc: self.alloc,
                root: None,
            }),
            Some(root) => Ok(Tree {
                alloc: self.alloc,
                root: Some(root.share()?),
            }),
        }
    }

    /// The tree with this value at a key, in place of the value that the key had. This tree stays as it is.
    pub fn insert(&self, key: Key, value: V) -> Result<Tree<V>, Memory>
        ensures { IfOk result (λ made. made ≡ set_pair self.now key value) }
    {
        let mut made = self.share()?;
        made.put(key, value)?;
        Ok(made)
    }

    /// The tree without this key. This tree stays as it is.
    pub fn remove(&self, key: &Key) -> Result<Tree<V>, Memory>
        ensures { IfOk result (λ made. made ≡ without self.now key.now) }
    {
        let mut made = self.share()?;
        made.take(key)?;
        Ok(made)
    }

    /// Sets the value of a key, in place of the value that the key had. What no other tree holds is changed in place, and
    /// the rest is copied first. Memory leaves the tree as it was.
    pub fn put(&mut self, key: Key, value: V) -> Result<(), Memory>
        ensures ok { OnOk result (self.new ≡ set_pair self.old key value) }
        ensures err { OnErr result (self.new ≡ self.old) }
    {
        let pair = Arc::new(self.alloc, Pair { key, value })?;
        root_put(self.alloc, &mut self.root, Slot::of(pair))
    }

    /// Takes a key away with its value, where it has one. What no other tree holds is changed in place, and the rest is
    /// copied first. Memory leaves the tree as it was.
    pub fn take(&mut self, key: &Key) -> Result<(), Memory>
        ensures ok { OnOk result (self.new ≡ without self.old key.now) }
        ensures err { OnErr result (self.new ≡ self.old) }
    {
        root_take(self.alloc, &mut self.root, &Sought::of(key))
    }
}
