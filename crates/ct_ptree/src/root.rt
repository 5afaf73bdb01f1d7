ghost use Rattle.std.specs.Prelude.{◌≡◌, ◌==◌, ◌+◌, ◌<◌, ◌++◌, ◌∷◌, [], IfOk, OnOk, OnErr, length, take, drop, slice_index_or};
ghost use Rattle.std.specs.List.{remove};
ghost use Rattle.std.specs.Option.{IfSome, option_copied};
ghost use Rattle.ct_ptree.specs.Pairs.{Ascends, AreFilled, AllBelow, AllAbove, joined, value_at, with_pair, without, from_key, start_cmp, AreHalves};

use crate::branch::Branch;
use crate::range::Range;
use crate::slot::{Slot, Sought};
use ct_types::Memory;
use std::alloc::Global;
use std::cmp::Ordering;
use std::marker::Model;
use std::sync::Arc;

/// Some branches in rising order of keys, none of them empty.
#[derive(Drop)]
pub(crate) struct Root<V> {
    branches: Arc<Vec<Branch<V>>>,
}

impl<V> Model for Root<V> {
    ghost use Rattle.std.specs.Prelude.{List};
    ghost use Rattle.ct_ptree.specs.declared.pair.Pair.{Pair};
    ghost use Rattle.ct_ptree.specs.Pairs.{joined, AreFilled};

    ghost Value = { List (Pair V) };

    ghost view = { λ it. joined it.branches.value.items };

    ghost invariant = { λ it. AreFilled it.branches.value.items };
}

/// The place of the only branch that may have a key.
fn place<V: Drop>(branches: &[Branch<V>], key: &Sought<'_>) -> usize
    requires filled { AreFilled branches.now }
    requires rising { Ascends (joined branches.now) }
    requires some { 0 < length branches.now }
    ensures within { result < length branches.now }
    ensures low { AllBelow key.now (joined (take result branches.now)) }
    ensures high { AllAbove key.now (joined (drop (result + 1) branches.now)) }
{
    let mut low = 0;
    let mut high = branches.len();
    while low < high {
        let middle = low + (high - low) / 2;
        match branches[middle].start(key) {
            Ordering::Less => low = middle + 1,
            Ordering::Greater => high = middle,
            Ordering::Equal => return middle,
        }
    }
    low.saturating_sub(1)
}

/// Adds shares of branches at the end of a list.
fn push_shares<V: Drop>(made: &mut Vec<Branch<V>>, branches: &[Branch<V>]) -> Result<(), Memory>
    ensures { OnOk result (made.new.items ≡ made.old.items ++ branches.now) }
{
    for branch in branches {
        made.push(branch.share()?)?;
    }
    Ok(())
}

/// A list of shares of branches, with room for one more.
fn shares<V: Drop>(alloc: Global, branches: &[Branch<V>]) -> Result<Vec<Branch<V>>, Memory>
    ensures { IfOk result (λ made. made.items ≡ branches.now) }
{
    let mut made = Vec::with_capacity(alloc, branches.len().saturating_add(1))?;
    push_shares(&mut made, branches)?;
    Ok(made)
}

/// Puts two halves in the place of the branch that they are of.
fn replace<V: Drop>(
    branches: &mut Vec<Branch<V>>,
    at: usize,
    halves: (Branch<V>, Branch<V>),
) -> Result<(), Memory>
    requires filled { AreFilled branches.old.items }
    requires within { at < length branches.old.items }
    requires same { AreHalves (slice_index_or branches.old.items at []) halves.0 halves.1 }
    ensures filled { AreFilled branches.new.items }
    ensures same { joined branches.new.items ≡ joined branches.old.items }
    ensures some { 0 < length branches.new.items }
{
    let (front, back) = halves;
    branches.insert(at, front)?;
    branches[at + 1] = back;
    Ok(())
}

/// The place of the only branch that may have a key, where that branch is halved if it is full.
fn roomy<V: Drop>(
    alloc: Global,
    branches: &mut Vec<Branch<V>>,
    key: &Sought<'_>,
) -> Result<usize, Memory>
    requires filled { AreFilled branches.old.items }
    requires rising { Ascends (joined branches.old.items) }
    requires some { 0 < length branches.old.items }
    ensures filled { AreFilled branches.new.items }
    ensures same { joined branches.new.items ≡ joined branches.old.items }
    ensures within { IfOk result (λ at. at < length branches.new.items) }
    ensures low { IfOk result (λ at. AllBelow key.now (joined (take at branches.new.items))) }
    ensures high { IfOk result (λ at. AllAbove key.now (joined (drop (at + 1) branches.new.items))) }
{
    let at = place(branches.as_slice(), key);
    match branches[at].halves(alloc)? {
        None => Ok(at),
        Some(halves) => {
            replace(branches, at, halves)?;
            Ok(place(branches.as_slice(), key))
        }
    }
}

/// Puts a pair in the place of its key.
fn put_pair<V: Drop>(
    alloc: Global,
    branches: &mut Vec<Branch<V>>,
    pair: Slot<V>,
) -> Result<(), Memory>
    requires filled { AreFilled branches.old.items }
    requires rising { Ascends (joined branches.old.items) }
    requires some { 0 < length branches.old.items }
    ensures filled { AreFilled branches.new.items }
    ensures ok { OnOk result (joined branches.new.items ≡ with_pair (joined branches.old.items) pair) }
    ensures err { OnErr result (joined branches.new.items ≡ joined branches.old.items) }
{
    let at = roomy(alloc, branches, &pair.sought())?;
    branches[at].put(alloc, pair)?;
    Ok(())
}

/// Makes one of a branch and the next, where there is a next and both are small. Want of memory leaves them two.
fn merge<V: Drop>(alloc: Global, branches: &mut Vec<Branch<V>>, at: usize)
    requires filled { AreFilled branches.old.items }
    requires within { at < length branches.old.items }
    ensures filled { AreFilled branches.new.items }
    ensures same { joined branches.new.items ≡ joined branches.old.items }
    ensures within { at < length branches.new.items }
{
    if at + 1 == branches.len() {
        return;
    }
    if let Ok(Some(branch)) = branches[at].merged(alloc, &branches[at + 1]) {
        branches.remove(at);
        branches[at] = branch;
    }
}

/// Takes a branch away where it is empty, and else merges it with those beside it where they are small.
fn tidy<V: Drop>(alloc: Global, branches: &mut Vec<Branch<V>>, at: usize)
    requires within { at < length branches.old.items }
    requires others { AreFilled (remove branches.old.items at) }
    ensures filled { AreFilled branches.new.items }
    ensures same { joined branches.new.items ≡ joined branches.old.items }
{
    if branches[at].is_empty() {
        branches.remove(at);
        return;
    }
    merge(alloc, branches, at);
    merge(alloc, branches, at.saturating_sub(1));
}

/// Takes the pair of a key away, where there is one.
fn take_pair<V: Drop>(
    alloc: Global,
    branches: &mut Vec<Branch<V>>,
    key: &Sought<'_>,
) -> Result<(), Memory>
    requires filled { AreFilled branches.old.items }
    requires rising { Ascends (joined branches.old.items) }
    requires some { 0 < length branches.old.items }
    ensures filled { AreFilled branches.new.items }
    ensures ok { OnOk result (joined branches.new.items ≡ without (joined branches.old.items) key.now) }
    ensures err { OnErr result (joined branches.new.items ≡ joined branches.old.items) }
{
    let at = place(branches.as_slice(), key);
    branches[at].take(alloc, key)?;
    tidy(alloc, branches, at);
    Ok(())
}

impl<V: Drop> Root<V> {
    fn of(alloc: Global, branches: Vec<Branch<V>>) -> Result<Root<V>, Memory>
        requires { AreFilled branches.items }
        ensures { IfOk result (λ made. made ≡ joined branches.items) }
    {
        Ok(Root {
            branches: Arc::new(alloc, branches)?,
        })
    }

    /// A root of one pair.
    pub(crate) fn one(alloc: Global, pair: Slot<V>) -> Result<Root<V>, Memory>
        ensures { IfOk result (λ made. made ≡ pair ∷ []) }
    {
        let mut branches = Vec::new(alloc);
        branches.push(Branch::one(alloc, pair)?)?;
        Root::of(alloc, branches)
    }

    /// The same root once more.
    pub(crate) fn share(&self) -> Result<Root<V>, Memory>
        ensures { IfOk result (λ made. made ≡ self.now) }
    {
        Ok(Root {
            branches: Arc::try_clone(&self.branches)?,
        })
    }

    /// Whether it has no pair.
    pub(crate) fn is_empty(&self) -> bool
        ensures { result ≡ (length self.now == 0) }
    {
        self.branches.as_slice().is_empty()
    }

    /// The branches.
    pub(crate) fn branches(&self) -> &[Branch<V>]
        ensures { joined result.now ≡ self.now }
    {
        self.branches.as_slice()
    }

    /// The pairs from a key on.
    pub(crate) fn range(&self, from: &Sought<'_>) -> Range<'_, V>
        requires rising { Ascends self.now }
        requires some { 0 < length self.now }
        ensures { result ≡ from_key self.now from.now }
    {
        let branches = self.branches.as_slice();
        let at = place(branches, from);
        let branch = &branches[at];
        let (pairs, leaves) = branch.from(from);
        Range::of(pairs, leaves, &branches[at + 1..])
    }

    /// The value of a key.
    pub(crate) fn get(&self, key: &Sought<'_>) -> Option<&V>
        requires rising { Ascends self.now }
        requires some { 0 < length self.now }
        ensures { option_copied result ≡ value_at self.now key.now }
    {
        let branches = self.branches.as_slice();
        let at = place(branches, key);
        let branch = &branches[at];
        branch.get(key)
    }

    /// Puts a pair in the place of its key, in place as far down as nobody else holds what is there.
    pub(crate) fn put(&mut self, alloc: Global, pair: Slot<V>) -> Result<(), Memory>
        requires rising { Ascends self.old }
        requires some { 0 < length self.old }
        ensures ok { OnOk result (self.new ≡ with_pair self.old pair) }
        ensures err { OnErr result (self.new ≡ self.old) }
    {
        match Arc::get_mut(&mut self.branches) {
            Some(branches) => put_pair(alloc, branches, pair),
            None => {
                let mut branches = shares(alloc, self.branches.as_slice())?;
                put_pair(alloc, &mut branches, pair)?;
                self.branches = Arc::new(alloc, branches)?;
                Ok(())
            }
        }
    }

    /// Takes the pair of a key away, in place as far down as nobody else holds what is there.
    pub(crate) fn take(&mut self, alloc: Global, key: &Sought<'_>) -> Result<(), Memory>
        requires rising { Ascends self.old }
        requires some { 0 < length self.old }
        ensures ok { OnOk result (self.new ≡ without self.old key.now) }
        ensures err { OnErr result (self.new ≡ self.old) }
    {
        match Arc::get_mut(&mut self.branches) {
            Some(branches) => take_pair(alloc, branches, key),
            None => {
                let mut branches = shares(alloc, self.branches.as_slice())?;
                take_pair(alloc, &mut branches, key)?;
                self.branches = Arc::new(alloc, branches)?;
                Ok(())
            }
        }
    }
}
