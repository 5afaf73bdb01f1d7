ghost use Rattle.std.specs.Prelude.{◌≡◌, ◌==◌, ◌+◌, ◌<◌, ◌++◌, ◌∷◌, [], IfOk, OnOk, OnErr, length, take, drop, slice_index_or};
ghost use Rattle.std.specs.List.{remove};
ghost use Rattle.std.specs.Option.{IfSome, option_copied};
ghost use Rattle.ct_ptree.specs.Pairs.{Ascends, AreFilled, AllBelow, AllAbove, joined, value_at, with_pair, without, from_key, start_cmp, BeginsAt, AreHalves};

use crate::leaf::Leaf;
use crate::slot::{Slot, Sought};
use ct_types::Memory;
use std::alloc::Global;
use std::cmp::Ordering;
use std::marker::Model;
use std::sync::Arc;

/// The most leaves of a branch that is not to be halved.
const MOST: usize = 127;

/// The most leaves of two branches that become one.
const FEW: usize = 64;

/// Some leaves in rising order of keys, none of them empty, and beside them a pair of the first one's key: a search among
/// branches reads no list.
#[derive(Drop)]
pub(crate) struct Branch<V> {
    first: Slot<V>,
    leaves: Arc<Vec<Leaf<V>>>,
}

impl<V> Model for Branch<V> {
    ghost use Rattle.std.specs.Prelude.{List};
    ghost use Rattle.ct_ptree.specs.declared.pair.Pair.{Pair};
    ghost use Rattle.ct_ptree.specs.Pairs.{joined, AreFilled, BeginsAt};

    ghost Value = { List (Pair V) };

    ghost view = { λ it. joined it.leaves.value.items };

    ghost invariant = { λ it. AreFilled it.leaves.value.items × BeginsAt it.first.key (joined it.leaves.value.items) };
}

/// The place of the only leaf that may have a key.
fn place<V: Drop>(leaves: &[Leaf<V>], key: &Sought<'_>) -> usize
    requires filled { AreFilled leaves.now }
    requires rising { Ascends (joined leaves.now) }
    requires some { 0 < length leaves.now }
    ensures within { result < length leaves.now }
    ensures low { AllBelow key.now (joined (take result leaves.now)) }
    ensures high { AllAbove key.now (joined (drop (result + 1) leaves.now)) }
{
    let mut low = 0;
    let mut high = leaves.len();
    while low < high {
        let middle = low + (high - low) / 2;
        match leaves[middle].start(key) {
            Ordering::Less => low = middle + 1,
            Ordering::Greater => high = middle,
            Ordering::Equal => return middle,
        }
    }
    low.saturating_sub(1)
}

/// Adds shares of leaves at the end of a list.
fn push_shares<V: Drop>(made: &mut Vec<Leaf<V>>, leaves: &[Leaf<V>]) -> Result<(), Memory>
    ensures { OnOk result (made.new.items ≡ made.old.items ++ leaves.now) }
{
    for leaf in leaves {
        made.push(leaf.share()?)?;
    }
    Ok(())
}

/// A list of shares of leaves, with room for the most that there may be.
fn shares<V: Drop>(alloc: Global, leaves: &[Leaf<V>]) -> Result<Vec<Leaf<V>>, Memory>
    ensures { IfOk result (λ made. made.items ≡ leaves.now) }
{
    let mut made = Vec::with_capacity(alloc, MOST + 1)?;
    push_shares(&mut made, leaves)?;
    Ok(made)
}

/// Puts two halves in the place of the leaf that they are of.
fn replace<V: Drop>(
    leaves: &mut Vec<Leaf<V>>,
    at: usize,
    halves: (Leaf<V>, Leaf<V>),
) -> Result<(), Memory>
    requires filled { AreFilled leaves.old.items }
    requires within { at < length leaves.old.items }
    requires same { AreHalves (slice_index_or leaves.old.items at []) halves.0 halves.1 }
    ensures filled { AreFilled leaves.new.items }
    ensures same { joined leaves.new.items ≡ joined leaves.old.items }
    ensures some { 0 < length leaves.new.items }
{
    let (front, back) = halves;
    leaves.insert(at, front)?;
    leaves[at + 1] = back;
    Ok(())
}

/// The place of the only leaf that may have a key, where that leaf is halved if it is full.
fn roomy<V: Drop>(
    alloc: Global,
    leaves: &mut Vec<Leaf<V>>,
    key: &Sought<'_>,
) -> Result<usize, Memory>
    requires filled { AreFilled leaves.old.items }
    requires rising { Ascends (joined leaves.old.items) }
    requires some { 0 < length leaves.old.items }
    ensures filled { AreFilled leaves.new.items }
    ensures same { joined leaves.new.items ≡ joined leaves.old.items }
    ensures within { IfOk result (λ at. at < length leaves.new.items) }
    ensures low { IfOk result (λ at. AllBelow key.now (joined (take at leaves.new.items))) }
    ensures high { IfOk result (λ at. AllAbove key.now (joined (drop (at + 1) leaves.new.items))) }
{
    let at = place(leaves.as_slice(), key);
    match leaves[at].halves(alloc)? {
        None => Ok(at),
        Some(halves) => {
            replace(leaves, at, halves)?;
            Ok(place(leaves.as_slice(), key))
        }
    }
}

/// Puts a pair in the place of its key.
fn put_pair<V: Drop>(alloc: Global, leaves: &mut Vec<Leaf<V>>, pair: Slot<V>) -> Result<(), Memory>
    requires filled { AreFilled leaves.old.items }
    requires rising { Ascends (joined leaves.old.items) }
    requires some { 0 < length leaves.old.items }
    ensures filled { AreFilled leaves.new.items }
    ensures ok { OnOk result (joined leaves.new.items ≡ with_pair (joined leaves.old.items) pair) }
    ensures err { OnErr result (joined leaves.new.items ≡ joined leaves.old.items) }
{
    let at = roomy(alloc, leaves, &pair.sought())?;
    leaves[at].put(alloc, pair)?;
    Ok(())
}

/// Makes one of a leaf and the next, where there is a next and both are small. Want of memory leaves them two.
fn merge<V: Drop>(alloc: Global, leaves: &mut Vec<Leaf<V>>, at: usize)
    requires filled { AreFilled leaves.old.items }
    requires within { at < length leaves.old.items }
    ensures filled { AreFilled leaves.new.items }
    ensures same { joined leaves.new.items ≡ joined leaves.old.items }
    ensures within { at < length leaves.new.items }
{
    if at + 1 == leaves.len() {
        return;
    }
    if let Ok(Some(leaf)) = leaves[at].merged(alloc, &leaves[at + 1]) {
        leaves.remove(at);
        leaves[at] = leaf;
    }
}

/// Takes a leaf away where it is empty, and else merges it with those beside it where they are small.
fn tidy<V: Drop>(alloc: Global, leaves: &mut Vec<Leaf<V>>, at: usize)
    requires within { at < length leaves.old.items }
    requires others { AreFilled (remove leaves.old.items at) }
    ensures filled { AreFilled leaves.new.items }
    ensures same { joined leaves.new.items ≡ joined leaves.old.items }
{
    if leaves[at].is_empty() {
        leaves.remove(at);
        return;
    }
    merge(alloc, leaves, at);
    merge(alloc, leaves, at.saturating_sub(1));
}

/// Takes the pair of a key away, where there is one.
fn take_pair<V: Drop>(
    alloc: Global,
    leaves: &mut Vec<Leaf<V>>,
    key: &Sought<'_>,
) -> Result<(), Memory>
    requires filled { AreFilled leaves.old.items }
    requires rising { Ascends (joined leaves.old.items) }
    requires some { 0 < length leaves.old.items }
    ensures filled { AreFilled leaves.new.items }
    ensures ok { OnOk result (joined leaves.new.items ≡ without (joined leaves.old.items) key.now) }
    ensures err { OnErr result (joined leaves.new.items ≡ joined leaves.old.items) }
{
    let at = place(leaves.as_slice(), key);
    leaves[at].take(alloc, key)?;
    tidy(alloc, leaves, at);
    Ok(())
}

/// Puts a pair in the place of its key, in place as far down as nobody else holds what is there.
fn put_shared<V: Drop>(
    alloc: Global,
    leaves: &mut Arc<Vec<Leaf<V>>>,
    pair: Slot<V>,
) -> Result<(), Memory>
    requires filled { AreFilled leaves.old.value.items }
    requires rising { Ascends (joined leaves.old.value.items) }
    requires some { 0 < length leaves.old.value.items }
    ensures filled { AreFilled leaves.new.value.items }
    ensures ok { OnOk result (joined leaves.new.value.items ≡ with_pair (joined leaves.old.value.items) pair) }
    ensures err { OnErr result (joined leaves.new.value.items ≡ joined leaves.old.value.items) }
{
    match Arc::get_mut(leaves) {
        Some(own) => put_pair(alloc, own, pair),
        None => {
            let mut made = shares(alloc, leaves.as_slice())?;
            put_pair(alloc, &mut made, pair)?;
            *leaves = Arc::new(alloc, made)?;
            Ok(())
        }
    }
}

/// Takes the pair of a key away, in place as far down as nobody else holds what is there.
fn take_shared<V: Drop>(
    alloc: Global,
    leaves: &mut Arc<Vec<Leaf<V>>>,
    key: &Sought<'_>,
) -> Result<(), Memory>
    requires filled { AreFilled leaves.old.value.items }
    requires rising { Ascends (joined leaves.old.value.items) }
    requires some { 0 < length leaves.old.value.items }
    ensures filled { AreFilled leaves.new.value.items }
    ensures ok { OnOk result (joined leaves.new.value.items ≡ without (joined leaves.old.value.items) key.now) }
    ensures err { OnErr result (joined leaves.new.value.items ≡ joined leaves.old.value.items) }
{
    match Arc::get_mut(leaves) {
        Some(own) => take_pair(alloc, own, key),
        None => {
            let mut made = shares(alloc, leaves.as_slice())?;
            take_pair(alloc, &mut made, key)?;
            *leaves = Arc::new(alloc, made)?;
            Ok(())
        }
    }
}

/// A pair of the second one's key, where there are two.
#[tactic(auto, using(crate::proofs::Firsts::level_next))]
fn second<V: Drop>(leaves: &[Leaf<V>]) -> Result<Slot<V>, Memory>
    requires filled { AreFilled leaves.now }
    requires some { 0 < length leaves.now }
    ensures { IfOk result (λ made. BeginsAt made.key (drop 1 (joined leaves.now))) }
{
    let leaf = &leaves[0];
    if !leaf.is_single() {
        return leaf.second();
    }
    match leaves.get(1) {
        None => leaf.first(),
        Some(next) => Ok(next.first()?),
    }
}

impl<V: Drop> Branch<V> {
    fn of(alloc: Global, leaves: Vec<Leaf<V>>) -> Result<Branch<V>, Memory>
        requires filled { AreFilled leaves.items }
        requires some { 0 < length leaves.items }
        ensures { IfOk result (λ made. made ≡ joined leaves.items) }
    {
        Ok(Branch {
            first: leaves[0].first()?,
            leaves: Arc::new(alloc, leaves)?,
        })
    }

    /// A branch of one pair.
    pub(crate) fn one(alloc: Global, pair: Slot<V>) -> Result<Branch<V>, Memory>
        ensures { IfOk result (λ made. made ≡ pair ∷ []) }
    {
        let mut leaves = Vec::new(alloc);
        leaves.push(Leaf::one(alloc, pair)?)?;
        Branch::of(alloc, leaves)
    }

    /// The same branch once more.
    pub(crate) fn share(&self) -> Result<Branch<V>, Memory>
        ensures { IfOk result (λ made. made ≡ self.now) }
    {
        Ok(Branch {
            first: self.first.share()?,
            leaves: Arc::try_clone(&self.leaves)?,
        })
    }

    /// Whether it has no pair.
    pub(crate) fn is_empty(&self) -> bool
        ensures { result ≡ (length self.now == 0) }
    {
        self.leaves.as_slice().is_empty()
    }

    /// How the first key stands to a key.
    pub(crate) fn start(&self, key: &Sought<'_>) -> Ordering
        requires { 0 < length self.now }
        ensures { result ≡ start_cmp self.now key.now }
    {
        self.first.compare(key)
    }

    /// The leaves.
    pub(crate) fn leaves(&self) -> &[Leaf<V>]
        ensures whole { joined result.now ≡ self.now }
        ensures filled { AreFilled result.now }
    {
        self.leaves.as_slice()
    }

    /// The pairs from a key on: those of a leaf, and the leaves behind it.
    pub(crate) fn from(&self, key: &Sought<'_>) -> (&[Slot<V>], &[Leaf<V>])
        requires rising { Ascends self.now }
        requires some { 0 < length self.now }
        ensures { result.0.now ++ joined result.1.now ≡ from_key self.now key.now }
    {
        let leaves = self.leaves.as_slice();
        let at = place(leaves, key);
        let leaf = &leaves[at];
        (leaf.from(key), &leaves[at + 1..])
    }

    /// The value of a key.
    pub(crate) fn get(&self, key: &Sought<'_>) -> Option<&V>
        requires rising { Ascends self.now }
        requires some { 0 < length self.now }
        ensures { option_copied result ≡ value_at self.now key.now }
    {
        let leaves = self.leaves.as_slice();
        let at = place(leaves, key);
        let leaf = &leaves[at];
        leaf.get(key)
    }

    /// Its two halves, where it is full.
    pub(crate) fn halves(&self, alloc: Global) -> Result<Option<(Branch<V>, Branch<V>)>, Memory>
        ensures { IfOk result (λ made. IfSome made (λ halves. AreHalves self.now halves.0 halves.1)) }
    {
        let leaves = self.leaves.as_slice();
        if leaves.len() <= MOST {
            return Ok(None);
        }
        let middle = leaves.len() / 2;
        let front = Branch::of(alloc, shares(alloc, &leaves[..middle])?)?;
        let back = Branch::of(alloc, shares(alloc, &leaves[middle..])?)?;
        Ok(Some((front, back)))
    }

    /// One branch of this one and the next, where both are small.
    pub(crate) fn merged(
        &self,
        alloc: Global,
        next: &Branch<V>,
    ) -> Result<Option<Branch<V>>, Memory>
        requires { 0 < length self.now }
        ensures { IfOk result (λ made. IfSome made (λ branch. branch ≡ self.now ++ next.now)) }
    {
        if self.leaves.len().saturating_add(next.leaves.len()) > FEW {
            return Ok(None);
        }
        let mut made = shares(alloc, self.leaves.as_slice())?;
        push_shares(&mut made, next.leaves.as_slice())?;
        Ok(Some(Branch::of(alloc, made)?))
    }

    /// Puts a pair in the place of its key, in place as far down as nobody else holds what is there.
    pub(crate) fn put(&mut self, alloc: Global, pair: Slot<V>) -> Result<(), Memory>
        requires rising { Ascends self.old }
        requires some { 0 < length self.old }
        ensures ok { OnOk result (self.new ≡ with_pair self.old pair) }
        ensures err { OnErr result (self.new ≡ self.old) }
    {
        if pair.compare(&self.first.sought()).is_lt() {
            let first = pair.share()?;
            put_shared(alloc, &mut self.leaves, pair)?;
            self.first = first;
            Ok(())
        } else {
            put_shared(alloc, &mut self.leaves, pair)
        }
    }

    /// Takes the pair of a key away, in place as far down as nobody else holds what is there.
    pub(crate) fn take(&mut self, alloc: Global, key: &Sought<'_>) -> Result<(), Memory>
        requires rising { Ascends self.old }
        requires some { 0 < length self.old }
        ensures ok { OnOk result (self.new ≡ without self.old key.now) }
        ensures err { OnErr result (self.new ≡ self.old) }
    {
        if self.first.compare(key).is_eq() {
            let first = second(self.leaves.as_slice())?;
            take_shared(alloc, &mut self.leaves, key)?;
            self.first = first;
            Ok(())
        } else {
            take_shared(alloc, &mut self.leaves, key)
        }
    }
}
