ghost use Rattle.std.specs.Prelude.{◌≡◌, ◌==◌, ◌+◌, ◌<◌, ◌≤◌, ◌++◌, ◌∷◌, [], IfOk, OnOk, OnErr, None, length, take, drop, filter};
ghost use Rattle.std.specs.Option.{IfSome, option_copied};
ghost use Rattle.ct_ptree.specs.Pairs.{Ascends, is_below, is_above, value_at, with_pair, without, from_key, start_cmp, BeginsAt, IsFoundAt, AreHalves};

use crate::slot::{Slot, Sought};
use ct_types::Memory;
use std::alloc::Global;
use std::cmp::Ordering;
use std::marker::Model;
use std::sync::Arc;

/// The most pairs of a leaf that is not to be halved.
const MOST: usize = 127;

/// The most pairs of two leaves that become one.
const FEW: usize = 64;

/// Some pairs in rising order of keys, and beside them a pair of the first one's key: a search among leaves reads no list.
#[derive(Drop)]
pub(crate) struct Leaf<V> {
    first: Slot<V>,
    pairs: Arc<Vec<Slot<V>>>,
}

impl<V> Model for Leaf<V> {
    ghost use Rattle.std.specs.Prelude.{List};
    ghost use Rattle.ct_ptree.specs.declared.pair.Pair.{Pair};
    ghost use Rattle.ct_ptree.specs.Pairs.{BeginsAt};

    ghost Value = { List (Pair V) };

    ghost view = { λ it. it.pairs.value.items };

    ghost invariant = { λ it. BeginsAt it.first.key it.pairs.value.items };
}

/// How many pairs stand below a key, and how many stand not above it.
fn gap<V>(pairs: &[Slot<V>], key: &Sought<'_>) -> (usize, usize)
    requires { Ascends pairs.now }
    ensures within { result.1 ≤ length pairs.now }
    ensures order { result.0 ≤ result.1 }
    ensures narrow { result.1 ≤ result.0 + 1 }
    ensures low { take result.0 pairs.now ≡ filter (is_below key.now) pairs.now }
    ensures high { drop result.1 pairs.now ≡ filter (is_above key.now) pairs.now }
    ensures rest { drop result.0 pairs.now ≡ from_key pairs.now key.now }
    ensures found { result.0 < result.1 → IsFoundAt pairs.now key.now result.0 }
    ensures none { result.0 ≡ result.1 → value_at pairs.now key.now ≡ None }
{
    let mut low = 0;
    let mut high = pairs.len();
    while low < high {
        let middle = low + (high - low) / 2;
        match pairs[middle].compare(key) {
            Ordering::Less => low = middle + 1,
            Ordering::Greater => high = middle,
            Ordering::Equal => return (middle, middle + 1),
        }
    }
    (low, low)
}

/// Adds shares of pairs at the end of a list.
fn push_shares<V: Drop>(made: &mut Vec<Slot<V>>, pairs: &[Slot<V>]) -> Result<(), Memory>
    ensures { OnOk result (made.new.items ≡ made.old.items ++ pairs.now) }
{
    for pair in pairs {
        made.push(pair.share()?)?;
    }
    Ok(())
}

/// A list of shares of pairs, with room for the most that there may be.
fn shares<V: Drop>(alloc: Global, pairs: &[Slot<V>]) -> Result<Vec<Slot<V>>, Memory>
    ensures { IfOk result (λ made. made.items ≡ pairs.now) }
{
    let mut made = Vec::with_capacity(alloc, MOST + 1)?;
    push_shares(&mut made, pairs)?;
    Ok(made)
}

/// Puts a pair in the place of its key.
fn put_pair<V: Drop>(pairs: &mut Vec<Slot<V>>, pair: Slot<V>) -> Result<(), Memory>
    requires { Ascends pairs.old.items }
    ensures ok { OnOk result (pairs.new.items ≡ with_pair pairs.old.items pair) }
    ensures err { OnErr result (pairs.new.items ≡ pairs.old.items) }
{
    let (low, high) = gap(pairs.as_slice(), &pair.sought());
    if low < high {
        pairs[low] = pair;
    } else {
        pairs.insert(low, pair)?;
    }
    Ok(())
}

/// Takes the pair of a key away, where there is one.
fn take_pair<V: Drop>(pairs: &mut Vec<Slot<V>>, key: &Sought<'_>)
    requires { Ascends pairs.old.items }
    ensures { pairs.new.items ≡ without pairs.old.items key.now }
{
    let (low, high) = gap(pairs.as_slice(), key);
    if low < high {
        pairs.remove(low);
    }
}

/// Puts a pair in the place of its key, in place where nobody else holds the list.
fn put_shared<V: Drop>(
    alloc: Global,
    pairs: &mut Arc<Vec<Slot<V>>>,
    pair: Slot<V>,
) -> Result<(), Memory>
    requires { Ascends pairs.old.value.items }
    ensures ok { OnOk result (pairs.new.value.items ≡ with_pair pairs.old.value.items pair) }
    ensures err { OnErr result (pairs.new.value.items ≡ pairs.old.value.items) }
{
    match Arc::get_mut(pairs) {
        Some(own) => put_pair(own, pair),
        None => {
            let mut made = shares(alloc, pairs.as_slice())?;
            put_pair(&mut made, pair)?;
            *pairs = Arc::new(alloc, made)?;
            Ok(())
        }
    }
}

/// Takes the pair of a key away, in place where nobody else holds the list.
fn take_shared<V: Drop>(
    alloc: Global,
    pairs: &mut Arc<Vec<Slot<V>>>,
    key: &Sought<'_>,
) -> Result<(), Memory>
    requires { Ascends pairs.old.value.items }
    ensures ok { OnOk result (pairs.new.value.items ≡ without pairs.old.value.items key.now) }
    ensures err { OnErr result (pairs.new.value.items ≡ pairs.old.value.items) }
{
    match Arc::get_mut(pairs) {
        Some(own) => {
            take_pair(own, key);
            Ok(())
        }
        None => {
            let mut made = shares(alloc, pairs.as_slice())?;
            take_pair(&mut made, key);
            *pairs = Arc::new(alloc, made)?;
            Ok(())
        }
    }
}

impl<V: Drop> Leaf<V> {
    fn of(alloc: Global, pairs: Vec<Slot<V>>) -> Result<Leaf<V>, Memory>
        requires { 0 < length pairs.items }
        ensures { IfOk result (λ made. made ≡ pairs.items) }
    {
        Ok(Leaf {
            first: pairs[0].share()?,
            pairs: Arc::new(alloc, pairs)?,
        })
    }

    /// A leaf of one pair.
    pub(crate) fn one(alloc: Global, pair: Slot<V>) -> Result<Leaf<V>, Memory>
        ensures { IfOk result (λ made. made ≡ pair ∷ []) }
    {
        let mut pairs = Vec::new(alloc);
        pairs.push(pair)?;
        Leaf::of(alloc, pairs)
    }

    /// The same leaf once more.
    pub(crate) fn share(&self) -> Result<Leaf<V>, Memory>
        ensures { IfOk result (λ made. made ≡ self.now) }
    {
        Ok(Leaf {
            first: self.first.share()?,
            pairs: Arc::try_clone(&self.pairs)?,
        })
    }

    /// Whether it has no pair.
    pub(crate) fn is_empty(&self) -> bool
        ensures { result ≡ (length self.now == 0) }
    {
        self.pairs.is_empty()
    }

    /// How the first key stands to a key.
    pub(crate) fn start(&self, key: &Sought<'_>) -> Ordering
        requires { 0 < length self.now }
        ensures { result ≡ start_cmp self.now key.now }
    {
        self.first.compare(key)
    }

    /// A pair of the first one's key.
    pub(crate) fn first(&self) -> Result<Slot<V>, Memory>
        ensures { IfOk result (λ made. BeginsAt made.key self.now) }
    {
        self.first.share()
    }

    /// A pair of the second one's key, where there are two.
    pub(crate) fn second(&self) -> Result<Slot<V>, Memory>
        ensures { IfOk result (λ made. BeginsAt made.key (drop 1 self.now)) }
    {
        match self.pairs.get(1) {
            None => self.first(),
            Some(pair) => pair.share(),
        }
    }

    /// Whether it has one pair.
    pub(crate) fn is_single(&self) -> bool
        ensures { result ≡ (length self.now == 1) }
    {
        self.pairs.len() == 1
    }

    /// The pairs.
    pub(crate) fn pairs(&self) -> &[Slot<V>]
        ensures { result.now ≡ self.now }
    {
        self.pairs.as_slice()
    }

    /// The pairs from a key on.
    pub(crate) fn from(&self, key: &Sought<'_>) -> &[Slot<V>]
        requires { Ascends self.now }
        ensures { result.now ≡ from_key self.now key.now }
    {
        let pairs = self.pairs.as_slice();
        let (low, _) = gap(pairs, key);
        &pairs[low..]
    }

    /// The value of a key.
    pub(crate) fn get(&self, key: &Sought<'_>) -> Option<&V>
        requires { Ascends self.now }
        ensures { option_copied result ≡ value_at self.now key.now }
    {
        let pairs = self.pairs.as_slice();
        let (low, high) = gap(pairs, key);
        if low < high {
            Some(&pairs[low].pair().value)
        } else {
            None
        }
    }

    /// Its two halves, where it is full.
    pub(crate) fn halves(&self, alloc: Global) -> Result<Option<(Leaf<V>, Leaf<V>)>, Memory>
        ensures { IfOk result (λ made. IfSome made (λ halves. AreHalves self.now halves.0 halves.1)) }
    {
        let pairs = self.pairs.as_slice();
        if pairs.len() <= MOST {
            return Ok(None);
        }
        let middle = pairs.len() / 2;
        let front = Leaf::of(alloc, shares(alloc, &pairs[..middle])?)?;
        let back = Leaf::of(alloc, shares(alloc, &pairs[middle..])?)?;
        Ok(Some((front, back)))
    }

    /// One leaf of this one and the next, where both are small.
    pub(crate) fn merged(&self, alloc: Global, next: &Leaf<V>) -> Result<Option<Leaf<V>>, Memory>
        requires { 0 < length self.now }
        ensures { IfOk result (λ made. IfSome made (λ leaf. leaf ≡ self.now ++ next.now)) }
    {
        if self.pairs.len().saturating_add(next.pairs.len()) > FEW {
            return Ok(None);
        }
        let mut made = shares(alloc, self.pairs.as_slice())?;
        push_shares(&mut made, next.pairs.as_slice())?;
        Ok(Some(Leaf::of(alloc, made)?))
    }

    /// Puts a pair in the place of its key, in place where nobody else holds the leaf.
    pub(crate) fn put(&mut self, alloc: Global, pair: Slot<V>) -> Result<(), Memory>
        requires rising { Ascends self.old }
        requires some { 0 < length self.old }
        ensures ok { OnOk result (self.new ≡ with_pair self.old pair) }
        ensures err { OnErr result (self.new ≡ self.old) }
    {
        if pair.compare(&self.first.sought()).is_lt() {
            let first = pair.share()?;
            put_shared(alloc, &mut self.pairs, pair)?;
            self.first = first;
            Ok(())
        } else {
            put_shared(alloc, &mut self.pairs, pair)
        }
    }

    /// Takes the pair of a key away, in place where nobody else holds the leaf.
    pub(crate) fn take(&mut self, alloc: Global, key: &Sought<'_>) -> Result<(), Memory>
        requires { Ascends self.old }
        ensures ok { OnOk result (self.new ≡ without self.old key.now) }
        ensures err { OnErr result (self.new ≡ self.old) }
    {
        if self.first.compare(key).is_eq() {
            let first = self.second()?;
            take_shared(alloc, &mut self.pairs, key)?;
            self.first = first;
            Ok(())
        } else {
            take_shared(alloc, &mut self.pairs, key)
        }
    }
}
