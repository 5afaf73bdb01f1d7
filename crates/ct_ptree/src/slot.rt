ghost use Rattle.std.specs.Prelude.{◌≡◌, ◌≢◌, IfOk};
ghost use Rattle.ct_types.specs.Order.{key_cmp};
ghost use Rattle.ct_ptree.specs.Numbers.{no_number, key_number};

use crate::pair::Pair;
use ct_types::{Key, Memory, Value, cmp_key};
use std::cmp::Ordering;
use std::marker::Model;
use std::sync::Arc;

/// The number of a key that begins with no number. A key that begins with this very number counts as one of those.
const NO_NUMBER: i64 = i64::MIN;

/// The number that a key begins with.
fn number_of(key: &Key) -> i64
    ensures { result ≡ key_number key.now }
{
    match key.0.as_slice() {
        [Value::Int(number), ..] => *number,
        _ => NO_NUMBER,
    }
}

/// A key that is searched for, and beside it the number that it begins with.
#[derive(Drop)]
pub(crate) struct Sought<'a> {
    number: i64,
    key: &'a Key,
}

impl<'a> Model for Sought<'a> {
    ghost use Rattle.std.specs.Prelude.{◌≡◌};
    ghost use Rattle.ct_types.specs.declared.value.Key.{Key};

    ghost Value = { Key };

    ghost use Rattle.ct_ptree.specs.Numbers.{key_number};

    ghost view = { λ it. it.key.now };

    ghost invariant = { λ it. it.number ≡ key_number it.key.now };
}

impl<'a> Sought<'a> {
    /// The search for a key.
    pub(crate) fn of(key: &'a Key) -> Sought<'a>
        ensures { result ≡ key.now }
    {
        Sought {
            number: number_of(key),
            key,
        }
    }
}

/// A pair behind its pointer, and beside it the number that its key begins with: a search follows no pointer where numbers
/// decide.
#[derive(Drop)]
pub(crate) struct Slot<V> {
    number: i64,
    pair: Arc<Pair<V>>,
}

impl<V> Model for Slot<V> {
    ghost use Rattle.std.specs.Prelude.{◌≡◌};
    ghost use Rattle.ct_ptree.specs.declared.pair.Pair.{Pair};
    ghost use Rattle.ct_ptree.specs.Numbers.{key_number};

    ghost Value = { Pair V };

    ghost view = { λ it. it.pair.value };

    ghost invariant = { λ it. it.number ≡ key_number it.pair.value.key };
}

/// How two keys stand that begin with the same number. Keys of that number alone are equal, and are not read.
fn compare_tied(first: &Key, second: &Key) -> Ordering
    requires same { key_number first.now ≡ key_number second.now }
    requires some { key_number first.now ≢ no_number }
    ensures { result ≡ key_cmp first.now second.now }
{
    if first.0.as_slice().len() == 1 && second.0.as_slice().len() == 1 {
        return Ordering::Equal;
    }
    cmp_key(first, second)
}

impl<V> Slot<V> {
    /// The slot of a pair.
    pub(crate) fn of(pair: Arc<Pair<V>>) -> Slot<V>
        ensures { result ≡ pair.value }
    {
        Slot {
            number: number_of(&pair.key),
            pair,
        }
    }

    /// The same slot once more.
    pub(crate) fn share(&self) -> Result<Slot<V>, Memory>
        ensures { IfOk result (λ made. made ≡ self.now) }
    {
        Ok(Slot {
            number: self.number,
            pair: Arc::try_clone(&self.pair)?,
        })
    }

    /// The pair.
    pub(crate) fn pair(&self) -> &Pair<V>
        ensures { result.now ≡ self.now }
    {
        &self.pair
    }

    /// The search for its key.
    pub(crate) fn sought(&self) -> Sought<'_>
        ensures { result ≡ self.now.key }
    {
        Sought {
            number: self.number,
            key: &self.pair.key,
        }
    }

    /// How its key stands to a key.
    pub(crate) fn compare(&self, key: &Sought<'_>) -> Ordering
        ensures { result ≡ key_cmp self.now.key key.now }
    {
        if self.number == NO_NUMBER || key.number == NO_NUMBER {
            return cmp_key(&self.pair.key, key.key);
        }
        match self.number.cmp(&key.number) {
            Ordering::Less => Ordering::Less,
            Ordering::Greater => Ordering::Greater,
            Ordering::Equal => compare_tied(&self.pair.key, key.key),
        }
    }
}
