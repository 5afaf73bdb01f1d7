ghost use Rattle.std.specs.Prelude.{◌≡◌, ◌++◌, slice_get};
ghost use Rattle.std.specs.Option.{option_copied};

use ct_types::{Row, Value};
use std::marker::Model;

/// A row on which an expression is evaluated: a row as it is, or a left row and a right row beside each other, which are
/// lent and not copied into one.
#[derive(Drop)]
pub(crate) struct Beside<'a> {
    left: &'a [Value],
    right: &'a [Value],
}

impl<'a> Model for Beside<'a> {
    ghost use Rattle.std.specs.Prelude.{◌++◌};
    ghost use Rattle.ct_types.specs.declared.value.Row.{Row};

    ghost Value = { Row };

    ghost view = { λ it. record { 0 = it.left.now ++ it.right.now } };
}

impl<'a> Beside<'a> {
    /// A row as it is.
    pub(crate) fn row(row: &'a Row) -> Beside<'a>
        ensures { result ≡ row.now }
    {
        Beside {
            left: row.0.as_slice(),
            right: &[],
        }
    }

    /// The values of a left row, then those of a right one.
    pub(crate) fn pair(left: &'a Row, right: &'a Row) -> Beside<'a>
        ensures { result ≡ record { 0 = left.now.0 ++ right.now.0 } }
    {
        Beside {
            left: left.0.as_slice(),
            right: right.0.as_slice(),
        }
    }

    /// Lends the value at a place, counted from 0, if there is one.
    pub(crate) fn value_in(&self, at: u32) -> Option<&Value>
        ensures { option_copied result ≡ slice_get self.now.0 at }
    {
        let at = at as usize;
        if at < self.left.len() {
            self.left.get(at)
        } else {
            self.right.get(at - self.left.len())
        }
    }
}
