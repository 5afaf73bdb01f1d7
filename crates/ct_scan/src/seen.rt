ghost use Rattle.std.specs.Prelude.{◌≡◌, IfOk};
ghost use Rattle.ct_scan.specs.Seen as spec;

use ct_types::{Copies, Memory, Row, Value};
use std::alloc::Global;
use std::marker::Model;

/// Values of a joined row that are known before it is joined: those of the other row of a pair, or none.
#[derive(Drop)]
pub struct Seen<'a> {
    from: u32,
    values: &'a [Value],
}

impl<'a> Model for Seen<'a> {
    ghost use Rattle.ct_scan.specs.Seen as spec;

    ghost Value = { spec.Seen };

    ghost view = { λ seen. record { from = seen.from; values = seen.values.now } };
}

impl<'a> Seen<'a> {
    /// No value is known.
    pub fn nothing() -> Seen<'a>
        ensures { result ≡ spec.nothing }
    {
        Seen {
            from: 0,
            values: &[],
        }
    }

    /// The values of a row are known, which stand in the joined row from a place on, counted from 0: 0 for a left row, and for a
    /// right row as many as the left source has columns.
    pub fn row(from: u32, row: &'a Row) -> Seen<'a>
        ensures { result ≡ record { from = from; values = row.now.0 } }
    {
        Seen {
            from,
            values: row.0.as_slice(),
        }
    }

    /// The value at a place of the joined row, if it is known.
    pub(crate) fn value_at(&self, alloc: Global, place: u32) -> Result<Option<Value>, Memory>
        ensures { IfOk result (λ found. found ≡ spec.value_at self.now place) }
    {
        if place < self.from {
            return Ok(None);
        }
        match self.values.get((place - self.from) as usize) {
            Some(value) => Ok(Some(value.copy(alloc)?)),
            None => Ok(None),
        }
    }
}
