ghost use Rattle.std.specs.Prelude.{◌≡◌};
ghost use Rattle.ct_rows.specs.Versions.{rows_at};

use crate::versions::Versions;
use ct_ptree::Range;
use ct_types::Row;
use std::marker::Model;

/// The rows of a table at a view that were not taken yet, in rising order of keys.
#[derive(Drop)]
pub struct RowsAt<'a> {
    range: Range<'a, Versions>,
    view: u64,
}

impl<'a> Model for RowsAt<'a> {
    ghost use Rattle.std.specs.Prelude.{List};
    ghost use Rattle.ct_types.specs.declared.value.Row.{Row};
    ghost use Rattle.ct_rows.specs.Versions.{rows_at};

    ghost Value = { List Row };

    ghost view = { λ it. rows_at it.range it.view };
}

impl<'a> RowsAt<'a> {
    pub(crate) fn of(range: Range<'a, Versions>, view: u64) -> RowsAt<'a>
        ensures { result ≡ rows_at range.entry view }
    {
        RowsAt { range, view }
    }
}

impl<'a> Iterator for RowsAt<'a> {
    ghost use Rattle.std.specs.Iterator.{YieldsFirstRef, item_count};

    type Item = &'a Row;

    ghost next_gives = { YieldsFirstRef (λ s. s) };

    ghost remaining = { item_count (λ s. s) };

    fn next(&mut self) -> Option<&'a Row> {
        while let Some(pair) = self.range.next() {
            if let Some(row) = pair.value.row_seen(self.view) {
                return Some(row);
            }
        }
        None
    }
}
