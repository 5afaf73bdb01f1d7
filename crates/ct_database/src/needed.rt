ghost use Rattle.std.specs.Prelude.{◌≡◌};
ghost use Rattle.ct_model.specs.Apply.{change_stays, commit_stays};
ghost use Rattle.ct_model.specs.Tables.{is_above as is_above_min};

use ct_source::Stored;
use ct_types::{Change, Kept, Tracked};

fn is_above(version: u64, tracked: Option<Tracked>) -> bool
    ensures { result ≡ is_above_min version tracked }
{
    tracked.is_some_and(|tracked| tracked.min < version)
}

/// Whether some tracked table needs a commit.
pub(crate) fn is_needed(tables: &[Stored], kept: &Kept) -> bool
    ensures { result ≡ commit_stays tables.now kept.now }
{
    tables
        .iter()
        .any(|table| is_above(kept.version, table.tracked()))
}

/// Whether a tracked table needs a change of a commit with this version.
pub(crate) fn is_change_needed(tables: &[Stored], version: u64, change: &Change) -> bool
    ensures { result ≡ change_stays tables.now version change.now }
{
    tables.iter().any(|table| table.schema().id == change.table
        && is_above(version, table.tracked()))
}
