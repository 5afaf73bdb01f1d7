ghost use Rattle.std.specs.Prelude.{◌≡◌, IfOk, map};
ghost use Rattle.ct_model.specs.Net.{net_rows as rows_of_changes, changes_above};

use crate::gathering::Gathering;
use ct_types::{Kept, List, Memory, NetRow, Schema};
use std::alloc::Global;

/// The net rows of the changes of a table in kept commits above a version, one for each key, in key order: with the columns
/// of updates or without. The commits are lent.
///
/// It takes a number of steps of n log n for n changes, and copies the context of a change only where it is shown. Commits
/// at or below the version may be left out ([`crate::changes_from_floor`]).
pub fn net_of_kept(
    alloc: Global,
    schema: &Schema,
    masks: bool,
    floor: u64,
    kept: &[&Kept],
) -> Result<List<NetRow>, Memory>
    ensures { IfOk result (λ made. made ≡ rows_of_changes schema.now masks (changes_above schema.now.id floor (map (λ one. one.now) kept.now))) }
{
    let mut gathering = Gathering::new(alloc, schema, masks);
    for commit in kept {
        gathering.add_commit(floor, commit)?;
    }
    gathering.rows()
}
