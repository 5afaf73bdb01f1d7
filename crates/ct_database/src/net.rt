ghost use Rattle.std.specs.Prelude.{◌≡◌, IfOk};
ghost use Rattle.std.specs.Option.{option_copied};
ghost use Rattle.ct_model.specs.Net.{floor_of, net_of, net_tracked};

use crate::commits::Commits;
use ct_net::net_of_kept;
use ct_source::Stored;
use ct_types::{List, Memory, NetRow};
use std::alloc::Global;

/// The greater of a table's minimum and the version that a client names, where none is the minimum.
fn floor(min: u64, since: Option<i64>) -> u64
    ensures { result ≡ floor_of min since }
{
    match since {
        Some(since) if since >= 0 => min.max(since as u64),
        _ => min,
    }
}

/// The net rows of a table, if it is tracked, in the cost of the commits since the version in chunks with a change of the table.
fn tracked_since(
    alloc: Global,
    table: &Stored,
    kept: &Commits,
    since: Option<i64>,
) -> Result<List<NetRow>, Memory>
    ensures { IfOk result (λ made. made ≡ net_tracked table.now.schema table.now.tracked kept.now.commits since) }
{
    match table.tracked() {
        None => Ok(List::new(alloc)),
        Some(tracked) => {
            let floor = floor(tracked.min, since);
            let later = kept.since_on(table.schema().id, floor)?;
            net_of_kept(
                alloc,
                table.schema(),
                tracked.masks,
                floor,
                later.as_slice(),
            )
        }
    }
}

/// The net rows of a table, if there is one and it is tracked.
pub(crate) fn net_since(
    alloc: Global,
    table: Option<&Stored>,
    kept: &Commits,
    since: Option<i64>,
) -> Result<List<NetRow>, Memory>
    ensures { IfOk result (λ made. made ≡ net_of (option_copied table.entry) kept.now.commits since) }
{
    match table {
        None => Ok(List::new(alloc)),
        Some(table) => tracked_since(alloc, table, kept, since),
    }
}
