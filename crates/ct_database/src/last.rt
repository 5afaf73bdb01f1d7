ghost use Rattle.std.specs.Prelude.{◌≡◌, ℕ, nat_lt, IfOk, None, Some, filter, if◌then◌else◌};
ghost use Rattle.std.specs.Option.{IfSome, option_copied, option_map};
ghost use Rattle.ct_model.specs.Net.{last_of, window};
ghost use Rattle.ct_model.specs.Versions.{version_row_of};
ghost use Rattle.ct_ptree.specs.Pairs.{value_at};
ghost use Rattle.ct_source.specs.Rows.{lent};
ghost use Rattle.ct_database.specs.Steps.{IsNoted, counted_of, counted_since, dated, is_later, is_of as is_of_key, last_here, last_in, own_key as key_of_own};

use crate::commits::Commits;
use crate::noted::own_key;
use crate::older::Older;
use ct_ptree::Tree;
use ct_source::Stored;
use ct_types::{Change, Copies, Kept, Key, Memory, VersionRow, cmp_key};
use std::alloc::Global;
use std::cmp::Ordering;

/// Whether a change is one of a table and key.
fn is_of(table: u32, key: &Key, change: &Change) -> bool
    ensures { result ≡ is_of_key table key.now change.now }
{
    change.table == table && cmp_key(&change.key, key) == Ordering::Equal
}

/// The last change of a table and key, sought from the end.
pub(crate) fn last_change<'a>(table: u32, key: &Key, changes: &'a [Change]) -> Option<&'a Change>
    ensures { (version : ℕ) → option_map (dated version) (option_copied result) ≡ last_here table version key.now changes.now }
{
    let mut at = changes.len();
    while at > 0 {
        at -= 1;
        let change = &changes[at];
        if is_of(table, key, change) {
            return Some(change);
        }
    }
    None
}

/// No version and no context.
fn no_row() -> VersionRow
    ensures { result ≡ version_row_of None }
{
    VersionRow {
        version: None,
        context: None,
    }
}

/// The row of a change of a version, with a copy of its context.
fn row_of(alloc: Global, version: u64, change: &Change) -> Result<VersionRow, Memory>
    ensures { IfOk result (λ made. made ≡ version_row_of (Some (dated version change.now))) }
{
    Ok(VersionRow {
        version: Some(version),
        context: change.context.copy(alloc)?,
    })
}

/// The row of a change of a version, if that is above another version.
pub(crate) fn row_above(
    alloc: Global,
    floor: u64,
    version: u64,
    change: &Change,
) -> Result<VersionRow, Memory>
    ensures { IfOk result (λ made. made ≡ version_row_of (if nat_lt floor version then Some (dated version change.now) else None)) }
{
    if floor < version {
        row_of(alloc, version, change)
    } else {
        Ok(no_row())
    }
}

/// The row of the last change of a key in a commit, if it changes the key.
fn row_in(alloc: Global, table: u32, key: &Key, one: &Kept) -> Result<VersionRow, Memory>
    ensures { IfOk result (λ made. made ≡ version_row_of (last_here table one.now.version key.now one.now.changes)) }
{
    match last_change(table, key, one.changes.as_slice()) {
        None => Ok(no_row()),
        Some(change) => row_of(alloc, one.version, change),
    }
}

/// The row of the last change of a key in commits, sought from the end.
fn walked_last(
    alloc: Global,
    table: u32,
    key: &Key,
    commits: &[&Kept],
) -> Result<VersionRow, Memory>
    ensures { IfOk result (λ made. made ≡ version_row_of (last_in table key.now (lent commits.now))) }
{
    let mut at = commits.len();
    while at > 0 {
        at -= 1;
        let one = commits[at];
        if let Some(change) = last_change(table, key, one.changes.as_slice()) {
            return row_of(alloc, one.version, change);
        }
    }
    Ok(no_row())
}

/// The row of the last change of a key above a version, where another version is noted as that of the last change.
fn noted_last(
    alloc: Global,
    older: &Older,
    version: u64,
    table: u32,
    floor: u64,
    key: &Key,
) -> Result<VersionRow, Memory>
    requires { IsNoted table key.now older.now (Some version) }
    ensures { IfOk result (λ made. made ≡ version_row_of (last_in table key.now (filter (is_later floor) older.now))) }
{
    older.rise();
    if version <= floor {
        return Ok(no_row());
    }
    match older.at(version)? {
        None => Ok(no_row()),
        Some(one) => row_in(alloc, table, key, one),
    }
}

/// The row of the last change of a key above a version, by the notes.
fn looked_up_last(
    alloc: Global,
    older: &Older,
    lasts: &Tree<u64>,
    table: u32,
    floor: u64,
    key: &Key,
) -> Result<VersionRow, Memory>
    requires { IsNoted table key.now older.now (value_at lasts.now (key_of_own table key.now)) }
    ensures { IfOk result (λ made. made ≡ version_row_of (last_in table key.now (filter (is_later floor) older.now))) }
{
    let own = own_key(alloc, table, key)?;
    match lasts.get(&own) {
        None => Ok(no_row()),
        Some(version) => noted_last(alloc, older, *version, table, floor, key),
    }
}

/// The row of the last change of a key above a version: a look-up where notes are made, and else a walk over the commits in
/// chunks with a change of the table.
pub(crate) fn older_last(
    alloc: Global,
    older: &Older,
    lasts: &Option<Tree<u64>>,
    table: u32,
    floor: u64,
    key: &Key,
) -> Result<VersionRow, Memory>
    requires { IfSome lasts.now (λ notes. IsNoted table key.now older.now (value_at notes (key_of_own table key.now))) }
    ensures { IfOk result (λ made. made ≡ version_row_of (last_in table key.now (filter (is_later floor) older.now))) }
{
    match lasts {
        None => walked_last(alloc, table, key, older.since_on(table, floor)?.as_slice()),
        Some(lasts) => looked_up_last(alloc, older, lasts, table, floor, key),
    }
}

/// The version and the context of the last change that counts of a key of a table, if that is tracked.
fn last_tracked(
    alloc: Global,
    table: &Stored,
    kept: &Commits,
    key: &Key,
) -> Result<VersionRow, Memory>
    ensures { IfOk result (λ made. made ≡ version_row_of (last_of (window (counted_since table.now.schema.id table.now.tracked kept.now.commits) key.now))) }
{
    match table.tracked() {
        None => Ok(no_row()),
        Some(tracked) => kept.last(alloc, table.schema().id, tracked.min, key),
    }
}

/// The version and the context of the last change that counts of a key of a table, if there is the table.
pub(crate) fn last_counted(
    alloc: Global,
    table: Option<&Stored>,
    kept: &Commits,
    key: &Key,
) -> Result<VersionRow, Memory>
    ensures { IfOk result (λ made. made ≡ version_row_of (last_of (window (counted_of (option_copied table.entry) kept.now.commits) key.now))) }
{
    match table {
        None => Ok(no_row()),
        Some(table) => last_tracked(alloc, table, kept, key),
    }
}
