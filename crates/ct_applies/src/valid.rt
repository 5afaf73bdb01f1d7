ghost use Rattle.std.specs.Prelude.{◌≡◌, ◌↔◌, ◌≤◌, IsTrue};
ghost use Rattle.std.specs.List.{AllByRecursion};
ghost use Rattle.std.specs.Option.{IsSomeAnd};
ghost use Rattle.ct_model.specs.Apply.{commit_stays};
ghost use Rattle.ct_model.specs.Tables.{is_above as is_above_min, table_of};
ghost use Rattle.ct_model.specs.Valid.{IsRetention, IsKeepValid, IsTrackedValid, ContextFits, ChangeFits, IsChangeValid, IsKeptValid, ComesBefore};

use crate::holds::key_fits;
use crate::writes::mask_fits;
use ct_model::{Db, Table, find_table};
use ct_types::{Bin, Change, Keep, Kept, Tracked};

fn is_retention(seconds: u64) -> bool
    ensures { IsTrue result ↔ IsRetention seconds }
{
    seconds >= 60 && seconds <= 2_147_483_647 * 86_400
}

/// Whether the settings of a database may be these: where it is on, its retention is from a minute to 2,147,483,647 days.
pub fn is_keep_valid(keep: Option<Keep>) -> bool
    ensures { IsTrue result ↔ IsKeepValid keep }
{
    match keep {
        None => true,
        Some(keep) => is_retention(keep.retention),
    }
}

/// Whether a table may be tracked in this way, in a database with this version and these settings: it is not tracked, or the
/// database is on and the table's minimum is at most the version.
pub fn is_tracked_valid(version: u64, keep: Option<Keep>, tracked: Option<Tracked>) -> bool
    ensures { IsTrue result ↔ IsTrackedValid version keep tracked }
{
    match tracked {
        None => true,
        Some(tracked) => keep.is_some() && tracked.min <= version,
    }
}

fn is_above(version: u64, tracked: Option<Tracked>) -> bool
    ensures { result ≡ is_above_min version tracked }
{
    tracked.is_some_and(|tracked| tracked.min < version)
}

fn context_fits(context: &Option<Bin>) -> bool
    ensures { IsTrue result ↔ ContextFits context.now }
{
    match context {
        None => true,
        Some(bytes) => bytes.as_bytes().len() <= 128,
    }
}

fn change_fits(version: u64, change: &Change, table: &Table) -> bool
    ensures { IsTrue result ↔ ChangeFits version change.now table.now }
{
    is_above(version, table.tracked)
        && key_fits(&table.schema, &change.key)
        && mask_fits(table, change.op, change.mask)
        && context_fits(&change.context)
}

fn is_change_valid(tables: &[Table], version: u64, change: &Change) -> bool
    ensures { IsTrue result ↔ IsChangeValid tables.now version change.now }
{
    match find_table(tables, change.table) {
        None => false,
        Some(table) => change_fits(version, change, table),
    }
}

fn are_changes_valid(tables: &[Table], version: u64, changes: &[Change]) -> bool
    ensures { IsTrue result ↔ AllByRecursion (IsChangeValid tables.now version) changes.now }
{
    changes
        .iter()
        .all(|change| is_change_valid(tables, version, change))
}

/// Whether some tracked table has a minimum below the version of a kept commit.
fn stays(tables: &[Table], kept: &Kept) -> bool
    ensures { result ≡ commit_stays tables.now kept.now }
{
    tables
        .iter()
        .any(|table| is_above(kept.version, table.tracked))
}

/// Whether a database may have this kept commit: some tracked table has a minimum below its version; version, time and
/// transaction number are at most those of the database; and each change fits its table, which is tracked with a minimum
/// below the version.
pub fn is_kept_valid(db: &Db, kept: &Kept) -> bool
    ensures { IsTrue result ↔ IsKeptValid db.now kept.now }
{
    let tables = db.tables.as_slice();
    stays(tables, kept)
        && kept.version <= db.version
        && kept.xdes <= db.last_xdes
        && kept.time <= db.time
        && are_changes_valid(tables, kept.version, kept.changes.as_slice())
}

/// Whether a kept commit may stand before another one: its version is lower, its time is not later, and it is another
/// transaction.
pub fn comes_before(kept: &Kept, later: &Kept) -> bool
    ensures { IsTrue result ↔ ComesBefore kept.now later.now }
{
    kept.version < later.version && kept.time <= later.time && kept.xdes != later.xdes
}
