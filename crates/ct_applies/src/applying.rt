ghost use Rattle.std.specs.Prelude.{◌≡◌, ◌≢◌, ◌↔◌, ◌+◌, ◌≤◌, ◌^◌, IsTrue, IfOk, if◌then◌else◌};
ghost use Rattle.std.specs.List.{AllByRecursion};
ghost use Rattle.ct_model.specs.Applies.{IsNewXdes, XdesApplies, Applies};

use crate::acts::act_applies;
use ct_model::Db;
use ct_types::{Act, Entry, Kept, Memory};
use std::alloc::Global;

/// The greatest version, time and transaction number.
pub const MOST: u64 = 1 << 62;

fn is_unused(xdes: u64, kept: &[Kept]) -> bool
    ensures { IsTrue result ↔ AllByRecursion (λ one. one.xdes ≢ xdes) kept.now }
{
    kept.iter().all(|one| one.xdes != xdes)
}

fn is_new_xdes(db: &Db, xdes: u64) -> bool
    ensures { IsTrue result ↔ IsNewXdes db.now xdes }
{
    xdes >= 1 && xdes <= MOST && is_unused(xdes, db.kept.as_slice())
}

fn xdes_applies(db: &Db, act: &Act, xdes: u64) -> bool
    ensures { IsTrue result ↔ XdesApplies db.now act.now xdes }
{
    match act {
        Act::Raise(_) => xdes == 0,
        _ => is_new_xdes(db, xdes),
    }
}

/// Whether an entry has the version that it may have behind this one: the next where it draws, and else the same.
pub fn version_applies(version: u64, entry: &Entry) -> bool
    ensures { IsTrue result ↔ (entry.now.version ≡ (if entry.now.draws then version + 1 else version)) }
{
    if entry.draws {
        entry.version >= 1 && entry.version - 1 == version
    } else {
        entry.version == version
    }
}

/// Whether an entry's time is not before this one, and its time and version are at most 2^62.
pub fn time_applies(time: u64, entry: &Entry) -> bool
    ensures { IsTrue result ↔ ((entry.now.version ≤ 2 ^ 62) × (time ≤ entry.now.time) × (entry.now.time ≤ 2 ^ 62)) }
{
    entry.version <= MOST && time <= entry.time && entry.time <= MOST
}

/// Whether an entry applies to a database: its version is the next one where it draws and else the last, its time is
/// not before the last, its transaction number is new (0 for a Raise), and its act fits, a commit's writes one after
/// the other. An entry that applies leaves a valid database valid.
///
/// The rules are this project's own.
pub fn applies(alloc: Global, db: &Db, entry: &Entry) -> Result<bool, Memory>
    ensures { IfOk result (λ b. IsTrue b ↔ Applies db.now entry.now) }
{
    if version_applies(db.version, entry)
        && time_applies(db.time, entry)
        && xdes_applies(db, &entry.act, entry.xdes)
    {
        act_applies(alloc, db, entry.version, entry.draws, &entry.act)
    } else {
        Ok(false)
    }
}
