ghost use Rattle.std.specs.Prelude.{◌≡◌, ◌≢◌, ◌↔◌, ◌≤◌, true, IsTrue, IfOk};
ghost use Rattle.std.specs.List.{AllByRecursion};
ghost use Rattle.ct_model.specs.Applies.{IsNewXdes, XdesApplies, Applies};
ghost use Rattle.ct_redo.specs.Numbers.{AreNumbersWithin};

use crate::acts::act_applies;
use ct_applies::{MOST, time_applies, version_applies};
use ct_database::{Committed, Database};
use ct_types::{Act, Entry, Memory};
use std::alloc::Global;

fn is_unused(xdes: u64, kept: &[Committed]) -> bool
    ensures { IsTrue result ↔ AllByRecursion (λ one. one.xdes ≢ xdes) kept.now }
{
    kept.iter().all(|one| one.xdes != xdes)
}

/// Whether no kept commit has this transaction number, by a walk over them.
fn is_unkept(alloc: Global, database: &Database, xdes: u64) -> Result<bool, Memory>
    ensures { IfOk result (λ b. IsTrue b ↔ AllByRecursion (λ one. one.xdes ≢ xdes) database.now.kept) }
{
    let kept = database.kept(alloc)?;
    Ok(is_unused(xdes, kept.as_slice()))
}

fn are_up_to(last: u64, kept: &[Committed]) -> bool
    ensures { IsTrue result ↔ AllByRecursion (λ one. one.xdes ≤ last) kept.now }
{
    kept.iter().all(|one| one.xdes <= last)
}

/// Whether no kept commit has a transaction number above the last one, by a walk over them. So it is in a valid database.
pub(crate) fn are_numbers_within(alloc: Global, database: &Database) -> Result<bool, Memory>
    ensures { IfOk result (λ b. IsTrue b ↔ AreNumbersWithin database.now) }
{
    let kept = database.kept(alloc)?;
    Ok(are_up_to(database.last_xdes(), kept.as_slice()))
}

/// Whether no kept commit has this transaction number. Where none has one above the last, a number above that is new without a
/// walk.
#[tactic(auto, using(crate::proofs::Numbers::above_all))]
fn is_new_number(
    alloc: Global,
    database: &Database,
    within: bool,
    xdes: u64,
) -> Result<bool, Memory>
    requires { within ≡ true → AreNumbersWithin database.now }
    ensures { IfOk result (λ b. IsTrue b ↔ AllByRecursion (λ one. one.xdes ≢ xdes) database.now.kept) }
{
    if within && xdes > database.last_xdes() {
        Ok(true)
    } else {
        is_unkept(alloc, database, xdes)
    }
}

fn is_new_xdes(alloc: Global, database: &Database, within: bool, xdes: u64) -> Result<bool, Memory>
    requires { within ≡ true → AreNumbersWithin database.now }
    ensures { IfOk result (λ b. IsTrue b ↔ IsNewXdes database.now xdes) }
{
    if xdes < 1 || xdes > MOST {
        return Ok(false);
    }
    is_new_number(alloc, database, within, xdes)
}

fn xdes_applies(
    alloc: Global,
    database: &Database,
    within: bool,
    act: &Act,
    xdes: u64,
) -> Result<bool, Memory>
    requires { within ≡ true → AreNumbersWithin database.now }
    ensures { IfOk result (λ b. IsTrue b ↔ XdesApplies database.now act.now xdes) }
{
    match act {
        Act::Raise(_) => Ok(xdes == 0),
        _ => is_new_xdes(alloc, database, within, xdes),
    }
}

/// Whether an entry applies to a database, of which the caller may know that no kept commit has a transaction number above the
/// last one.
pub(crate) fn applies_within(
    alloc: Global,
    database: &Database,
    within: bool,
    entry: &Entry,
) -> Result<bool, Memory>
    requires { within ≡ true → AreNumbersWithin database.now }
    ensures { IfOk result (λ b. IsTrue b ↔ Applies database.now entry.now) }
{
    if version_applies(database.version(), entry)
        && time_applies(database.time(), entry)
        && xdes_applies(alloc, database, within, &entry.act, entry.xdes)?
    {
        act_applies(alloc, database, entry.version, entry.draws, &entry.act)
    } else {
        Ok(false)
    }
}

/// Whether an entry applies to a database: its version is the next one where it draws and else the last, its time is
/// not before the last, its transaction number is new (0 for a Raise), and its act fits, a commit's writes one after
/// the other. An entry that applies leaves a valid database valid.
///
/// It costs what the entry touches, and a walk over all commits that are kept. The rules are this project's own. `Memory` is the
/// only error.
pub fn applies(alloc: Global, database: &Database, entry: &Entry) -> Result<bool, Memory>
    ensures { IfOk result (λ b. IsTrue b ↔ Applies database.now entry.now) }
{
    applies_within(alloc, database, false, entry)
}
