ghost use Rattle.std.specs.Prelude.{◌≡◌, None, true, IfOk, IfSome};
ghost use Rattle.ct_types.specs.declared.entry.Entry.{Entry as AnEntry};
ghost use Rattle.ct_replay.specs.Replay.{Adds};
ghost use Rattle.ct_redo.specs.Numbers.{AreNumbersWithin};
ghost use Rattle.ct_redo.specs.Steps.{IsRedone};

use crate::applying::applies_within;
use crate::keys::keyed;
use ct_database::{Database, applying_is_storable};
use ct_replay::spelled_entry;
use ct_types::{Entry, Memory};
use std::alloc::Global;

/// The entry that a payload adds to a database, or none where it adds none.
fn added(
    alloc: Global,
    database: &Database,
    within: bool,
    payload: &[u8],
) -> Result<Option<Entry>, Memory>
    requires { within ≡ true → AreNumbersWithin database.now }
    ensures some { IfOk result (λ found. IfSome found (Adds database.now payload.now)) }
    ensures none { IfOk result (λ found. found ≡ None → (entry : AnEntry) → Adds database.now payload.now entry → ⊥) }
{
    let Some(bare) = spelled_entry(alloc, payload)? else {
        return Ok(None);
    };
    let entry = keyed(alloc, database, bare)?;
    if applies_within(alloc, database, within, &entry)? {
        Ok(Some(entry))
    } else {
        Ok(None)
    }
}

/// Adds the entry of a payload to a database, and tells whether there was one.
pub(crate) fn add(
    alloc: Global,
    database: &mut Database,
    within: bool,
    payload: &[u8],
) -> Result<bool, Memory>
    requires { within ≡ true → AreNumbersWithin database.old }
    ensures { IfOk result (λ was. IsRedone within database.old payload.now was database.new) }
{
    match added(alloc, database, within, payload)? {
        Some(entry) => {
            applying_is_storable();
            database.apply(entry)?;
            Ok(true)
        }
        None => Ok(false),
    }
}
