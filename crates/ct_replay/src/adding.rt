ghost use Rattle.std.specs.Prelude.{◌≡◌, None, IfOk, IfSome};
ghost use Rattle.ct_types.specs.declared.entry.Entry.{Entry as AnEntry};
ghost use Rattle.ct_codec.specs.EntryReaders.{entry_of};
ghost use Rattle.ct_replay.specs.Replay.{Adds};

use crate::keys::keyed;
use ct_applies::applies;
use ct_codec::{CodecError, get_entry};
use ct_model::Db;
use ct_types::{Entry, Memory};
use std::alloc::Global;

/// The entry that bytes spell, without the keys that its rows have, or none.
pub fn spelled_entry(alloc: Global, payload: &[u8]) -> Result<Option<Entry>, Memory>
    ensures { IfOk result (λ found. found ≡ entry_of payload.now) }
{
    match get_entry(alloc, payload) {
        Ok(entry) => Ok(Some(entry)),
        Err(CodecError::NotCanonical) => Ok(None),
        Err(CodecError::Memory) => Err(Memory),
    }
}

/// The entry that a payload adds to a database, or none where it adds none.
pub fn added(alloc: Global, db: &Db, payload: &[u8]) -> Result<Option<Entry>, Memory>
    ensures some { IfOk result (λ found. IfSome found (Adds db.now payload.now)) }
    ensures none { IfOk result (λ found. found ≡ None → (entry : AnEntry) → Adds db.now payload.now entry → ⊥) }
{
    let Some(bare) = spelled_entry(alloc, payload)? else {
        return Ok(None);
    };
    let entry = keyed(alloc, db.tables.as_slice(), bare)?;
    if applies(alloc, db, &entry)? {
        Ok(Some(entry))
    } else {
        Ok(None)
    }
}
