ghost use Rattle.std.specs.Prelude.{◌≡◌, OnOk, OnErr};
ghost use Rattle.ct_model.specs.Apply.{keep_after, apply as applied};

use crate::Db;
use crate::tables::change_tables;
use crate::trim::{trim_all, with_entry};
use ct_types::{Act, Entry, Keep, Memory};
use std::alloc::Global;

fn keep_of(act: &Act, keep: Option<Keep>) -> Option<Keep>
    ensures { result ≡ keep_after act.now keep }
{
    match act {
        Act::Database(now) => *now,
        _ => keep,
    }
}

/// Makes of a database what one committed entry makes of it. It is meant for an entry that applies, as `applies`
/// tells; any other entry is taken by the same rules.
///
/// Want of memory leaves the database as it was.
#[tactic(auto, unfolding(crate::specs::Apply::apply))]
pub fn apply(alloc: Global, db: &mut Db, entry: &Entry) -> Result<(), Memory>
    ensures ok { OnOk result (db.new ≡ applied db.old entry.now) }
    ensures err { OnErr result (db.new ≡ db.old) }
{
    let tables = change_tables(
        alloc,
        &entry.act,
        entry.version,
        entry.draws,
        db.tables.as_slice(),
    )?;
    let kept = with_entry(alloc, entry, &db.kept)?;
    let kept = trim_all(alloc, tables.as_slice(), kept.as_slice())?;
    *db = Db {
        version: entry.version,
        time: entry.time,
        last_xdes: db.last_xdes.max(entry.xdes),
        keep: keep_of(&entry.act, db.keep),
        tables,
        kept,
    };
    Ok(())
}
