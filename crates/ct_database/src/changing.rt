ghost use Rattle.std.specs.Prelude.{◌≡◌, ◌++◌, true, OnOk, OnErr};
ghost use Rattle.ct_model.specs.Apply.{keep_after, tables_after};
ghost use Rattle.ct_database.specs.Storable.{IsActStorable};
ghost use Rattle.ct_database.specs.Steps.{AreNewest, newest_of};

use crate::commits::Commits;
use crate::tables::Tables;
use ct_types::{Act, Keep, Kept, Memory, Tracked};
use std::sync::Arc;

/// The settings after an act.
pub(crate) fn keep_of(act: &Act, keep: Option<Keep>) -> Option<Keep>
    ensures { result ≡ keep_after act.now keep }
{
    match act {
        Act::Database(now) => *now,
        _ => keep,
    }
}

/// Does to the tables what an act of an entry with this version does, which the entry draws or not. Want of memory leaves
/// them as they were.
fn change_tables(tables: &mut Tables, act: Act, version: u64, draws: bool) -> Result<(), Memory>
    requires { IsActStorable tables.old act }
    ensures ok { OnOk result (tables.new ≡ tables_after act version draws tables.old) }
    ensures err { OnErr result (tables.new ≡ tables.old) }
{
    match act {
        Act::Commit(writes) => tables.write(writes),
        Act::Define(schema) => tables.define(schema),
        Act::Truncate(id) => tables.truncate(id, version, draws),
        Act::Enable { table, masks } => tables.track(
            table,
            Some(Tracked {
                min: version,
                masks,
            }),
        ),
        Act::Disable(id) => tables.track(id, None),
        Act::Database(_) => Ok(()),
        Act::Raise(minima) => tables.raise(minima.as_slice()),
    }
}

/// Does to the tables what an act does, and stores the commit of its entry, if that draws one, for which there is room. What was
/// stored stays, also where no table needs it any more. Want of memory leaves both as they were.
pub(crate) fn act_on(
    tables: &mut Tables,
    kept: &mut Commits,
    fresh: Option<Arc<Kept>>,
    act: Act,
    version: u64,
    draws: bool,
) -> Result<(), Memory>
    requires storable { IsActStorable tables.old act }
    requires room { kept.old.has_room ≡ true }
    requires above { AreNewest kept.old.commits (newest_of fresh) }
    ensures tables { OnOk result (tables.new ≡ tables_after act version draws tables.old) }
    ensures kept { OnOk result (kept.new.commits ≡ kept.old.commits ++ newest_of fresh) }
    ensures unchanged { OnErr result (tables.new ≡ tables.old) }
    ensures unkept { OnErr result (kept.new.commits ≡ kept.old.commits) }
{
    change_tables(tables, act, version, draws)?;
    kept.push(fresh);
    Ok(())
}
