ghost use Rattle.std.specs.Prelude.{◌≡◌};
ghost use Rattle.std.specs.List.{list_any};
ghost use Rattle.ct_model.specs.declared.db.Db.{Db};
ghost use Rattle.ct_state.specs.Replies.{is_memory};
ghost use Rattle.ct_machine.specs.Reads.{catalogue, tracks};
ghost use Rattle.ct_machine.specs.Step.{act_draws, has_number as act_has_number};

use ct_types::{Act, Catalogued, Refusal, Reply, Write};

/// Whether a reply says that memory was wanting.
pub fn wants_memory(reply: &Reply) -> bool
    ensures { result ≡ is_memory reply.now }
{
    matches!(reply, Reply::Refused(Refusal::Memory))
}

fn any_tracked(writes: &[Write]) -> bool
    ensures { result ≡ list_any (λ write. write.tracked) writes.now }
{
    writes.iter().any(|write| write.tracked)
}

/// Whether the catalogue has the table of an id, and tracks it.
fn is_tracked(tables: &[Catalogued], id: u32) -> bool
    ensures { result ≡ tracks tables.now id }
{
    match tables {
        [] => false,
        [table, more @ ..] => {
            if table.schema.id == id {
                table.tracked.is_some()
            } else {
                is_tracked(more, id)
            }
        }
    }
}

/// Whether an entry with this act draws a version, in a database with this catalogue: a commit that changes a tracked row, as
/// its writes say, an ENABLE, and the TRUNCATE of a tracked table. The rule is this project's own.
#[tactic(auto, using(crate::proofs::Draws::tracks_so))]
pub fn draws_version(tables: &[Catalogued], act: &Act) -> bool
    ensures { (db : Db) → tables.now ≡ catalogue db → result ≡ act_draws db act.now }
{
    match act {
        Act::Commit(writes) => any_tracked(writes.as_slice()),
        Act::Enable { .. } => true,
        Act::Truncate(id) => is_tracked(tables, *id),
        Act::Define(_) | Act::Disable(_) | Act::Database(_) | Act::Raise(_) => false,
    }
}

/// Whether an entry with this act has a transaction number of its own: each has, but a raise of minima. The rule is this
/// project's own.
pub fn has_number(act: &Act) -> bool
    ensures { result ≡ act_has_number act.now }
{
    !matches!(act, Act::Raise(_))
}
