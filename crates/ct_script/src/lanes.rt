ghost use Rattle.std.specs.Prelude.{◌≡◌, ◌<◌, ◌++◌, ◌∷◌, [], length, nat_eq, vec_len, OnOk};
ghost use Rattle.indexmap.specs.IndexSet.{insert_key, IsUnique};
ghost use Rattle.ct_script.specs.Placing.{placed, with_text_at};

use crate::Lane;
use crate::said::Said;
use ct_types::{List, Memory, Text};
use indexmap::IndexSet;
use std::alloc::Global;

/// Adds a text at the end of a lane.
fn add_text(lanes: &mut Vec<Lane>, index: usize, text: Text) -> Result<(), Memory>
    requires { index < vec_len lanes.old }
    ensures { OnOk result (lanes.new.items ≡ with_text_at index text lanes.old.items) }
{
    let lane = &mut lanes[index];
    lane.statements.push(text)?;
    Ok(())
}

/// Puts a statement into the lane of its session. A session that has none gets one, whose first statement has this number.
pub(crate) fn place(
    alloc: Global,
    sessions: &mut IndexSet<u8>,
    lanes: &mut Vec<Lane>,
    first: u32,
    said: Said,
) -> Result<(), Memory>
    requires { length lanes.old.items ≡ length sessions.old.keys }
    ensures sessions { OnOk result (sessions.new.keys ≡ insert_key nat_eq sessions.old.keys said.session) }
    ensures lanes { OnOk result (lanes.new.items ≡ placed sessions.old.keys lanes.old.items first said) }
    ensures unique { IsUnique nat_eq sessions.new }
{
    let session = said.session();
    let (index, is_new) = sessions.insert_full(session)?;
    if is_new {
        lanes.push(Lane {
            session,
            first,
            statements: List::new(alloc),
        })?;
    }
    add_text(lanes, index, said.into_text())
}
