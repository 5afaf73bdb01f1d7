ghost use Rattle.std.specs.Prelude.{◌≡◌, ◌==◌, is_some, IfOk};
ghost use Rattle.std.specs.Option.{option_copied};
ghost use Rattle.ct_model.specs.Net.{is_insert, op_after};
ghost use Rattle.ct_net.specs.Standings.{told_by, shown};
ghost use Rattle.ct_net.specs.Steps.{creation_after, columns_before, columns_after, standing_after};

use crate::whole::is_whole;
use ct_types::{Change, Copies, Memory, NetRow, Op, Schema};
use std::alloc::Global;
use std::marker::Model;

/// What the changes of a key come to so far: all that its net row needs of them. The last change is lent.
#[derive(Drop)]
pub(crate) struct State<'a> {
    /// The version of the last change.
    version: u64,
    change: &'a Change,
    /// The version of the last insert.
    creation: Option<u64>,
    /// The columns that a U tells; none where they are not told.
    columns: Option<u64>,
}

impl<'a> Model for State<'a> {
    ghost use Rattle.ct_net.specs.Standings.{Standing};

    ghost Value = { Standing };

    ghost view = { λ it. record { last = record { version = it.version; change = it.change.now }; creation = it.creation; columns = it.columns } };
}

fn inserts(op: Op) -> bool
    ensures { result ≡ is_insert op }
{
    op == Op::Insert
}

/// The version of the last insert once a change with this operation is behind it.
fn later_creation(creation: Option<u64>, version: u64, change: &Change) -> Option<u64>
    ensures { result ≡ creation_after creation (record { version = version; change = change.now }) }
{
    if inserts(change.op) {
        Some(version)
    } else {
        creation
    }
}

fn no_columns(masks: bool) -> Option<u64>
    ensures { result ≡ columns_before masks }
{
    if masks { Some(0) } else { None }
}

/// The columns that are told once a mask is among them.
fn later_columns(schema: &Schema, columns: Option<u64>, mask: u64) -> Option<u64>
    ensures { result ≡ columns_after schema.now columns mask }
{
    match columns {
        None => None,
        Some(set) => {
            if is_whole(schema, mask) {
                None
            } else {
                Some(set | mask)
            }
        }
    }
}

/// The operation that a net row has.
fn net_op(last: Op, inserted: bool) -> Op
    ensures { result ≡ op_after last inserted }
{
    match last {
        Op::Delete => Op::Delete,
        Op::Insert | Op::Update => { if inserted { Op::Insert } else { Op::Update } }
    }
}

fn told(op: Op, columns: Option<u64>) -> Option<u64>
    ensures { result ≡ told_by op columns }
{
    match op {
        Op::Update => columns,
        Op::Insert | Op::Delete => None,
    }
}

impl<'a> State<'a> {
    /// What the changes of a key come to with one more, behind those that came to this.
    pub(crate) fn after(
        old: Option<&State<'a>>,
        schema: &Schema,
        masks: bool,
        version: u64,
        change: &'a Change,
    ) -> State<'a>
        ensures { result ≡ standing_after schema.now masks (option_copied old.entry) (record { version = version; change = change.now }) }
    {
        match old {
            None => State {
                version,
                change,
                creation: later_creation(None, version, change),
                columns: later_columns(schema, no_columns(masks), change.mask),
            },
            Some(old) => State {
                version,
                change,
                creation: later_creation(old.creation, version, change),
                columns: later_columns(schema, old.columns, change.mask),
            },
        }
    }

    /// The net row.
    pub(crate) fn row(&self, alloc: Global) -> Result<NetRow, Memory>
        ensures { IfOk result (λ made. made ≡ shown self.now) }
    {
        let op = net_op(self.change.op, self.creation.is_some());
        Ok(NetRow {
            version: self.version,
            creation: self.creation,
            op,
            mask: told(op, self.columns),
            context: self.change.context.copy(alloc)?,
            key: self.change.key.copy(alloc)?,
        })
    }
}
