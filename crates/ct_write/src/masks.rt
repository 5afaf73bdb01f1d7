ghost use Rattle.std.specs.Prelude.{◌≡◌, IfOk};
ghost use Rattle.std.specs.List.{All};
ghost use Rattle.ct_mask.specs.Masks.{IsId};
ghost use Rattle.ct_write.specs.Writes as spec;

use crate::values::set_columns;
use ct_mask::Mask;
use ct_types::{Memory, Op, RowChange, Tracked};
use std::alloc::Global;

pub(crate) fn op_of(change: &RowChange) -> Op
    ensures { result ≡ spec.op_of change.now }
{
    match change {
        RowChange::Insert { .. } => Op::Insert,
        RowChange::Update { .. } => Op::Update,
        RowChange::Delete { .. } => Op::Delete,
    }
}

/// The set of these columns as the number that a change keeps.
fn mask_of_ids(ids: &[u16]) -> u64
    requires { All IsId ids.now }
    ensures { result ≡ spec.mask_of_ids ids.now }
{
    Mask::of(ids).bits()
}

/// The columns that an update of a table with masks sets; else none.
pub(crate) fn mask_of(
    alloc: Global,
    tracked: Option<Tracked>,
    change: &RowChange,
) -> Result<u64, Memory>
    requires { spec.NamesIds change.now }
    ensures { IfOk result (λ mask. mask ≡ spec.mask_of tracked change.now) }
{
    match change {
        RowChange::Update { sets, .. } => {
            if tracked.is_some_and(|tracked| tracked.masks) {
                Ok(mask_of_ids(set_columns(alloc, sets.as_slice())?.as_slice()))
            } else {
                Ok(0)
            }
        }
        _ => Ok(0),
    }
}
