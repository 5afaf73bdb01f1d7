ghost use Rattle.std.specs.Prelude.{◌≡◌, ◌==◌, ◌+◌, ◌-◌, ◌<◌, ◌^◌, ◌≤◌, length, fold, bit_or};
ghost use Rattle.std.specs.Int.{bit_at};
ghost use Rattle.std.specs.List.{list_any};
ghost use Rattle.ct_model.specs.Net.{has_others as has_every_other, is_whole as has_all_others, union_of, mask_of};

use crate::Dated;
use ct_types::{Column, Op, Schema};

fn is_key_column(key: &[u16], id: usize) -> bool
    ensures { result ≡ list_any (λ k. k == id) key.now }
{
    key.iter().any(|k| usize::from(*k) == id)
}

/// Whether a mask has the column of this id.
fn has_column(mask: u64, id: usize) -> bool
    ensures { result ≡ (bit_at mask (id - 1) == 1) }
{
    let place = id.saturating_sub(1);
    place < 64 && (mask >> place) & 1 == 1
}

/// Whether a mask has every column outside the key, of these that are numbered from an id on.
fn has_others(key: &[u16], mask: u64, id: usize, columns: &[Column]) -> bool
    requires { id + length columns.now < 2 ^ 64 }
    ensures { result ≡ has_every_other key.now mask id columns.now }
{
    match columns {
        [] => true,
        [_, columns @ ..] => {
            (is_key_column(key, id) || has_column(mask, id))
                && has_others(key, mask, id + 1, columns)
        }
    }
}

fn is_whole(schema: &Schema, mask: u64) -> bool
    ensures { result ≡ has_all_others schema.now mask }
{
    has_others(schema.key.as_slice(), mask, 1, schema.columns.as_slice())
}

fn has_whole(schema: &Schema, changes: &[Dated]) -> bool
    ensures { result ≡ list_any (λ dated. has_all_others schema.now dated.change.mask) changes.now }
{
    changes
        .iter()
        .any(|dated| is_whole(schema, dated.change.mask))
}

fn union(changes: &[Dated]) -> u64
    ensures { result ≡ union_of changes.now }
{
    let mut mask = 0;
    for dated in changes {
        mask |= dated.change.mask;
    }
    mask
}

/// The columns that a net row tells.
pub(crate) fn net_mask(schema: &Schema, masks: bool, op: Op, changes: &[Dated]) -> Option<u64>
    ensures { result ≡ mask_of schema.now masks op changes.now }
{
    match op {
        Op::Update => {
            if masks && !has_whole(schema, changes) {
                Some(union(changes))
            } else {
                None
            }
        }
        Op::Insert | Op::Delete => None,
    }
}
