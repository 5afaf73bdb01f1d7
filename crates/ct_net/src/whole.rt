ghost use Rattle.std.specs.Prelude.{◌≡◌, ◌==◌, ◌+◌, ◌-◌, ◌<◌, ◌^◌, length};
ghost use Rattle.std.specs.Int.{bit_at};
ghost use Rattle.std.specs.List.{list_any};
ghost use Rattle.ct_model.specs.Net.{has_others as has_every_other, is_whole as has_all_others};

use ct_types::{Column, Schema};

fn is_key_column(key: &[u16], id: usize) -> bool
    ensures { result ≡ list_any (λ k. k == id) key.now }
{
    key.iter().any(|k| usize::from(*k) == id)
}

/// Whether a mask has the column of this id.
fn has_column(mask: u64, id: usize) -> bool
    ensures { result ≡ (bit_at mask (id - 1) == 1) }
{
    let place = id.saturating_sub(1);
    place < 64 && (mask >> place) & 1 == 1
}

/// Whether a mask has every column outside the key, of these that are numbered from an id on.
fn has_others(key: &[u16], mask: u64, id: usize, columns: &[Column]) -> bool
    requires { id + length columns.now < 2 ^ 64 }
    ensures { result ≡ has_every_other key.now mask id columns.now }
{
    match columns {
        [] => true,
        [_, columns @ ..] => {
            (is_key_column(key, id) || has_column(mask, id))
                && has_others(key, mask, id + 1, columns)
        }
    }
}

/// Whether a mask has every column of a table outside its key.
pub(crate) fn is_whole(schema: &Schema, mask: u64) -> bool
    ensures { result ≡ has_all_others schema.now mask }
{
    has_others(schema.key.as_slice(), mask, 1, schema.columns.as_slice())
}
