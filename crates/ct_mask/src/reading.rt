ghost use Rattle.std.specs.Prelude.{◌≡◌, pos};
ghost use Rattle.std.specs.Int.{from_le_bytes, w32};
ghost use Rattle.std.specs.Ordering.{int_eq};
ghost use Rattle.std.specs.Option.{option_map};
ghost use Rattle.ct_mask.specs.Masks as spec;

/// Whether the bytes of a mask tell a column: always where there is no mask, which stands for every column; else where
/// some whole group of four bytes, from the front, read as an unsigned number with the low byte first, is the id. Bytes
/// behind the last whole group say nothing.
pub fn read(mask: Option<&[u8]>, id: i64) -> bool
    ensures { result ≡ spec.reads (option_map (λ bytes. bytes.now) mask.entry) id }
{
    match mask {
        None => true,
        Some(bytes) => has_group(bytes, id),
    }
}

fn has_group(bytes: &[u8], id: i64) -> bool
    ensures { result ≡ spec.has_group bytes.now id }
{
    let mut rest = bytes;
    while let [a, b, c, d, more @ ..] = rest {
        if is_group([*a, *b, *c, *d], id) {
            return true;
        }
        rest = more;
    }
    false
}

fn is_group(group: [u8; 4], id: i64) -> bool
    ensures { result ≡ int_eq (pos (from_le_bytes w32 group)) id }
{
    i64::from(u32::from_le_bytes(group)) == id
}
