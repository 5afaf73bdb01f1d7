ghost use Rattle.std.specs.Prelude.{◌≡◌};
ghost use Rattle.std.specs.List.{list_any};
ghost use Rattle.ct_write.specs.Duplicates as spec;

use ct_source::Stored;
use ct_types::{Key, Op, Write, cmp_key};
use std::cmp::Ordering;

fn is_insert(op: Op) -> bool
    ensures { result ≡ spec.is_insert op }
{
    op == Op::Insert
}

fn inserts_key(key: &Key, write: &Write) -> bool
    ensures { result ≡ spec.inserts_key key.now write.now }
{
    is_insert(write.op) && cmp_key(&write.key, key) == Ordering::Equal
}

fn is_inserted(earlier: &[Write], key: &Key) -> bool
    ensures { result ≡ list_any (spec.inserts_key key.now) earlier.now }
{
    earlier.iter().any(|write| inserts_key(key, write))
}

fn repeats(table: &Stored, earlier: &[Write], write: &Write) -> bool
    ensures { result ≡ spec.repeats table.now.schema table.now.rows earlier.now write.now }
{
    is_insert(write.op) && (table.has(&write.key) || is_inserted(earlier, &write.key))
}

/// The place, counted from 0, of the first insert whose key one of the table's rows or an earlier insert has; none where
/// there is none. Each key is looked up among the rows. An INSERT of such a key is refused with 2627, as T-SQL refuses it.
pub fn duplicate(writes: &[Write], table: &Stored) -> Option<usize>
    ensures { result ≡ spec.duplicate table.now.schema table.now.rows writes.now }
{
    for (place, write) in writes.iter().enumerate() {
        if repeats(table, &writes[..place], write) {
            return Some(place);
        }
    }
    None
}
