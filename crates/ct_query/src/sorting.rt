ghost use Rattle.std.specs.Prelude.{◌≡◌, IfOk};
ghost use Rattle.ct_query.specs.Answer.{comes_before};
ghost use Rattle.ct_query.specs.Sorting as spec;

use crate::shown::Shown;
use ct_types::{Memory, OrderBy, Value, cmp_value};
use std::cmp::Ordering;

/// The order of two values by one part of ORDER BY: DESC turns it round.
fn cmp_part(down: bool, a: &Value, b: &Value) -> Ordering
    ensures { result ≡ spec.part_cmp down a.now b.now }
{
    let order = cmp_value(a, b);
    if down { order.reverse() } else { order }
}

/// The order of two rows by their values of all parts.
fn cmp_keys(parts: &[OrderBy], a: &[Value], b: &[Value]) -> Ordering
    ensures { result ≡ spec.keys_cmp parts.now a.now b.now }
{
    let mut a_rest = a;
    let mut b_rest = b;
    for part in parts {
        match (a_rest, b_rest) {
            ([], []) => return Ordering::Equal,
            ([], _) => return Ordering::Less,
            (_, []) => return Ordering::Greater,
            ([x, a_more @ ..], [y, b_more @ ..]) => {
                let order = cmp_part(part.down, x, y);
                if order != Ordering::Equal {
                    return order;
                }
                a_rest = a_more;
                b_rest = b_more;
            }
        }
    }
    Ordering::Equal
}

/// The rows in the order of ORDER BY. Those that tie stay as they stand.
pub(crate) fn sorted(parts: &[OrderBy], rows: Vec<Shown>) -> Result<Vec<Shown>, Memory>
    ensures { IfOk result (λ made. made.items ≡ spec.in_order (comes_before parts.now) rows.items) }
{
    let mut made = rows;
    made.sort_by(|a, b| cmp_keys(parts, a.keys.as_slice(), b.keys.as_slice()))?;
    Ok(made)
}
