ghost use Rattle.std.specs.Prelude.{◌≡◌};
ghost use Rattle.ct_types.specs.Order.{value_cmp, key_cmp};

use crate::{Key, Value};
use std::cmp::Ordering;

/// The order of values: NULL, numbers, texts by code point, bytes. This project's own.
pub fn cmp_value(a: &Value, b: &Value) -> Ordering
    ensures { result ≡ value_cmp a.now b.now }
{
    a.cmp(b)
}

/// The order of keys: column by column in key order, a proper prefix first. This project's own.
pub fn cmp_key(a: &Key, b: &Key) -> Ordering
    ensures { result ≡ key_cmp a.now b.now }
{
    a.cmp(b)
}
