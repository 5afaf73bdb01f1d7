ghost use Rattle.std.specs.Prelude.{◌≡◌, IfOk};
ghost use Rattle.ct_database.specs.Steps.{version_key as key_of_version};

use ct_types::{Key, List, Memory, Value, push};
use std::alloc::Global;

/// The key of a version: keys stand in the order of their versions. A key holds an i64, so 2^63 is taken off.
#[tactic(auto, unfolding(crate::specs::Steps::version_key))]
pub(crate) fn version_key(alloc: Global, version: u64) -> Result<Key, Memory>
    ensures { IfOk result (λ made. made ≡ key_of_version version) }
{
    let place = (i128::from(version) - (1 << 63)) as i64;
    let mut values = List::new(alloc);
    push(&mut values, Value::Int(place))?;
    Ok(Key(values))
}
