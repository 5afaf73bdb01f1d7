ghost use Rattle.std.specs.Prelude.{◌≡◌, map, IfOk};
ghost use Rattle.ct_locks.specs.Holdings.{taken_of, taken_on};

use ct_types::{Copies, Key, Memory, Write};
use std::alloc::Global;

/// A key of a table that a session took.
#[derive(Drop)]
pub(crate) struct Taken {
    pub(crate) table: u32,
    pub(crate) key: Key,
}

/// Copies keys of a table.
pub(crate) fn copy_keys(alloc: Global, table: u32, keys: &[Key]) -> Result<Vec<Taken>, Memory>
    ensures { IfOk result (λ made. made.items ≡ map (taken_on table) keys.now) }
{
    let mut made = Vec::with_capacity(alloc, keys.len())?;
    for key in keys {
        made.push(Taken {
            table,
            key: key.copy(alloc)?,
        })?;
    }
    Ok(made)
}

/// Copies the keys of writes, each with its table.
pub(crate) fn copy_write_keys(alloc: Global, writes: &[Write]) -> Result<Vec<Taken>, Memory>
    ensures { IfOk result (λ made. made.items ≡ map taken_of writes.now) }
{
    let mut made = Vec::with_capacity(alloc, writes.len())?;
    for write in writes {
        made.push(Taken {
            table: write.table,
            key: write.key.copy(alloc)?,
        })?;
    }
    Ok(made)
}
