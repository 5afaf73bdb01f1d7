ghost use Rattle.std.specs.Prelude.{◌≡◌, ◌++◌, OnOk};

use ct_types::{List, Memory};

/// Moves the items of a list to the end of another.
pub(crate) fn append<T: Drop>(all: &mut Vec<T>, more: List<T>) -> Result<(), Memory>
    ensures { OnOk result (all.new.items ≡ all.old.items ++ more) }
{
    all.append(&mut more.into_vec())?;
    Ok(())
}
