ghost use Rattle.std.specs.Prelude.{◌<◌, ◌^◌, length};
ghost use Rattle.ct_script.specs.Answer.{Reads};

use crate::phases::read_phases;
use crate::schedule::script_of;
use crate::{Script, ScriptError};
use std::alloc::Global;

/// Reads a script of fewer than 4,294,967,296 bytes.
///
/// `BadScript` comes exactly where a line is at fault, and names the first such line with the least rule that it breaks. The form
/// and its rules are this project's own; docs/SCRIPT.md states them.
pub fn read_script(alloc: Global, bytes: &[u8]) -> Result<Script, ScriptError>
    requires { length bytes.now < 2 ^ 32 }
    ensures { Reads bytes.now result }
{
    let phases = read_phases(alloc, bytes)?;
    Ok(script_of(alloc, phases)?)
}
