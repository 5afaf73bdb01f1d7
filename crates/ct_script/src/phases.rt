ghost use Rattle.std.specs.Prelude.{◌≡◌, ◌<◌, ◌^◌, length, sum_by, IfOk};
ghost use Rattle.std.specs.Str.Lines.{lines};
ghost use Rattle.ct_script.specs.Reading.{Finds, error_at, start, run};

use crate::ScriptError;
use crate::lines::first_line;
use crate::reading::{LineFault, Reading};
use crate::said::Said;
use ct_types::List;
use std::alloc::Global;

/// The error of a line with this number.
fn error_at(number: u32, fault: LineFault) -> ScriptError
    ensures { result ≡ error_at number fault }
{
    match fault {
        LineFault::Broken(rule) => ScriptError::BadScript { line: number, rule },
        LineFault::Memory => ScriptError::Memory,
    }
}

/// The phases of a script's bytes, each the list of its statements.
pub(crate) fn read_phases(alloc: Global, bytes: &[u8]) -> Result<List<List<Said>>, ScriptError>
    requires { length bytes.now < 2 ^ 32 }
    ensures found { Finds result (run 1 start (lines bytes.now)) }
    ensures few { IfOk result (λ phases. sum_by length phases < 2 ^ 32) }
{
    let mut reading = Reading::new(alloc);
    let mut rest = bytes;
    let mut number: u32 = 0;
    while !rest.is_empty() {
        let (line, after) = first_line(rest);
        number += 1;
        if let Err(fault) = reading.take(alloc, line) {
            return Err(error_at(number, fault));
        }
        rest = after;
    }
    Ok(reading.finish()?)
}
