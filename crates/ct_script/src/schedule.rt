ghost use Rattle.std.specs.Prelude.{◌≡◌, ◌+◌, ◌<◌, ◌^◌, ℕ, length, map, sum_by, slice_index, count_by, IfOk, OnOk, List as Listed};
ghost use Rattle.ct_script.specs.Schedule.{is_of, named, script_of};
ghost use Rattle.ct_script.specs.Placing.{lane_from, Counted};

use crate::lanes::place;
use crate::said::Said;
use crate::{Lane, Phase, Script};
use ct_types::{List, Memory};
use indexmap::IndexSet;
use std::alloc::Global;

/// How many statements each session had, by its number: none yet.
fn no_counts(alloc: Global) -> Result<Vec<u32>, Memory>
    ensures len { IfOk result (λ counts. length counts.items ≡ 256) }
    ensures zero { IfOk result (λ counts. (session : ℕ) → slice_index counts.items session ≡ 0) }
{
    Ok(vec![in alloc; 0u32; 256]?)
}

/// The lanes of a phase. Its statements are counted.
fn lanes_of(alloc: Global, counts: &mut [u32], phase: List<Said>) -> Result<List<Lane>, Memory>
    requires covers { length counts.old ≡ 256 }
    requires room { (session : ℕ) → slice_index counts.old session + length phase < 2 ^ 32 }
    ensures lanes { IfOk result (λ lanes. lanes ≡ map (lane_from counts.old phase) (named phase)) }
    ensures counted { OnOk result (Counted counts.old phase counts.new) }
{
    let mut sessions = IndexSet::new(alloc);
    let mut lanes = Vec::new(alloc);
    for said in phase.into_vec() {
        let session = usize::from(said.session());
        let first = counts[session] + 1;
        counts[session] = first;
        place(alloc, &mut sessions, &mut lanes, first, said)?;
    }
    Ok(List::from_vec(lanes))
}

/// The script of phases of statements.
pub(crate) fn script_of(alloc: Global, phases: List<List<Said>>) -> Result<Script, Memory>
    requires { sum_by length phases < 2 ^ 32 }
    ensures { IfOk result (λ script. script ≡ script_of phases) }
{
    let mut table = no_counts(alloc)?;
    let counts = table.as_mut_slice();
    let mut made = List::new(alloc);
    for phase in phases.into_vec() {
        let sessions = lanes_of(alloc, counts, phase)?;
        made.push(Phase {
            restart: false,
            sessions,
        })?;
    }
    Ok(Script { phases: made })
}
