ghost use Rattle.std.specs.Prelude.{◌≡◌, IfOk};
ghost use Rattle.ct_faults.specs.Bytes.{most_bytes};
ghost use Rattle.ct_script.specs.Size.{IsLaneWithin, IsPhaseWithin, IsWithin};
ghost use Rattle.ct_model.specs.Apply.{no_db};
ghost use Rattle.ct_state.specs.Machine.{opening};
ghost use Rattle.ct_core.specs.Stands.{Stands};
ghost use Rattle.ct_run.specs.Schedule.{numbered_in_lane, numbered_in};
ghost use Rattle.ct_print.specs.Growing.{with_phase};
ghost use Rattle.ct_run.specs.Steps.{Goes, HasRun};

use crate::Gate;
use crate::command::command_of;
use ct_core::Core;
use ct_print::Transcript;
use ct_script::{Lane, Phase, Script};
use ct_types::{Journaled, Memory};
use std::alloc::Global;

/// Plays the statements of a lane, one after the other, puts their blocks into the transcript, and tells the gate of each.
fn play_lane<D, G: Gate>(
    alloc: Global,
    core: &mut Core<D>,
    transcript: &mut Transcript,
    lane: &Lane,
    gate: &G,
) -> Result<(), Memory>
    requires { IsLaneWithin most_bytes lane.now }
    ensures goes { IfOk result (λ _. Goes (numbered_in_lane lane.now) transcript.old transcript.new core.old core.new) }
    ensures disk { core.new.disk ≡ core.old.disk }
{
    let mut number = lane.first;
    for text in lane.statements.as_slice() {
        let what = command_of(alloc, text)?;
        gate.before(lane.session, number);
        let reply = core.event(alloc, lane.session, &what);
        gate.after(lane.session, number);
        transcript.block(&Journaled {
            session: lane.session,
            number,
            what,
            reply,
        })?;
        number += 1;
    }
    Ok(())
}

/// Plays a phase: its lanes, one after the other.
fn play_phase<D, G: Gate>(
    alloc: Global,
    core: &mut Core<D>,
    transcript: &mut Transcript,
    phase: &Phase,
    gate: &G,
) -> Result<(), Memory>
    requires { IsPhaseWithin most_bytes phase.now }
    ensures goes { IfOk result (λ _. Goes (numbered_in phase.now) (with_phase transcript.old) transcript.new core.old core.new) }
    ensures disk { core.new.disk ≡ core.old.disk }
{
    transcript.phase()?;
    for lane in phase.sessions.as_slice() {
        play_lane(alloc, core, transcript, lane, gate)?;
    }
    Ok(())
}

/// Plays the phases of a script, from a core that stands for the opening of the empty database: the run's transcript.
fn play_all<D, G: Gate>(
    alloc: Global,
    core: &mut Core<D>,
    script: &Script,
    gate: &G,
) -> Result<Transcript, Memory>
    requires within { IsWithin most_bytes script.now }
    requires opening { Stands core.old (opening no_db) }
    ensures run { IfOk result (HasRun script.now) }
    ensures disk { core.new.disk ≡ core.old.disk }
{
    let mut transcript = Transcript::new(alloc);
    for phase in script.phases.as_slice() {
        play_phase(alloc, core, &mut transcript, phase, gate)?;
    }
    Ok(transcript)
}

/// Plays a script from the empty database: the run's transcript. The core has the disk meanwhile, which comes back as it
/// was handed in.
pub(crate) fn play_script<D, G: Gate>(
    alloc: Global,
    script: &Script,
    disk: D,
    gate: &G,
) -> (Result<Transcript, Memory>, D)
    requires { IsWithin most_bytes script.now }
    ensures run { IfOk result.0 (HasRun script.now) }
    ensures disk { result.1 ≡ disk }
{
    match Core::fresh(alloc, disk) {
        Err((disk, Memory)) => (Err(Memory), disk),
        Ok(mut core) => {
            let played = play_all(alloc, &mut core, script, gate);
            (played, core.close())
        }
    }
}
