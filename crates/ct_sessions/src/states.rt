ghost use Rattle.std.specs.Prelude.{◌≡◌, ◌≢◌, false, true, None, OnOk, OnErr};
ghost use Rattle.ct_bind_names.specs.Catalogue.{is_declared};
ghost use Rattle.ct_session.specs.SetDeclare.{with_value, with_variable};
ghost use Rattle.ct_session.specs.Sessions.{begun, ended};
ghost use Rattle.ct_session.specs.declared.tran.Tran.TheVariants as tran;
ghost use Rattle.ct_sessions.specs.Seats.{state_in};
ghost use Rattle.ct_sessions.specs.Steps.{HasSeat, HaveSeats, TurnsSeat};

use crate::seat::Seat;
use crate::seats::{place_of, seated};
use ct_types::{ColType, Memory, Refusal, Text, Value};
use std::alloc::Global;

/// Want of memory, where a refusal can be nothing else.
fn only_memory(refusal: Refusal) -> Memory
    requires { ¬ (refusal ≢ Refusal.Memory) }
{
    match refusal {
        Refusal::Memory => Memory,
        _ => unreachable!(),
    }
}

/// Begins a transaction of a session that has none. Want of memory leaves each session as it was.
pub(crate) fn begin(alloc: Global, seats: &mut Vec<Seat>, number: u8) -> Result<(), Memory>
    requires { (state_in seats.old.items number).tran ≡ tran.None }
    ensures ok { OnOk result (TurnsSeat seats.old.items seats.new.items number (λ state. record state { tran = begun state.snapshot })) }
    ensures err { OnErr result (HaveSeats seats.old.items seats.new.items) }
{
    let place = seated(alloc, seats, number)?;
    let seat = &mut seats[place];
    match seat.session.begin() {
        Ok(()) => Ok(()),
        Err(refusal) => Err(only_memory(refusal)),
    }
}

/// Sets the level of a session's transactions. Want of memory leaves each session as it was.
pub(crate) fn isolate(
    alloc: Global,
    seats: &mut Vec<Seat>,
    number: u8,
    snapshot: bool,
) -> Result<(), Memory>
    ensures ok { OnOk result (TurnsSeat seats.old.items seats.new.items number (λ state. record state { snapshot = snapshot })) }
    ensures err { OnErr result (HaveSeats seats.old.items seats.new.items) }
{
    let place = seated(alloc, seats, number)?;
    let seat = &mut seats[place];
    seat.session.isolate(snapshot);
    Ok(())
}

/// Gives a variable of a session a value. Want of memory leaves each session as it was.
pub(crate) fn set(
    alloc: Global,
    seats: &mut Vec<Seat>,
    number: u8,
    name: &Text,
    value: Value,
) -> Result<(), Memory>
    requires { is_declared (state_in seats.old.items number).variables name.now ≡ true }
    ensures ok { OnOk result (TurnsSeat seats.old.items seats.new.items number (λ state. record state { variables = with_value state.variables name.now value })) }
    ensures err { OnErr result (HaveSeats seats.old.items seats.new.items) }
{
    let place = seated(alloc, seats, number)?;
    let seat = &mut seats[place];
    match seat.session.set(name, value) {
        Ok(()) => Ok(()),
        Err(refusal) => Err(only_memory(refusal)),
    }
}

/// Declares a variable of a session. Want of memory leaves each session as it was.
pub(crate) fn declare(
    alloc: Global,
    seats: &mut Vec<Seat>,
    number: u8,
    name: Text,
    kind: ColType,
    value: Value,
) -> Result<(), Memory>
    requires { is_declared (state_in seats.old.items number).variables name ≡ false }
    ensures ok { OnOk result (TurnsSeat seats.old.items seats.new.items number (λ state. record state { variables = with_variable state.variables name kind value })) }
    ensures err { OnErr result (HaveSeats seats.old.items seats.new.items) }
{
    let place = seated(alloc, seats, number)?;
    let seat = &mut seats[place];
    match seat.session.declare(name, kind, value) {
        Ok(()) => Ok(()),
        Err(refusal) => Err(only_memory(refusal)),
    }
}

/// Ends the transaction of a session, if that is there, and lets go of what it reads as its own.
pub(crate) fn end(seats: &mut Vec<Seat>, number: u8)
    ensures { HasSeat seats.old.items seats.new.items number (record { state = ended (state_in seats.old.items number); own = None }) }
{
    let place = place_of(seats.as_slice(), number);
    if place < seats.len() {
        let seat = &mut seats[place];
        seat.session.end();
        seat.own = None;
    }
}
