ghost use Rattle.std.specs.Prelude.{◌≡◌, ◌≤◌, ◌<◌, ◌≢◌, length, OnOk, OnErr};
ghost use Rattle.std.specs.List.{position_or_len};
ghost use Rattle.ct_locks.specs.Changes.{with_writes_taken};
ghost use Rattle.ct_session.specs.Sessions.{pended};
ghost use Rattle.ct_state.specs.Machine.{xdes_or};
ghost use Rattle.ct_sessions.specs.Changes.{waiting};
ghost use Rattle.ct_sessions.specs.Seats.{is_of, seat_at, seat_state};
ghost use Rattle.ct_sessions.specs.Steps.{HaveSeats, TurnsSeat};

use crate::seat::Seat;
use crate::seats::place_of;
use ct_locks::Locks;
use ct_session::Session;
use ct_types::{List, Memory, Write};

/// Adds writes behind those that wait. The caller has reserved the room.
fn pend_all(session: &mut Session, writes: List<Write>)
    requires { length writes ≤ session.old.room }
    ensures { session.new ≡ record { number = session.old.number; state = pended session.old.state writes; room = session.new.room } }
{
    for write in writes.into_vec() {
        match session.pend(write) {
            Ok(()) => {}
            Err(_) => unreachable!(),
        }
    }
}

/// Takes this number for the transaction, where it has none.
fn draw(session: &mut Session, next: u64)
    ensures { session.new ≡ record session.old { state = record session.old.state { xdes = Some (xdes_or next session.old.state.xdes) } } }
{
    if session.xdes().is_none() {
        session.draw(next);
    }
}

/// Adds writes behind those that wait, and takes their keys. Want of memory leaves both as they were.
fn pend_writes(
    seat: &mut Seat,
    locks: &mut Locks,
    writes: List<Write>,
    next: u64,
) -> Result<(), Memory>
    ensures number { seat.new.session.number ≡ seat.old.session.number }
    ensures own { seat.new.own ≡ seat.old.own }
    ensures ok { OnOk result (seat.new.session.state ≡ waiting next writes seat.old.session.state) }
    ensures taken { OnOk result (locks.new ≡ with_writes_taken locks.old seat.old.session.number writes) }
    ensures err { OnErr result (seat.new.session.state ≡ seat.old.session.state) }
    ensures untaken { OnErr result (locks.new ≡ locks.old) }
{
    seat.session.reserve(writes.as_slice().len() as u64)?;
    locks.take_writes(seat.session.number(), writes.as_slice())?;
    pend_all(&mut seat.session, writes);
    draw(&mut seat.session, next);
    Ok(())
}

/// The same for the session of a number, which is there.
pub(crate) fn pend(
    seats: &mut Vec<Seat>,
    locks: &mut Locks,
    number: u8,
    writes: List<Write>,
    next: u64,
) -> Result<(), Memory>
    requires { position_or_len (is_of number) seats.old.items < length seats.old.items }
    ensures ok { OnOk result (TurnsSeat seats.old.items seats.new.items number (waiting next writes)) }
    ensures taken { OnOk result (locks.new ≡ with_writes_taken locks.old number writes) }
    ensures err { OnErr result (HaveSeats seats.old.items seats.new.items) }
    ensures untaken { OnErr result (locks.new ≡ locks.old) }
{
    let place = place_of(seats.as_slice(), number);
    let seat = &mut seats[place];
    pend_writes(seat, locks, writes, next)
}
