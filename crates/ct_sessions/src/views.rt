ghost use Rattle.std.specs.Prelude.{◌≡◌, ◌≢◌, ℕ, OnOk};
ghost use Rattle.ct_database.specs.Waiting.{AreStoredIn};
ghost use Rattle.ct_session.specs.declared.tran.Tran.TheVariants as tran;
ghost use Rattle.ct_sessions.specs.Owns.{IsSeatReady};
ghost use Rattle.ct_sessions.specs.Seats.{seat_at, seat_state, state_in};
ghost use Rattle.ct_sessions.specs.Sound.{IsSound};
ghost use Rattle.ct_sessions.specs.Steps.{HasSeat, IsPrepared, seat_viewed};

use crate::own::{catch_up, needs_own, own_at, reads_at};
use crate::seat::Seat;
use crate::seats::place_of;
use ct_database::Database;
use ct_session::Tran;
use ct_types::{Memory, View};
use std::alloc::Global;

/// Brings what a session reads as its own up to date, where the next statement reads it.
fn make_ready(alloc: Global, seat: &mut Seat, newest: &Database, entries: u64) -> Result<(), Memory>
    requires sound { IsSound (seat_state seat.old) }
    requires stored { AreStoredIn newest.now.tables seat.old.session.state.pending }
    ensures number { seat.new.session.number ≡ seat.old.session.number }
    ensures prepared { IsPrepared newest.now entries (seat_state seat.old) (seat_state seat.new) }
    ensures ready { OnOk result (IsSeatReady entries (seat_state seat.new)) }
{
    if !needs_own(&seat.session) {
        return Ok(());
    }
    let at = reads_at(entries, seat.session.tran());
    let had = seat.own.take();
    let mut own = own_at(alloc, had, at, newest, entries)?;
    let done = catch_up(&mut own, seat.session.pending());
    seat.own = Some(own);
    done
}

/// The same for the session of a number, if it is there.
pub(crate) fn ready(
    alloc: Global,
    seats: &mut Vec<Seat>,
    number: u8,
    newest: &Database,
    entries: u64,
) -> Result<(), Memory>
    requires sound { IsSound (seat_at seats.old.items number) }
    requires stored { AreStoredIn newest.now.tables (state_in seats.old.items number).pending }
    ensures others { (other : ℕ) → other ≢ number → seat_at seats.new.items other ≡ seat_at seats.old.items other }
    ensures prepared { IsPrepared newest.now entries (seat_at seats.old.items number) (seat_at seats.new.items number) }
    ensures ready { OnOk result (IsSeatReady entries (seat_at seats.new.items number)) }
{
    let place = place_of(seats.as_slice(), number);
    if seats.len() <= place {
        return Ok(());
    }
    let seat = &mut seats[place];
    make_ready(alloc, seat, newest, entries)
}

/// Takes the view of its own database for a SNAPSHOT transaction that has none yet, where that database is there.
fn take_own_view(seat: &mut Seat)
    requires { seat.old.session.state.tran ≡ tran.Snapshot }
    ensures number { seat.new.session.number ≡ seat.old.session.number }
    ensures viewed { seat_state seat.new ≡ seat_viewed (seat_state seat.old) }
{
    if let Some(own) = &seat.own {
        let view = View {
            at: own.at,
            db_version: own.db.version(),
        };
        seat.session.take_view(view);
    }
}

/// The same for each session; one that is no such transaction stays as it is.
fn take_view(seat: &mut Seat)
    ensures number { seat.new.session.number ≡ seat.old.session.number }
    ensures viewed { seat_state seat.new ≡ seat_viewed (seat_state seat.old) }
{
    match seat.session.tran() {
        Tran::Snapshot => take_own_view(seat),
        Tran::None | Tran::Committed | Tran::Viewed(_) => {}
    }
}

/// The same for the session of a number, if it is there.
pub(crate) fn view(seats: &mut Vec<Seat>, number: u8)
    ensures { HasSeat seats.old.items seats.new.items number (seat_viewed (seat_at seats.old.items number)) }
{
    let place = place_of(seats.as_slice(), number);
    if place < seats.len() {
        let seat = &mut seats[place];
        take_view(seat);
    }
}
