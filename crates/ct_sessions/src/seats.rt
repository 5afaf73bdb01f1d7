ghost use Rattle.std.specs.Prelude.{◌≡◌, ◌<◌, ◌==◌, length, position, find, IfOk};
ghost use Rattle.std.specs.List.{position_or_len};
ghost use Rattle.std.specs.Option.{option_copied};
ghost use Rattle.ct_sessions.specs.Seats.{any_view as has_any_view, has_view, is_of};
ghost use Rattle.ct_sessions.specs.Steps.{HaveSeats};

use crate::seat::Seat;
use ct_session::{Session, Tran};
use ct_types::Memory;
use std::alloc::Global;

/// The session of a number, if it is there.
pub(crate) fn seat_of(seats: &[Seat], number: u8) -> Option<&Seat>
    ensures { option_copied result ≡ find (is_of number) seats.now }
{
    seats.iter().find(|seat| seat.session.number() == number)
}

fn found_at(seats: &[Seat], number: u8) -> Option<usize>
    ensures { result ≡ position (is_of number) seats.now }
{
    seats
        .iter()
        .position(|seat| seat.session.number() == number)
}

/// The place of the session of a number; the one behind the last where it is not there.
#[tactic(auto, using(crate::proofs::Seating::place_or_length))]
pub(crate) fn place_of(seats: &[Seat], number: u8) -> usize
    ensures { result ≡ position_or_len (is_of number) seats.now }
{
    found_at(seats, number).unwrap_or(seats.len())
}

/// The place of the session of a number, which is added as it starts where it is not there.
pub(crate) fn seated(alloc: Global, seats: &mut Vec<Seat>, number: u8) -> Result<usize, Memory>
    ensures place { IfOk result (λ place. place ≡ position_or_len (is_of number) seats.new.items) }
    ensures inside { IfOk result (λ place. place < length seats.new.items) }
    ensures same { HaveSeats seats.old.items seats.new.items }
{
    let place = place_of(seats.as_slice(), number);
    if place == seats.len() {
        seats.push(Seat {
            session: Session::new(alloc, number)?,
            own: None,
        })?;
    }
    Ok(place)
}

fn sees_view(tran: Tran) -> bool
    ensures { result ≡ has_view tran }
{
    match tran {
        Tran::Viewed(_) => true,
        Tran::None | Tran::Committed | Tran::Snapshot => false,
    }
}

/// Whether some session has a view.
pub(crate) fn any_view(seats: &[Seat]) -> bool
    ensures { result ≡ has_any_view seats.now }
{
    seats.iter().any(|seat| sees_view(seat.session.tran()))
}
