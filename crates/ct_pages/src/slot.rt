ghost use Rattle.std.specs.Prelude.{◌≡◌, ◌<◌, ◌^◌, ◌↔◌, length, IsTrue};
ghost use Rattle.std.specs.Option.{ForSome};
ghost use Rattle.byteorder.specs.Endian.{little_bytes};
ghost use Rattle.ct_pages.specs.Slots.{IsLogArea, IsSecondLog, IsCheckpointArea, MayStand, spelled, offset_of, current_of};
ghost use Rattle.ct_pages.specs.Reading.{SpellFields, HasZeros, ReadsSlot};

use byteorder::{ByteOrder, LittleEndian};
use ct_log::OpenFault;

/// The gate of a slot that is open.
pub const OPEN: u8 = 1;

/// A gate of a slot that is closed.
pub const CLOSED: u8 = 0;

/// The bytes of a slot.
pub const SLOT_BYTES: usize = 16;

/// What a slot says: in which areas the database stands.
#[derive(Clone, Copy, Debug, PartialEq, Eq)]
pub struct Super {
    /// How entries and pieces are spelled. There is format 1 alone.
    pub format: u8,
    /// From 0 to 3: even in slot 0, odd in slot 1. Each flip writes the next turn, 0 after 3.
    pub turn: u8,
    /// The area of the checkpoint, 1 or 2, or 0 where there is none.
    pub checkpoint: u8,
    /// The area of the first log, 3 to 5.
    pub first: u8,
    /// The area of the second log, 3 to 5 and not the first, or 0 where there is none.
    pub second: u8,
    /// The length of the checkpoint in bytes, 0 exactly where there is none.
    pub length: u64,
}

/// The offset of slot 0 or 1 in area 0.
pub fn offset(place: u8) -> u64
    requires { place < 2 }
    ensures { result ≡ offset_of place }
{
    8 + 16 * place as u64
}

/// The bytes of an open slot.
pub fn spell(slot: Super) -> [u8; SLOT_BYTES]
    ensures { result ≡ spelled slot }
{
    let mut bytes = [0; SLOT_BYTES];
    bytes[0] = OPEN;
    bytes[1] = slot.format;
    bytes[2] = slot.turn;
    bytes[3] = slot.checkpoint;
    bytes[4] = slot.first;
    bytes[5] = slot.second;
    LittleEndian::write_u64(&mut bytes[8..], slot.length);
    bytes
}

/// The number in the first eight bytes.
fn length_in(bytes: &[u8]) -> u64
    requires { length bytes.now ≡ 8 }
    ensures { bytes.now ≡ little_bytes 8 result }
{
    LittleEndian::read_u64(bytes)
}

/// The fields in the bytes of a slot.
fn fields_in(bytes: &[u8]) -> Super
    requires { length bytes.now ≡ 16 }
    ensures fields { SpellFields bytes.now result }
    ensures fits { result.length < 2 ^ 64 }
{
    Super {
        format: bytes[1],
        turn: bytes[2],
        checkpoint: bytes[3],
        first: bytes[4],
        second: bytes[5],
        length: length_in(&bytes[8..]),
    }
}

/// Whether the two zeros of a slot are there.
fn has_zeros(bytes: &[u8]) -> bool
    requires { length bytes.now ≡ 16 }
    ensures { IsTrue result ↔ HasZeros bytes.now }
{
    bytes[6] == 0 && bytes[7] == 0
}

/// Whether an area is one for logs.
fn is_log_area(area: u8) -> bool
    ensures { IsTrue result ↔ IsLogArea area }
{
    (3..=5).contains(&area)
}

/// Whether this is the area of a second log beside the first, or 0 for none.
fn is_second_log(first: u8, second: u8) -> bool
    ensures { IsTrue result ↔ IsSecondLog first second }
{
    second == 0 || is_log_area(second) && second != first
}

/// Whether this is the area of a checkpoint of this length, or 0 for none.
fn is_checkpoint_area(area: u8, length: u64) -> bool
    ensures { IsTrue result ↔ IsCheckpointArea area length }
{
    if area == 0 {
        length == 0
    } else {
        area <= 2 && length > 0
    }
}

/// Whether slot 0 or 1 may say this.
fn may_stand(place: u8, slot: Super) -> bool
    ensures { IsTrue result ↔ MayStand place slot }
{
    slot.format == 1
        && slot.turn < 4
        && slot.turn % 2 == place
        && is_checkpoint_area(slot.checkpoint, slot.length)
        && is_log_area(slot.first)
        && is_second_log(slot.first, slot.second)
}

/// What slot 0 or 1 says, by its bytes: nothing where it is closed.
///
/// `Foreign` has its offset in area 0, and comes exactly where it is open and may not stand there.
pub fn read_slot(place: u8, bytes: &[u8]) -> Result<Option<Super>, OpenFault>
    requires place { place < 2 }
    requires size { length bytes.now ≡ 16 }
    ensures { ReadsSlot place bytes.now result }
{
    if bytes[0] != OPEN {
        return Ok(None);
    }
    let slot = fields_in(bytes);
    if has_zeros(bytes) && may_stand(place, slot) {
        Ok(Some(slot))
    } else {
        Err(OpenFault::Foreign {
            area: 0,
            offset: offset(place),
        })
    }
}

/// The current slot, by what slot 0 and slot 1 say.
pub fn current(zero: Option<Super>, one: Option<Super>) -> Option<Super>
    requires { ForSome one (λ slot. slot.turn < 4) }
    ensures { result ≡ current_of zero one }
{
    let Some(zero_slot) = zero else {
        return one;
    };
    let Some(one_slot) = one else {
        return zero;
    };
    if zero_slot.turn == (one_slot.turn + 1) % 4 {
        zero
    } else {
        one
    }
}
