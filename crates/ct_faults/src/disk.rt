ghost use Rattle.std.specs.Prelude.{◌≡◌, ◌<◌, ◌≤◌, ◌+◌, ◌^◌, ◌↔◌, ℕ, length, IfOk, OnOk};
ghost use Rattle.std.specs.Io.{ReadsAtMost};
ghost use Rattle.ct_faults.specs.Causes.{HasCause};
ghost use Rattle.ct_faults.specs.Disk.{Image, Changes, Same, IsWritten, IsCut, MayTear, MayCut, Runs, LeavesOnly, ReadsAt, TakesRoom};

use crate::Failed;
use ct_types::Memory;

/// A disk of six areas of bytes, numbered 0 to 5, with the bytes that a crash may leave. It counts its faults: each call
/// answers `Failed` only where the count rose.
///
/// What is said of bytes holds of a disk that is honest. One that does not tell its content is none, and each call keeps
/// a disk as honest as it was.
pub trait Disk {
    /// It keeps to the model of a disk, and tells its content.
    ghost honest: { Self → Type 0 };

    /// What reads give, by area.
    ghost content: { Self → Image };

    /// The moment: a number that never falls.
    ghost clock: { Self → ℕ };

    /// The images that a crash at a moment may leave. An image has all areas.
    ghost images: { Self → ℕ → Image → Type 0 };

    /// For how many calls there is room.
    ghost room_calls: { Self → ℕ };

    /// For how many bytes there is room.
    ghost room_bytes: { Self → ℕ };

    /// How many calls have failed, up to the last value of u64.
    ghost faults: { Self → ℕ };

    /// How many bytes the area has.
    fn len(&mut self, area: u8) -> Result<u64, Failed>
        requires { area < 6 }
        ensures honest { honest self.old ↔ honest self.new }
        ensures gives { honest self.old → IfOk result (λ n. n ≡ length (content self.old area)) }
        ensures content { honest self.old → content self.new ≡ content self.old }
        ensures images { honest self.old → Runs (clock self.old) (clock self.new) (images self.old) (images self.new) Same }
        ensures room { TakesRoom 0 0 (room_calls self.old) (room_bytes self.old) (room_calls self.new) (room_bytes self.new) }
        ensures cause { HasCause (faults self.old) (faults self.new) result };

    /// Reads bytes of the area from the offset `at` on to the front of the buffer, and says how many: at least one, where
    /// the buffer is not empty and the area does not end there. After `Failed` the buffer may hold anything.
    fn read_at(&mut self, area: u8, at: u64, buf: &mut [u8]) -> Result<usize, Failed>
        requires area { area < 6 }
        requires at { honest self.old → at ≤ length (content self.old area) }
        ensures honest { honest self.old ↔ honest self.new }
        ensures gives { honest self.old → IfOk result (λ n. ReadsAt at (content self.old area) buf.old buf.new n) }
        ensures bound { ReadsAtMost result buf.new }
        ensures content { honest self.old → content self.new ≡ content self.old }
        ensures images { honest self.old → Runs (clock self.old) (clock self.new) (images self.old) (images self.new) Same }
        ensures room { TakesRoom 0 0 (room_calls self.old) (room_bytes self.old) (room_calls self.new) (room_bytes self.new) }
        ensures cause { HasCause (faults self.old) (faults self.new) result };

    /// Writes all the bytes into the area from the offset `at` on, past its end where need be. A crash may tear it until
    /// the next sync, also where it failed.
    fn write_at(&mut self, area: u8, at: u64, bytes: &[u8]) -> Result<(), Failed>
        requires area { area < 6 }
        requires at { honest self.old → at ≤ length (content self.old area) }
        requires end { at + length bytes.now < 2 ^ 62 }
        requires room_calls { 0 < room_calls self.old }
        requires room_bytes { length bytes.now ≤ room_bytes self.old }
        ensures honest { honest self.old ↔ honest self.new }
        ensures written { honest self.old → OnOk result (Changes area (IsWritten at bytes.now) (content self.old) (content self.new)) }
        ensures rises { honest self.old → clock self.old < clock self.new }
        ensures images { honest self.old → Runs (clock self.old) (clock self.new) (images self.old) (images self.new) (Changes area (MayTear at (length bytes.now))) }
        ensures room { TakesRoom 1 (length bytes.now) (room_calls self.old) (room_bytes self.old) (room_calls self.new) (room_bytes self.new) }
        ensures cause { HasCause (faults self.old) (faults self.new) result };

    /// Cuts the area to its first `len` bytes. A crash may undo it until the next sync, also where it failed.
    fn cut(&mut self, area: u8, len: u64) -> Result<(), Failed>
        requires area { area < 6 }
        requires len { honest self.old → len ≤ length (content self.old area) }
        requires room_calls { 0 < room_calls self.old }
        ensures honest { honest self.old ↔ honest self.new }
        ensures cut { honest self.old → OnOk result (Changes area (IsCut len) (content self.old) (content self.new)) }
        ensures rises { honest self.old → clock self.old < clock self.new }
        ensures images { honest self.old → Runs (clock self.old) (clock self.new) (images self.old) (images self.new) (Changes area (MayCut len)) }
        ensures room { TakesRoom 1 0 (room_calls self.old) (room_bytes self.old) (room_calls self.new) (room_bytes self.new) }
        ensures cause { HasCause (faults self.old) (faults self.new) result };

    /// Makes what was written and cut before last through a crash: after it a crash leaves what reads give. One that
    /// fails counts as none.
    fn sync(&mut self) -> Result<(), Failed>
        requires { 0 < room_calls self.old }
        ensures honest { honest self.old ↔ honest self.new }
        ensures durable { honest self.old → OnOk result (LeavesOnly (content self.new) (images self.new (clock self.new))) }
        ensures content { honest self.old → content self.new ≡ content self.old }
        ensures rises { honest self.old → clock self.old < clock self.new }
        ensures images { honest self.old → Runs (clock self.old) (clock self.new) (images self.old) (images self.new) Same }
        ensures room { TakesRoom 1 0 (room_calls self.old) (room_bytes self.old) (room_calls self.new) (room_bytes self.new) }
        ensures cause { HasCause (faults self.old) (faults self.new) result };

    /// Makes room for so many calls of `write_at`, `cut` and `sync`, and for so many bytes of `write_at` in all. Only
    /// this call may want memory, and no fault comes of it.
    fn ready(&mut self, calls: u64, bytes: u64) -> Result<(), Memory>
        ensures honest { honest self.old ↔ honest self.new }
        ensures content { honest self.old → content self.new ≡ content self.old }
        ensures images { honest self.old → Runs (clock self.old) (clock self.new) (images self.old) (images self.new) Same }
        ensures room_calls { OnOk result (calls ≤ room_calls self.new) }
        ensures room_bytes { OnOk result (bytes ≤ room_bytes self.new) }
        ensures faults { faults self.new ≡ faults self.old };

    /// The count of faults.
    fn faults(&self) -> u64
        ensures { result ≡ faults self.now };

    /// What reads give is always one of the images.
    ghost content_is_image: { (disk : Self) → honest disk → images disk (clock disk) (content disk) };
}
