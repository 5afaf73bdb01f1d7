ghost use Rattle.std.specs.Prelude.{◌≡◌, List, ℕ, Option};
ghost use Rattle.std.specs.Io.{ReadsAtMost};
ghost use Rattle.std.specs.Io.KnownBytes.{ReadConsumes};
ghost use Rattle.ct_faults.specs.Causes.{HasCause};

use crate::Failed;

/// Where bytes come from. It counts its faults.
pub trait Source {
    /// The bytes that are left, where it tells them.
    ghost left: { Self → Option (List ℕ) };

    /// How many reads have failed, up to the last value of u64.
    ghost faults: { Self → ℕ };

    /// Moves bytes from the front of those that are left to the front of the buffer, and says how many. 0 for a
    /// buffer that is not empty is the end.
    ///
    /// `Failed` comes only where the count of faults rose, and takes no bytes; the buffer may then hold anything.
    fn read(&mut self, buf: &mut [u8]) -> Result<usize, Failed>
        ensures bound { ReadsAtMost result buf.new }
        ensures bytes { ReadConsumes (left self.old) (left self.new) result buf.new }
        ensures cause { HasCause (faults self.old) (faults self.new) result };

    /// The count of faults.
    fn faults(&self) -> u64
        ensures { result ≡ faults self.now };
}
