ghost use Rattle.std.specs.Prelude.{◌≡◌};

use crate::{Failed, Source};
use std::io::{Input, Read};
use std::marker::Model;

/// Standard input as a source. It is an edge that is trusted: what comes from the system is in no clause.
#[derive(Drop)]
pub struct StdSource<R: Read> {
    inner: R,
    faults: u64,
}

impl<R: Read> Model for StdSource<R> {
    ghost use Rattle.ct_faults.specs.Stream.{StreamState};

    ghost Value = { StreamState };

    ghost view = { λ s. record { bytes = R.remaining s.inner; faults = s.faults } };
}

impl<R: Read + Drop> StdSource<R> {
    /// The standard input of this runtime, of which no read has failed.
    pub fn new<I: Input<Reader = R>>(rt: &I) -> StdSource<R>
        ensures { result.faults ≡ 0 }
    {
        StdSource {
            inner: rt.reader(),
            faults: 0,
        }
    }
}

impl<R: Read> Source for StdSource<R> {
    ghost left = { λ s. s.bytes };

    ghost faults = { λ s. s.faults };

    fn read(&mut self, buf: &mut [u8]) -> Result<usize, Failed> {
        match self.inner.read(buf) {
            Ok(count) => Ok(count),
            Err(_) => {
                self.faults = self.faults.saturating_add(1);
                Err(Failed)
            }
        }
    }

    fn faults(&self) -> u64 {
        self.faults
    }
}
