ghost use Rattle.std.specs.Prelude.{◌≡◌};

use crate::{Failed, Sink};
use std::io;
use std::io::{Printer, Write};
use std::marker::Model;

/// Standard output as a sink. It is an edge that is trusted: what goes to the system is in no clause.
#[derive(Drop)]
pub struct StdSink<W: Write> {
    inner: W,
    faults: u64,
}

impl<W: Write> Model for StdSink<W> {
    ghost use Rattle.ct_faults.specs.Stream.{StreamState};

    ghost Value = { StreamState };

    ghost view = { λ s. record { bytes = W.contents s.inner; faults = s.faults } };
}

impl<'a, P: Print> StdSink<Printer<'a, P>> {
    /// The standard output of this runtime, of which no write has failed.
    pub fn new(rt: &'a P) -> StdSink<Printer<'a, P>>
        ensures { result.faults ≡ 0 }
    {
        StdSink {
            inner: io::writer(rt),
            faults: 0,
        }
    }
}

impl<W: Write> Sink for StdSink<W> {
    ghost held = { λ s. s.bytes };

    ghost faults = { λ s. s.faults };

    /// A write that takes nothing of a piece that is not empty fails.
    fn write(&mut self, bytes: &[u8]) -> Result<usize, Failed> {
        match self.inner.write(bytes) {
            Ok(count) if count > 0 || bytes.is_empty() => Ok(count),
            _ => {
                self.faults = self.faults.saturating_add(1);
                Err(Failed)
            }
        }
    }

    fn faults(&self) -> u64 {
        self.faults
    }
}
