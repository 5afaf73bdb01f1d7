ghost use Rattle.std.specs.Prelude.{◌≡◌, ◌↔◌, length, min, take, Some, IfOk, IsErr, OnErr, MatchResult};
ghost use Rattle.std.specs.Io.{ReadsAtMost};
ghost use Rattle.std.specs.Io.KnownBytes.{ReadConsumes};
ghost use Rattle.ct_faults.specs.Causes.{HasCause};
ghost use Rattle.ct_faults.specs.MemSource.{IsNextFailing, after_read, after_failure};

use crate::{Failed, Source};
use ct_types::Memory;
use std::alloc::Global;
use std::marker::Model;

/// A source in memory. Exactly the listed reads fail.
#[derive(Debug, Drop)]
pub struct MemSource {
    bytes: Vec<u8>,
    at: usize,
    calls: u64,
    failing: Vec<u64>,
    faults: u64,
}

impl Model for MemSource {
    ghost use Rattle.std.specs.Prelude.{drop, length, ◌≤◌};
    ghost use Rattle.ct_faults.specs.MemSource.{SourceState};

    ghost Value = { SourceState };

    ghost view = { λ s. record { left = drop s.at s.bytes.items; calls = s.calls; failing = s.failing.items; faults = s.faults } };

    ghost invariant = { λ s. s.at ≤ length s.bytes.items };
}

impl MemSource {
    /// A source that has these bytes left, of which the reads with the numbers in `failing` fail, counted from 1.
    pub fn new(alloc: Global, bytes: &[u8], failing: &[u64]) -> Result<MemSource, Memory>
        ensures { IfOk result (λ made. made ≡ record { left = bytes.now; calls = 0; failing = failing.now; faults = 0 }) }
    {
        Ok(MemSource {
            bytes: bytes.to_vec(alloc)?,
            at: 0,
            calls: 0,
            failing: failing.to_vec(alloc)?,
            faults: 0,
        })
    }
}

/// Copies as much as fits to the front of the buffer, and says how much.
fn copy_front(from: &[u8], buf: &mut [u8]) -> usize
    ensures count { result ≡ min (length from.now) (length buf.old) }
    ensures front { take result buf.new ≡ take result from.now }
{
    let count = from.len().min(buf.len());
    buf[..count].copy_from_slice(&from[..count]);
    count
}

impl Source for MemSource {
    ghost left = { λ s. Some s.left };

    ghost faults = { λ s. s.faults };

    /// Gives as many bytes as are left and fit. It fails exactly where this call is listed.
    fn read(&mut self, buf: &mut [u8]) -> Result<usize, Failed>
        ensures bound { ReadsAtMost result buf.new }
        ensures bytes { ReadConsumes (Some self.old.left) (Some self.new.left) result buf.new }
        ensures cause { HasCause self.old.faults self.new.faults result }

        ensures fails { IsErr result ↔ IsNextFailing self.old }
        ensures count { IfOk result (λ n. n ≡ min (length self.old.left) (length buf.old)) }
        ensures state { MatchResult result (λ n. self.new ≡ after_read self.old n) (λ _. self.new ≡ after_failure self.old) }
        ensures buffer { OnErr result (buf.new ≡ buf.old) }
    {
        self.calls = self.calls.saturating_add(1);
        if self.failing.contains(&self.calls) {
            self.faults = self.faults.saturating_add(1);
            return Err(Failed);
        }
        let count = copy_front(&self.bytes[self.at..], buf);
        self.at += count;
        Ok(count)
    }

    fn faults(&self) -> u64 {
        self.faults
    }
}
