// A source and a sink that never fail.
ghost use Rattle.std.specs.Prelude.{◌≡◌, ◌≢◌, ◌<◌, ◌≤◌, ◌+◌, ◌-◌, ◌^◌, ◌↔◌, List, ℕ, None, Some, false, length, min, IsTrue};
ghost use Rattle.topos_io.specs.Source.{Reads};

use crate::sink::{Fin, Put, Sink};
use crate::source::{Source, Took};
use std::marker::Model;

/// A source over bytes in memory that never fails, and is seen as the bytes that are left. A read
/// gives as many as the buffer takes.
#[derive(Drop)]
pub struct CalmSource {
    bytes: Vec<u8>,
    at: usize,
}

impl Model for CalmSource {
    ghost use Rattle.std.specs.Prelude.{◌≤◌, List, ℕ, drop, vec_len};

    ghost Value = { List ℕ };

    ghost view = { λ s. drop s.at s.bytes.items };

    ghost invariant = { λ s. s.at ≤ vec_len s.bytes };
}

impl CalmSource {
    /// A source with these bytes left.
    pub fn new(bytes: Vec<u8>) -> Self
        ensures { result ≡ bytes.items }
    {
        CalmSource { bytes, at: 0 }
    }
}

impl Source for CalmSource {
    ghost left = { λ s. Some s };

    ghost faults = { λ _. 0 };

    fn read(&mut self, into: &mut [u8]) -> Took
        requires { 0 < length into.old }
        ensures bytes { Reads (Some self.old) (Some self.new) result into.new }
        ensures calm { result ≢ Took.Failed }
        ensures given { (n : ℕ) → result ≡ Took.Got n
            → n ≡ min (length into.old) (length self.old) }
    {
        let left = &self.bytes[self.at..];
        if left.is_empty() {
            return Took::End;
        }
        let n = into.len().min(left.len());
        into[..n].copy_from_slice(&left[..n]);
        self.at += n;
        Took::Got(n)
    }
}

/// A sink that takes every piece whole and never fails. It keeps only how many bytes it took, a
/// number that stays at the greatest u64 once it is there.
#[derive(Drop)]
pub struct CalmSink {
    taken: u64,
    settled: bool,
}

impl Model for CalmSink {
    ghost use Rattle.topos_io.specs.Calm.{Tally};

    ghost Value = { Tally };

    ghost view = { λ s. record { taken = s.taken; settled = s.settled } };
}

impl CalmSink {
    /// A sink that took nothing yet.
    pub fn new() -> Self
        ensures { (result.taken ≡ 0) × (result.settled ≡ false) }
    {
        CalmSink {
            taken: 0,
            settled: false,
        }
    }

    /// How many bytes were taken, or the greatest u64 where they are more.
    pub fn taken(&self) -> u64
        ensures { result ≡ self.now.taken }
    {
        self.taken
    }
}

impl Sink for CalmSink {
    ghost held = { λ _. None };

    ghost faults = { λ _. 0 };

    ghost settled = { λ s. s.settled };

    ghost sure = { λ _. None };

    fn write(&mut self, piece: &[u8]) -> Put
        requires { 0 < length piece.now }
        ensures unsettled { self.new.settled ≡ false }
        ensures all { result ≡ Put.Took (length piece.now) }
        ensures taken { self.new.taken ≡ min (self.old.taken + length piece.now) (2 ^ 64 - 1) }
    {
        self.settled = false;
        self.taken = self.taken.saturating_add(piece.len() as u64);
        Put::Took(piece.len())
    }

    fn finish(&mut self) -> Fin
        ensures settled { IsTrue self.new.settled ↔ (result ≡ Fin.Done) }
        ensures calm { result ≡ Fin.Done }
        ensures taken { self.new.taken ≡ self.old.taken }
    {
        self.settled = true;
        Fin::Done
    }
}
