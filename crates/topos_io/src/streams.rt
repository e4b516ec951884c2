// A source over a reader and a sink over a writer, for standard input and output.
ghost use Rattle.std.specs.Prelude.{◌≡◌, ◌<◌, ◌≤◌, ◌↔◌, None, false, length, IsTrue};
ghost use Rattle.std.specs.Io.KnownBytes.{Keeps};
ghost use Rattle.topos_io.specs.Fault.{Rose};
ghost use Rattle.topos_io.specs.Source.{Reads, faults_after_read};
ghost use Rattle.topos_io.specs.Sink.{Writes, faults_after_write, faults_after_finish};

use crate::sink::{Fin, Put, Sink};
use crate::source::{Source, Took};
use std::io::{Read, Write};
use std::marker::Model;

/// A source over a reader. It counts the reader's errors, up to the greatest u64, and fails at
/// each.
#[derive(Drop)]
pub struct StdSource<R: Read> {
    inner: R,
    faults: u64,
}

impl<R: Read> Model for StdSource<R> {
    ghost use Rattle.topos_io.specs.Streams.{Input};

    ghost Value = { Input };

    ghost view = { λ s. record { left = R.remaining s.inner; faults = s.faults } };
}

impl<R: Read> StdSource<R> {
    /// A source that had no error yet.
    pub fn new(inner: R) -> Self
        ensures left { result.left ≡ R.remaining inner }
        ensures fresh { result.faults ≡ 0 }
    {
        StdSource { inner, faults: 0 }
    }
}

impl<R: Read> Source for StdSource<R> {
    ghost left = { λ s. s.left };

    ghost faults = { λ s. s.faults };

    fn read(&mut self, into: &mut [u8]) -> Took
        requires { 0 < length into.old }
        ensures bytes { Reads self.old.left self.new.left result into.new }
        ensures later { self.old.faults ≤ self.new.faults }
        ensures failed { result ≡ Took.Failed → Rose self.old.faults self.new.faults }
        ensures count { self.new.faults ≡ faults_after_read self.old.faults result }
    {
        match self.inner.read(into) {
            Ok(0) => Took::End,
            Ok(n) => Took::Got(n),
            Err(_) => {
                self.faults = self.faults.saturating_add(1);
                Took::Failed
            }
        }
    }
}

/// A sink over a writer. It counts the writer's errors, up to the greatest u64, and fails at each.
/// A write that takes no byte is an error.
#[derive(Drop)]
pub struct StdSink<W: Write> {
    inner: W,
    faults: u64,
    settled: bool,
}

impl<W: Write> Model for StdSink<W> {
    ghost use Rattle.topos_io.specs.Streams.{Output};

    ghost Value = { Output };

    ghost view = { λ s. record {
      held = W.contents s.inner;
      faults = s.faults;
      settled = s.settled;
    } };
}

impl<W: Write> StdSink<W> {
    /// A sink that had no error yet, and is not settled.
    pub fn new(inner: W) -> Self
        ensures held { result.held ≡ W.contents inner }
        ensures fresh { (result.faults ≡ 0) × (result.settled ≡ false) }
    {
        StdSink {
            inner,
            faults: 0,
            settled: false,
        }
    }
}

impl<W: Write> Sink for StdSink<W> {
    ghost held = { λ s. s.held };

    ghost faults = { λ s. s.faults };

    ghost settled = { λ s. s.settled };

    ghost sure = { λ _. None };

    fn write(&mut self, piece: &[u8]) -> Put
        requires { 0 < length piece.now }
        ensures bytes { Writes self.old.held self.new.held piece.now result }
        ensures unsettled { self.new.settled ≡ false }
        ensures later { self.old.faults ≤ self.new.faults }
        ensures failed { result ≡ Put.Failed → Rose self.old.faults self.new.faults }
        ensures count { self.new.faults ≡ faults_after_write self.old.faults result }
    {
        self.settled = false;
        match self.inner.write(piece) {
            Ok(n) if n > 0 => Put::Took(n),
            _ => {
                self.faults = self.faults.saturating_add(1);
                Put::Failed
            }
        }
    }

    fn finish(&mut self) -> Fin
        ensures bytes { Keeps self.old.held self.new.held }
        ensures settled { IsTrue self.new.settled ↔ (result ≡ Fin.Done) }
        ensures later { self.old.faults ≤ self.new.faults }
        ensures failed { result ≡ Fin.Failed → Rose self.old.faults self.new.faults }
        ensures count { self.new.faults ≡ faults_after_finish self.old.faults result }
    {
        match self.inner.flush() {
            Ok(()) => {
                self.settled = true;
                Fin::Done
            }
            Err(_) => {
                self.settled = false;
                self.faults = self.faults.saturating_add(1);
                Fin::Failed
            }
        }
    }
}
