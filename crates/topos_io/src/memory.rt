// A source and a sink in memory, whose faults are planned.
ghost use Rattle.std.specs.Prelude.{◌≡◌, ◌<◌, ◌≤◌, ◌↔◌, ◌⊎◌, ℕ, [], Some, false, length, IsTrue, IfOk, Contains};
ghost use Rattle.std.specs.Io.KnownBytes.{Keeps};
ghost use Rattle.topos_io.specs.Fault.{Rose, one_more};
ghost use Rattle.topos_io.specs.Source.{Reads, faults_after_read};
ghost use Rattle.topos_io.specs.Sink.{Writes, WritesSurely, FinishesSurely, faults_after_write, faults_after_finish};
ghost use Rattle.topos_io.specs.Memory.{SamePlan, read_size, free_of, sure_of, write_size};

use crate::error::NoMemory;
use crate::sink::{Fin, Put, Sink};
use crate::source::{Source, Took};
use std::alloc::Global;
use std::marker::Model;

/// A source that gives its bytes in chunks, and fails at the reads that are listed.
///
/// A read that is not listed gives the least of the chunk, the buffer's length and what is left,
/// and answers `Took::End` where nothing is left. A listed one fails, also where nothing is left.
/// The count of faults rises by 1 at each read that fails. It and the number of a read stay at the
/// greatest u64 once they are there.
#[derive(Drop)]
pub struct MemSource {
    bytes: Vec<u8>,
    at: usize,
    chunk: usize,
    fail: Vec<u64>,
    call: u64,
    faults: u64,
}

impl Model for MemSource {
    ghost use Rattle.std.specs.Prelude.{◌≤◌, ◌<◌, drop, vec_len};
    ghost use Rattle.topos_io.specs.Memory.{PlannedSource};

    ghost Value = { PlannedSource };

    ghost view = { λ s. record {
      left = drop s.at s.bytes.items;
      chunk = s.chunk;
      fail = s.fail.items;
      call = s.call;
      faults = s.faults;
    } };

    ghost invariant = { λ s. (s.at ≤ vec_len s.bytes) × (0 < s.chunk) };
}

impl MemSource {
    /// A source with these bytes left. A read gives at most `chunk` bytes. `fail` lists the numbers
    /// of the reads that fail, which are numbered from 0.
    pub fn new(bytes: Vec<u8>, chunk: usize, fail: Vec<u64>) -> Self
        requires { 0 < chunk }
        ensures left { result.left ≡ bytes.items }
        ensures plan { (result.chunk ≡ chunk) × (result.fail ≡ fail.items) }
        ensures fresh { (result.call ≡ 0) × (result.faults ≡ 0) }
    {
        MemSource {
            bytes,
            at: 0,
            chunk,
            fail,
            call: 0,
            faults: 0,
        }
    }

    /// The bytes that are left.
    pub fn left(&self) -> &[u8]
        ensures { result.now ≡ self.now.left }
    {
        &self.bytes[self.at..]
    }
}

impl Source for MemSource {
    ghost left = { λ s. Some s.left };

    ghost faults = { λ s. s.faults };

    fn read(&mut self, into: &mut [u8]) -> Took
        requires { 0 < length into.old }
        ensures bytes { Reads (Some self.old.left) (Some self.new.left) result into.new }
        ensures later { self.old.faults ≤ self.new.faults }
        ensures failed { result ≡ Took.Failed → Rose self.old.faults self.new.faults }

        // A listed read fails. Any other gives all that it may, or ends.
        ensures listed { (result ≡ Took.Failed) ↔ Contains self.old.fail self.old.call }
        ensures ended { result ≡ Took.End → self.old.left ≡ [] }
        ensures given { (n : ℕ) → result ≡ Took.Got n → n ≡ read_size self.old (length into.old) }

        ensures count { self.new.faults ≡ faults_after_read self.old.faults result }
        ensures call { self.new.call ≡ one_more self.old.call }
        ensures plan { (self.new.chunk ≡ self.old.chunk) × (self.new.fail ≡ self.old.fail) }
    {
        let call = self.call;
        self.call = call.saturating_add(1);
        if self.fail.contains(&call) {
            self.faults = self.faults.saturating_add(1);
            return Took::Failed;
        }
        let left = &self.bytes[self.at..];
        if left.is_empty() {
            return Took::End;
        }
        let n = self.chunk.min(into.len().min(left.len()));
        into[..n].copy_from_slice(&left[..n]);
        self.at += n;
        Took::Got(n)
    }
}

/// A sink that takes bytes in chunks up to a capacity, and fails at the calls that are listed.
///
/// A write that is not listed takes the least of the chunk, the piece's length and the free
/// capacity, and fails where no capacity is free. A listed write or finish fails. The count of
/// faults rises by 1 at each call that fails. It and the number of a call stay at the greatest u64
/// once they are there. The sink is sure of the free capacity where no call is listed, and of
/// nothing otherwise.
#[derive(Drop)]
pub struct MemSink {
    held: Vec<u8>,
    capacity: usize,
    chunk: usize,
    fail: Vec<u64>,
    call: u64,
    faults: u64,
    settled: bool,
}

impl Model for MemSink {
    ghost use Rattle.std.specs.Prelude.{◌≤◌, ◌<◌, vec_len, vec_capacity};
    ghost use Rattle.topos_io.specs.Memory.{PlannedSink};

    ghost Value = { PlannedSink };

    ghost view = { λ s. record {
      held = s.held.items;
      capacity = s.capacity;
      chunk = s.chunk;
      fail = s.fail.items;
      call = s.call;
      faults = s.faults;
      settled = s.settled;
    } };

    ghost invariant = { λ s.
        (vec_len s.held ≤ s.capacity) × (s.capacity ≤ vec_capacity s.held) × (0 < s.chunk) };
}

impl MemSink {
    /// An empty sink for `capacity` bytes. A write takes at most `chunk` bytes. `fail` lists the
    /// numbers of the calls that fail: writes and finishes are numbered together, from 0.
    pub fn new(
        alloc: Global,
        capacity: usize,
        chunk: usize,
        fail: Vec<u64>,
    ) -> Result<Self, NoMemory>
        requires { 0 < chunk }
        ensures held { IfOk result (λ sink. sink.held ≡ []) }
        ensures plan { IfOk result (λ sink.
            (sink.capacity ≡ capacity) × (sink.chunk ≡ chunk) × (sink.fail ≡ fail.items)) }
        ensures fresh { IfOk result (λ sink.
            (sink.call ≡ 0) × (sink.faults ≡ 0) × (sink.settled ≡ false)) }
    {
        Ok(MemSink {
            held: Vec::with_capacity(alloc, capacity)?,
            capacity,
            chunk,
            fail,
            call: 0,
            faults: 0,
            settled: false,
        })
    }

    /// The bytes that are held.
    pub fn held(&self) -> &[u8]
        ensures { result.now ≡ self.now.held }
    {
        &self.held
    }
}

impl Sink for MemSink {
    ghost held = { λ s. Some s.held };

    ghost faults = { λ s. s.faults };

    ghost settled = { λ s. s.settled };

    ghost sure = { sure_of };

    fn write(&mut self, piece: &[u8]) -> Put
        requires { 0 < length piece.now }
        ensures bytes { Writes (Some self.old.held) (Some self.new.held) piece.now result }
        ensures sure { WritesSurely (sure_of self.old) (sure_of self.new) piece.now result }
        ensures unsettled { self.new.settled ≡ false }
        ensures later { self.old.faults ≤ self.new.faults }
        ensures failed { result ≡ Put.Failed → Rose self.old.faults self.new.faults }

        // A listed write fails, and so does one with no room. Any other takes all that it may.
        ensures fails { (result ≡ Put.Failed)
            ↔ (Contains self.old.fail self.old.call ⊎ (free_of self.old ≡ 0)) }
        ensures taken { (n : ℕ) → result ≡ Put.Took n → n ≡ write_size self.old (length piece.now) }

        ensures count { self.new.faults ≡ faults_after_write self.old.faults result }
        ensures call { self.new.call ≡ one_more self.old.call }
        ensures plan { SamePlan self.old self.new }
    {
        self.settled = false;
        let call = self.call;
        self.call = call.saturating_add(1);
        let free = self.capacity - self.held.len();
        if free == 0 || self.fail.contains(&call) {
            self.faults = self.faults.saturating_add(1);
            return Put::Failed;
        }
        let n = self.chunk.min(piece.len().min(free));
        self.held.extend_from_slice(&piece[..n]).unwrap();
        Put::Took(n)
    }

    fn finish(&mut self) -> Fin
        ensures bytes { Keeps (Some self.old.held) (Some self.new.held) }
        ensures sure { FinishesSurely (sure_of self.old) (sure_of self.new) result }
        ensures settled { IsTrue self.new.settled ↔ (result ≡ Fin.Done) }
        ensures later { self.old.faults ≤ self.new.faults }
        ensures failed { result ≡ Fin.Failed → Rose self.old.faults self.new.faults }
        ensures listed { (result ≡ Fin.Failed) ↔ Contains self.old.fail self.old.call }
        ensures count { self.new.faults ≡ faults_after_finish self.old.faults result }
        ensures call { self.new.call ≡ one_more self.old.call }
        ensures plan { SamePlan self.old self.new }
    {
        let call = self.call;
        self.call = call.saturating_add(1);
        if self.fail.contains(&call) {
            self.faults = self.faults.saturating_add(1);
            self.settled = false;
            return Fin::Failed;
        }
        self.settled = true;
        Fin::Done
    }
}
