// A sink for bytes, and writing all of a text to it.
ghost use Rattle.std.specs.Prelude.{◌≡◌, ◌<◌, ◌≤◌, ◌+◌, ◌↔◌, Bool, Option, List, ℕ, false, length, take, IsTrue, IfSome, IsSomeAnd};
ghost use Rattle.std.specs.Io.KnownBytes.{Appends, Keeps};
ghost use Rattle.topos_io.specs.Fault.{Rose};
ghost use Rattle.topos_io.specs.Sink.{Writes, WritesSurely, FinishesSurely};

/// The answer of a write.
#[derive(Clone, Copy, Debug, PartialEq, Eq)]
pub enum Put {
    /// The first bytes of the piece are appended: so many, and at least one.
    Took(usize),
    /// The sink failed, and holds what it held.
    Failed,
}

/// The answer of a finish. Either way the sink holds what it held.
#[derive(Clone, Copy, Debug, PartialEq, Eq)]
pub enum Fin {
    /// The sink is settled.
    Done,
    /// The sink failed, and is not settled.
    Failed,
}

/// A sink for bytes.
pub trait Sink {
    /// The bytes that are held, where the sink tells them.
    ghost held: { Self → Option (List ℕ) };

    /// How many faults the sink has had. It never falls.
    ghost faults: { Self → ℕ };

    /// Whether the last answer was `Fin::Done`.
    ghost settled: { Self → Bool };

    /// How many bytes the sink takes for sure, where it is sure of a number.
    ghost sure: { Self → Option ℕ };

    /// Appends the first bytes of a piece that is not empty. It answers `Put::Failed` only where
    /// the count of faults rose in this call, and never where the sink is sure of room for the
    /// piece. Afterwards the sink is not settled.
    fn write(&mut self, piece: &[u8]) -> Put
        requires { 0 < length piece.now }
        ensures bytes { Writes (held self.old) (held self.new) piece.now result }
        ensures sure { WritesSurely (sure self.old) (sure self.new) piece.now result }
        ensures unsettled { settled self.new ≡ false }
        ensures later { faults self.old ≤ faults self.new }
        ensures failed { result ≡ Put.Failed → Rose (faults self.old) (faults self.new) };

    /// Says that the text is whole. It answers `Fin::Failed` only where the count of faults rose in
    /// this call, and never where the sink is sure of some room.
    fn finish(&mut self) -> Fin
        ensures bytes { Keeps (held self.old) (held self.new) }
        ensures sure { FinishesSurely (sure self.old) (sure self.new) result }
        ensures settled { IsTrue (settled self.new) ↔ (result ≡ Fin.Done) }
        ensures later { faults self.old ≤ faults self.new }
        ensures failed { result ≡ Fin.Failed → Rose (faults self.old) (faults self.new) };
}

/// The answer of writing all of a text.
#[derive(Clone, Copy, Debug, PartialEq, Eq)]
pub enum Wrote {
    /// All bytes are appended.
    Done,
    /// A write failed, and the bytes before it are appended.
    Fault,
}

/// Appends the bytes, all of them or up to the first write that fails. It takes no memory.
///
/// `Fault` comes only where the count of faults rose in this call, and never where the sink is sure
/// of room for all the bytes.
pub fn write_all<K: Sink>(out: &mut K, bytes: &[u8]) -> Wrote
    ensures whole { result ≡ Wrote.Done → Appends (K.held out.old) (K.held out.new) bytes.now }
    ensures part { (n : ℕ) × (n ≤ length bytes.now)
        × Appends (K.held out.old) (K.held out.new) (take n bytes.now) }
    ensures sure { IfSome (K.sure out.old) (λ room. length bytes.now ≤ room → (result ≡ Wrote.Done)
        × IsSomeAnd (K.sure out.new) (λ rest. room ≡ length bytes.now + rest)) }
    ensures unsettled { 0 < length bytes.now → K.settled out.new ≡ false }
    ensures later { K.faults out.old ≤ K.faults out.new }
    ensures fault { result ≡ Wrote.Fault → Rose (K.faults out.old) (K.faults out.new) }
{
    let mut done = 0;
    'turns: while done < bytes.len() {
        match out.write(&bytes[done..]) {
            Put::Took(n) => done += n,
            Put::Failed => return Wrote::Fault,
        }
    }
    Wrote::Done
}
