// A source of bytes, and reading all that it has left.
ghost use Rattle.std.specs.Prelude.{◌≡◌, ◌<◌, ◌≤◌, ◌+◌, ◌^◌, ◌↔◌, Option, List, ℕ, length, vec_len, IfOk, OnOk, IsErrOf};
ghost use Rattle.std.specs.Io.KnownBytes.{Consumes, IsAtEnd};
ghost use Rattle.topos_io.specs.Fault.{Rose};
ghost use Rattle.topos_io.specs.Source.{Reads};
ghost use Rattle.topos_io.specs.declared.source.ReadEnd.TheVariants.{NoMemory};

use std::alloc::{AllocError, Global};
use std::error::Error;
use std::fmt;

/// The answer of a read.
#[derive(Clone, Copy, Debug, PartialEq, Eq)]
pub enum Took {
    /// The first bytes of the buffer are the next ones of the source: so many, and at least one.
    Got(usize),
    /// Nothing is left.
    End,
    /// The source failed, and nothing was taken from it.
    Failed,
}

/// A source of bytes.
pub trait Source {
    /// The bytes that are left, where the source tells them.
    ghost left: { Self → Option (List ℕ) };

    /// How many faults the source has had. It never falls.
    ghost faults: { Self → ℕ };

    /// Reads the next bytes into a buffer that is not empty. It answers `Took::Failed` only where
    /// the count of faults rose in this call.
    fn read(&mut self, into: &mut [u8]) -> Took
        requires { 0 < length into.old }
        ensures bytes { Reads (left self.old) (left self.new) result into.new }
        ensures later { faults self.old ≤ faults self.new }
        ensures failed { result ≡ Took.Failed → Rose (faults self.old) (faults self.new) };
}

/// Why reading all of a source gave no bytes.
#[derive(Clone, Copy, Debug, PartialEq, Eq)]
pub enum ReadEnd {
    /// A read failed.
    Fault,
    /// One byte more than the limit was taken.
    TooLong,
    /// Memory ran out.
    NoMemory,
}

impl fmt::Display for ReadEnd {
    fn fmt<W: fmt::Write>(&self, f: &mut fmt::Formatter<W>) -> fmt::Result {
        match self {
            ReadEnd::Fault => write!(f, "a read failed"),
            ReadEnd::TooLong => write!(f, "more bytes than the limit"),
            ReadEnd::NoMemory => write!(f, "out of memory"),
        }
    }
}

impl Error for ReadEnd {}

impl From<AllocError> for ReadEnd {
    ghost from_gives = { λ _ e. e ≡ NoMemory };

    fn from(_: AllocError) -> Self {
        ReadEnd::NoMemory
    }
}

// How many bytes are asked for at once.
const PAGE: usize = 4096;

/// All that the source has left, read to its end, if that is at most `limit` bytes.
///
/// It takes at most `limit + 1` bytes from the source, and answers `TooLong` exactly where it took
/// that many. `Fault` comes only where the count of faults rose in this call. With `NoMemory` too
/// the bytes that were taken are gone from the source.
pub fn read_all<S: Source>(alloc: Global, src: &mut S, limit: usize) -> Result<Vec<u8>, ReadEnd>
    requires { limit < 2 ^ 32 }
    ensures whole { IfOk result (λ bytes. Consumes (S.left src.old) (S.left src.new) bytes.items) }
    ensures end { OnOk result (IsAtEnd (S.left src.new)) }
    ensures short { IfOk result (λ bytes. vec_len bytes ≤ limit) }

    // Whatever the answer, some bytes were taken from the front.
    ensures taken { (taken : List ℕ) × Consumes (S.left src.old) (S.left src.new) taken
        × (length taken ≤ limit + 1)
        × (IsErrOf result ReadEnd.TooLong ↔ (length taken ≡ limit + 1)) }

    ensures later { S.faults src.old ≤ S.faults src.new }
    ensures fault { IsErrOf result ReadEnd.Fault → Rose (S.faults src.old) (S.faults src.new) }
{
    let mut bytes = Vec::new(alloc);
    let mut page = [0u8; PAGE];
    'turns: loop {
        let room = (limit + 1 - bytes.len()).min(PAGE);
        match src.read(&mut page[..room]) {
            Took::Got(n) => {
                if n > limit - bytes.len() {
                    return Err(ReadEnd::TooLong);
                }
                bytes.extend_from_slice(&page[..n])?;
            }
            Took::End => return Ok(bytes),
            Took::Failed => return Err(ReadEnd::Fault),
        }
    }
}
