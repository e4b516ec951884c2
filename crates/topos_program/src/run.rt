// The run: from the words, a source and a sink to a status.
ghost use Rattle.std.specs.Prelude.{◌≡◌, ◌≢◌, ◌<◌, ◌≤◌, ◌↔◌, ℕ, map, length, take, IsTrue, IfSome, IfOk, IsErrOf};
ghost use Rattle.std.specs.Io.KnownBytes.{Appends};
ghost use Rattle.topos_io.specs.Fault.{Rose};
ghost use Rattle.topos_program.specs.declared.run.Stop.TheVariants.{NoMemory};
ghost use Rattle.topos_program.specs.Outcome.{Reports, WritesReport, WritesPart};
ghost use Rattle.topos_program.specs.Status.{IsReported};
ghost use Rattle.topos_program.specs.Words.{Accepts};

use crate::report::{Report, answer, too_long};
use crate::status::Status;
use std::alloc::Global;
use topos_io::sink::{Fin, Sink, Wrote, write_all};
use topos_io::source::{ReadEnd, Source, read_all};

// How many bytes a text may have.
const LIMIT: usize = 1_048_576;

/// Why there is no report.
#[derive(Clone, Copy, Debug, PartialEq, Eq)]
enum Stop {
    Fault,
    NoMemory,
}

impl From<topos_model::NoMemory> for Stop {
    ghost from_gives = { λ _ e. e ≡ NoMemory };

    fn from(_: topos_model::NoMemory) -> Self {
        Stop::NoMemory
    }
}

/// Whether the words are accepted.
fn accepts(words: &[&str]) -> bool
    ensures { IsTrue result ↔ Accepts (map (λ word. word.now) words.now) }
{
    match words {
        [_, word] => *word == "run",
        _ => false,
    }
}

/// The report of what the source has left.
fn report_of<S: Source>(alloc: Global, src: &mut S) -> Result<Report, Stop>
    ensures reports { IfOk result (λ report. IfSome (S.left src.old) (λ text.
        Reports text report.text.items report.status (S.left src.new))) }
    ensures status { IfOk result (λ report. IsReported report.status) }
    ensures later { S.faults src.old ≤ S.faults src.new }
    ensures fault { IsErrOf result Stop.Fault → Rose (S.faults src.old) (S.faults src.new) }
{
    match read_all(alloc, src, LIMIT) {
        Ok(text) => Ok(answer(alloc, &text)?),
        Err(ReadEnd::TooLong) => Ok(too_long(alloc)?),
        Err(ReadEnd::Fault) => Err(Stop::Fault),
        Err(ReadEnd::NoMemory) => Err(Stop::NoMemory),
    }
}

/// Writes a text and finishes.
fn publish<K: Sink>(out: &mut K, text: &[u8]) -> Wrote
    ensures whole { result ≡ Wrote.Done → Appends (K.held out.old) (K.held out.new) text.now }
    ensures settled { result ≡ Wrote.Done → IsTrue (K.settled out.new) }
    ensures part { (n : ℕ) × Appends (K.held out.old) (K.held out.new) (take n text.now) }
    ensures room { result ≡ Wrote.Fault → IfSome (K.sure out.old) (λ room. room < length text.now) }
    ensures later { K.faults out.old ≤ K.faults out.new }
    ensures fault { result ≡ Wrote.Fault → Rose (K.faults out.old) (K.faults out.new) }
{
    match write_all(out, text) {
        Wrote::Fault => Wrote::Fault,
        Wrote::Done => match out.finish() {
            Fin::Failed => Wrote::Fault,
            Fin::Done => Wrote::Done,
        },
    }
}

/// Reads a document, and writes and finishes its report.
pub fn run<S: Source, K: Sink>(alloc: Global, words: &[&str], src: &mut S, out: &mut K) -> Status
    // A whole report is written and finished, and the text was read.
    ensures report { IsReported result → IfSome (S.left src.old) (λ text.
        WritesReport text result (S.left src.new) (K.held out.old) (K.held out.new)) }
    ensures settled { IsReported result → IsTrue (K.settled out.new) }

    // A write or a finish failed, and a front part of a report is held: one that the sink was not sure to have room for.
    ensures write_fault { result ≡ Status.WriteFault → Rose (K.faults out.old) (K.faults out.new) }
    ensures part { result ≡ Status.WriteFault → IfSome (S.left src.old) (λ text.
        WritesPart text (S.left src.new) (K.held out.old) (K.held out.new) (K.sure out.old)) }

    // A read failed, and nothing is written.
    ensures read_fault { result ≡ Status.ReadFault → Rose (S.faults src.old) (S.faults src.new) }
    ensures unread { result ≡ Status.ReadFault → out.new ≡ out.old }
    ensures no_memory { result ≡ Status.NoMemory → out.new ≡ out.old }

    // The words alone decide whether anything is done.
    ensures usage { (result ≢ Status.Usage) ↔ Accepts (map (λ word. word.now) words.now) }
    ensures idle { result ≡ Status.Usage → (src.new ≡ src.old) × (out.new ≡ out.old) }

    ensures later { (S.faults src.old ≤ S.faults src.new) × (K.faults out.old ≤ K.faults out.new) }
{
    if !accepts(words) {
        return Status::Usage;
    }
    let report = match report_of(alloc, src) {
        Ok(report) => report,
        Err(Stop::Fault) => return Status::ReadFault,
        Err(Stop::NoMemory) => return Status::NoMemory,
    };
    match publish(out, &report.text) {
        Wrote::Fault => Status::WriteFault,
        Wrote::Done => report.status,
    }
}
