// From a text to its report.
ghost use Rattle.std.specs.Prelude.{◌≡◌, ◌<◌, ℕ, List, [], ◌∷◌, length, IfOk};
ghost use Rattle.topos_report.specs.EmptyDocument.{no_category, only_topology, empty_document};
ghost use Rattle.topos_text.specs.TextFaults.{SpellsWithin, TextFault};
ghost use Rattle.topos_program.specs.Outcome.{IsDocumentReport, IsTextRefusal, IsReportOf, limit};
ghost use Rattle.topos_program.specs.Status.{IsReported};

use crate::status::Status;
use std::alloc::Global;
use topos_model::{Doc, End, Fault, Kind, NoMemory, RawCat, Row, TopDecl};
use topos_reader::{ReadFault, read};
use topos_report::report_bytes;
use topos_session::run_document;

/// How many cells a run may have.
const BUDGET: u64 = 4_000_000;

/// A report's bytes, and the status of a run that wrote them.
#[derive(Drop)]
pub struct Report {
    pub text: Vec<u8>,
    pub status: Status,
}

fn no_category(alloc: Global) -> RawCat
    ensures { result ≡ no_category }
{
    RawCat {
        objects: 0,
        ends: Row::new(alloc),
        listed: Row::new(alloc),
    }
}

/// The list of the topology that is there where none is declared.
fn only_topology(alloc: Global) -> Result<Row<TopDecl>, NoMemory>
    ensures { IfOk result (λ tops. tops ≡ only_topology ∷ []) }
{
    let mut tops = Row::new(alloc);
    tops.push(TopDecl {
        name: None,
        dense: false,
        covers: Row::new(alloc),
    })?;
    Ok(tops)
}

/// The document with nothing in it.
#[tactic(auto, unfolding(topos_report::specs::EmptyDocument::empty_document))]
fn empty_document(alloc: Global) -> Result<Doc, NoMemory>
    ensures { IfOk result (λ doc. doc ≡ empty_document) }
{
    let tops = only_topology(alloc)?;
    Ok(Doc {
        version: 1,
        objects: Row::new(alloc),
        arrows: Row::new(alloc),
        cat: no_category(alloc),
        tops,
        site_len: 0,
        functors: Row::new(alloc),
        maps: Row::new(alloc),
        stmts: Row::new(alloc),
        cats: Row::new(alloc),
        cat_functors: Row::new(alloc),
        on_functors: Row::new(alloc),
        on_maps: Row::new(alloc),
    })
}

/// The report of a text that is refused for its first fault.
pub fn refusal(alloc: Global, fault: Fault) -> Result<Report, NoMemory>
    ensures report { IfOk result (λ report. (text : List ℕ) → TextFault text fault → IsTextRefusal text report.text.items report.status) }
    ensures status { IfOk result (λ report. IsReported report.status) }
{
    let doc = empty_document(alloc)?;
    let end = End::Refused { at: None, fault };
    let text = report_bytes(alloc, &doc, &[], &end)?;
    Ok(Report {
        text,
        status: Status::Refused,
    })
}

/// The report of a text that is too long.
pub fn too_long(alloc: Global) -> Result<Report, NoMemory>
    ensures report { IfOk result (λ report. (text : List ℕ) → limit < length text → IsTextRefusal text report.text.items report.status) }
    ensures status { IfOk result (λ report. IsReported report.status) }
{
    refusal(
        alloc,
        Fault::TooMany {
            kind: Kind::Document,
            limit: 1_048_576,
        },
    )
}

/// The report of a document.
fn document_report(alloc: Global, doc: Doc) -> Result<Report, NoMemory>
    ensures report { IfOk result (λ report. (text : List ℕ) → SpellsWithin text doc → IsDocumentReport text report.text.items report.status) }
    ensures status { IfOk result (λ report. IsReported report.status) }
{
    let run = run_document(alloc, doc, BUDGET)?;
    let text = report_bytes(alloc, &run.doc, run.answers.as_slice(), &run.end)?;
    Ok(Report {
        text,
        status: Status::of(run.answers.as_slice(), &run.end),
    })
}

/// The report of a text.
pub fn answer(alloc: Global, text: &[u8]) -> Result<Report, NoMemory>
    ensures report { IfOk result (λ report. IsReportOf text.now report.text.items report.status) }
    ensures status { IfOk result (λ report. IsReported report.status) }
{
    match read(alloc, text) {
        Ok(doc) => document_report(alloc, doc),
        Err(ReadFault::Refused(fault)) => refusal(alloc, fault),
        Err(ReadFault::NoMemory) => Err(NoMemory),
    }
}
