//! The report of a run as bytes.
#![tactic(auto)]

ghost use Rattle.std.specs.Prelude.{◌≡◌, IfOk};
ghost use Rattle.topos_report.specs.Report.{report};

mod answers;
mod bytes;
mod cover_refusals;
mod families;
mod formula_refusals;
mod names;
mod parts;
mod refusals;
mod stages;
mod statements;
mod tables;
mod text_refusals;
mod types;
mod values;
mod verdicts;

use crate::answers::{push_answers, push_end};
use std::alloc::Global;
use topos_model::{Answer, Doc, End, NoMemory};

/// The report of a run of this document: the lines of the answers to the statements after its site, in order, and of its end.
/// Want of memory is the only error.
#[tactic(auto, unfolding(crate::specs::Report::report))]
pub fn report_bytes(
    alloc: Global,
    doc: &Doc,
    answers: &[Answer],
    end: &End,
) -> Result<Vec<u8>, NoMemory>
    ensures { IfOk result (λ bytes. bytes.items ≡ report doc.now answers.now end.now) }
{
    let mut out = Vec::new(alloc);
    push_answers(&mut out, doc, answers)?;
    push_end(&mut out, doc, end)?;
    Ok(out)
}
