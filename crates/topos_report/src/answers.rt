// Lines of answers and of the run's end.
ghost use Rattle.std.specs.Prelude.{◌≡◌, ◌≤◌, ◌+◌, ◌++◌, length, codes, OnOk};
ghost use Rattle.topos_report.specs.AnswerLines.{heading};
ghost use Rattle.topos_report.specs.Report.{answer_lines, lines_from, cells_line, end_line};

use crate::bytes::{push_bytes, push_number};
use crate::families::{push_failing_family, push_not_sheaf, push_sheaf};
use crate::refusals::push_refusal;
use crate::stages::push_tuples_list;
use crate::tables::{push_built, push_hom};
use crate::verdicts::{push_classified, push_verdict};
use topos_model::{Answer, Doc, End, NoMemory, Stmt};

/// The lines of the answer to a statement, its number being k. Those that no statement gives yet have none.
#[tactic(auto, unfolding(crate::specs::Report::answer_lines))]
fn push_answer(
    out: &mut Vec<u8>,
    doc: &Doc,
    k: u64,
    stmt: &Stmt,
    answer: &Answer,
) -> Result<(), NoMemory>
    ensures { OnOk result (out.new.items ≡ out.old.items ++ answer_lines doc.now k stmt.now answer.now) }
{
    match answer {
        Answer::Built { functor, maps } => {
            push_built(out, doc, k, stmt, functor, maps.as_slice())
        }
        Answer::Maps(maps) => push_hom(out, doc, k, maps.as_slice()),
        Answer::Shown { ctx, stages } => {
            push_number(out, k)?;
            push_bytes(out, b" show\n")?;
            push_tuples_list(out, doc, ctx.types.as_slice(), stages.as_slice())
        }
        Answer::Classified { ctx, stages } => {
            push_classified(out, doc, k, ctx.types.as_slice(), stages.as_slice())
        }
        Answer::Verdict { ctx, unforced } => {
            push_verdict(out, doc, k, ctx.types.as_slice(), unforced.as_slice())
        }
        Answer::Sheaf => push_sheaf(out, k),
        Answer::NotSheaf {
            functor,
            at,
            cover,
            family,
            found,
        } => {
            push_not_sheaf(out, k)?;
            push_failing_family(
                out,
                doc,
                *functor,
                *at,
                cover.as_slice(),
                family.as_slice(),
                *found,
            )
        }
        _ => Ok(()),
    }
}

/// The lines of the answers to the first statements after the site.
#[tactic(auto, unfolding(crate::specs::Report::lines_from))]
pub fn push_answers(out: &mut Vec<u8>, doc: &Doc, answers: &[Answer]) -> Result<(), NoMemory>
    ensures { OnOk result (out.new.items ≡ out.old.items ++ lines_from doc.now (doc.now.site_len + 1) doc.now.stmts answers.now) }
{
    let stmts = doc.stmts.as_slice();
    for i in 0..stmts.len().min(answers.len()) {
        let k = u64::from(doc.site_len) + 1 + i as u64;
        push_answer(out, doc, k, &stmts[i], &answers[i])?;
    }
    Ok(())
}

/// The line of a stop at the budget.
#[tactic(auto, unfolding(crate::specs::AnswerLines::heading))]
fn push_budget(out: &mut Vec<u8>, k: u64) -> Result<(), NoMemory>
    ensures { OnOk result (out.new.items ≡ out.old.items ++ heading k (codes "budget")) }
{
    push_number(out, k)?;
    push_bytes(out, b" budget\n")
}

/// The line of a whole run.
#[tactic(auto, unfolding(crate::specs::Report::cells_line))]
fn push_cells(out: &mut Vec<u8>, cells: u64) -> Result<(), NoMemory>
    ensures { OnOk result (out.new.items ≡ out.old.items ++ cells_line cells) }
{
    push_bytes(out, b"cells ")?;
    push_number(out, cells)?;
    push_bytes(out, b"\n")
}

/// The line of the run's end. An end that no run has yet has none.
#[tactic(auto, unfolding(crate::specs::Report::end_line))]
pub fn push_end(out: &mut Vec<u8>, doc: &Doc, end: &End) -> Result<(), NoMemory>
    ensures { OnOk result (out.new.items ≡ out.old.items ++ end_line doc.now end.now) }
{
    match end {
        End::Refused { at, fault } => push_refusal(out, doc, *at, fault),
        End::Budget { at } => push_budget(out, u64::from(*at)),
        End::Whole { cells } => push_cells(out, *cells),
        _ => Ok(()),
    }
}
