// The run of a whole document.
ghost use Rattle.std.specs.Prelude.{◌≡◌, ◌≤◌, IfOk};
ghost use Rattle.natural_maps.specs.Room.{max_room};
ghost use Rattle.topos_session.specs.StagedRun.{StagedRunOf};

use crate::{Session, SiteStop, Stop};
use std::alloc::Global;
use topos_model::{Answer, Doc, End, NoMemory, Row};

/// A document, the answers of its statements, in order, up to the first that is refused, and how its run ends.
#[derive(Drop)]
pub struct Run {
    pub doc: Doc,
    pub answers: Row<Answer>,
    pub end: End,
}

/// Runs a document: its site is checked, and its statements are answered one by one. A refusal is an end of the run, and it bears the number of the
/// refused statement, or none where the site is refused. A statement with which there are more cells than the budget is an end of the run too, and a whole run ends with all cells. Want of memory is the only error.
pub fn run_document(alloc: Global, doc: Doc, budget: u64) -> Result<Run, NoMemory>
    requires budget { budget ≤ max_room }
    ensures runs { IfOk result (λ run. StagedRunOf run.doc budget run.answers run.end) }
    ensures doc { IfOk result (λ run. run.doc ≡ doc) }
{
    let mut answers = Row::new(alloc);
    let mut session = match Session::new(alloc, doc, budget) {
        Ok(session) => session,
        Err(SiteStop::Refused(doc, fault)) => {
            let end = End::Refused { at: None, fault };
            return Ok(Run { doc, answers, end });
        }
        Err(SiteStop::NoMemory) => return Err(NoMemory),
    };
    while !session.is_done() {
        let number = session.next();
        match session.step() {
            Ok(answer) => answers.push(answer)?,
            Err(Stop::Refused(fault)) => {
                let doc = session.into_doc();
                let end = End::Refused {
                    at: Some(number),
                    fault,
                };
                return Ok(Run { doc, answers, end });
            }
            Err(Stop::Budget) => {
                return Ok(Run {
                    doc: session.into_doc(),
                    answers,
                    end: End::Budget { at: number },
                });
            }
            Err(Stop::NoMemory) => return Err(NoMemory),
        }
    }
    let cells = session.cells();
    Ok(Run {
        doc: session.into_doc(),
        answers,
        end: End::Whole { cells },
    })
}
