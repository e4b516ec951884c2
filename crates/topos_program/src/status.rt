// How a run ended.
ghost use Rattle.std.specs.Prelude.{◌≡◌};
ghost use Rattle.std.specs.List.{list_all};
ghost use Rattle.topos_report.specs.AnswerLines.{is_empty};
ghost use Rattle.topos_program.specs.Status.{is_valid, code_of, status_of};

use topos_model::{Answer, End, Row, Tuple};

/// How a run ended.
#[derive(Clone, Copy, Debug, PartialEq, Eq)]
pub enum Status {
    Done,
    NotValid,
    Refused,
    Budget,
    ReadFault,
    WriteFault,
    NoMemory,
    Usage,
}

/// Whether there is no tuple.
fn is_empty(tuples: &Row<Tuple>) -> bool
    ensures { result ≡ is_empty tuples.now }
{
    tuples.len() == 0
}

/// Whether no object has a tuple.
fn are_empty(stages: &[Row<Tuple>]) -> bool
    ensures { result ≡ list_all is_empty stages.now }
{
    stages.iter().all(|tuples| is_empty(tuples))
}

/// Whether an answer is not a verdict with a tuple that is not forced.
fn is_valid(answer: &Answer) -> bool
    ensures { result ≡ is_valid answer.now }
{
    match answer {
        Answer::Verdict { unforced, .. } => are_empty(unforced.as_slice()),
        _ => true,
    }
}

/// Whether each verdict is valid.
fn are_valid(answers: &[Answer]) -> bool
    ensures { result ≡ list_all is_valid answers.now }
{
    answers.iter().all(|answer| is_valid(answer))
}

impl Status {
    /// The status of a run whose report is written.
    pub fn of(answers: &[Answer], end: &End) -> Status
        ensures { result ≡ status_of answers.now end.now }
    {
        match end {
            End::Whole { .. } => {
                if are_valid(answers) {
                    Status::Done
                } else {
                    Status::NotValid
                }
            }
            End::Checked { .. } => Status::Done,
            End::Refused { .. } => Status::Refused,
            End::Budget { .. } => Status::Budget,
        }
    }

    /// The number that the program ends with.
    pub fn code(self) -> u8
        ensures { result ≡ code_of self }
    {
        match self {
            Status::Done => 0,
            Status::NotValid => 1,
            Status::Refused => 2,
            Status::Budget => 3,
            Status::ReadFault => 4,
            Status::WriteFault => 5,
            Status::NoMemory => 6,
            Status::Usage => 7,
        }
    }
}
