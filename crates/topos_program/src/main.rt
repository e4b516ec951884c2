//! The program: it reads a document from standard input and writes its report to standard output.
#![tactic(auto)]

mod report;
mod run;
mod status;
#[cfg(test)]
mod tests;
mod words;

use run::run;
use status::Status;
use std::alloc::{AllocError, Global};
use std::process::ExitCode;
use std::rt::Env;
use std::{env, io};
use topos_io::streams::{StdSink, StdSource};

/// The words of the command line.
fn words_of(rt: &(impl Env + AllocGlobal)) -> io::Result<Vec<String>> {
    let mut words = Vec::new(rt.alloc());
    for word in env::args(rt)? {
        words.push(word)?;
    }
    Ok(words)
}

/// The same words, lent.
fn lent(alloc: Global, words: &[String]) -> Result<Vec<&str>, AllocError> {
    let mut lent = Vec::new(alloc);
    for word in words {
        lent.push(word.as_str())?;
    }
    Ok(lent)
}

/// Runs over standard input and output.
fn run_streams(rt: &(impl Input + Print + AllocGlobal), words: &[String]) -> Status {
    let Ok(words) = lent(rt.alloc(), words) else {
        return Status::NoMemory;
    };
    let mut src = StdSource::new(rt.reader());
    let mut out = StdSink::new(io::writer(rt));
    run(rt.alloc(), &words, &mut src, &mut out)
}

/// The status where the words cannot be had.
fn without_words(error: &io::Error) -> Status {
    if error.kind() == io::ErrorKind::OutOfMemory {
        Status::NoMemory
    } else {
        Status::Usage
    }
}

fn main(rt: HostRuntime) -> ExitCode {
    let status = match words_of(&rt) {
        Ok(words) => run_streams(&rt, &words),
        Err(error) => without_words(&error),
    };
    if status == Status::Usage {
        let _ = eprintln!(rt; "usage: topos run");
    }
    ExitCode::from(status.code())
}
