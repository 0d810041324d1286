//! Measures the library: does one task again and again, and prints how long one time takes.
#![tactic(auto)]

mod answers;
mod attempt;
mod command;
mod error;
mod find;
mod line;
mod measure;
mod pick;
mod supply;
mod task;
mod timer;

use crate::answers::answer;
use crate::command::{Ask, Command, parse};
use crate::error::{Error, Fault};
use crate::measure::measure;
use crate::pick::{PickName, Picks, first_in, highest};
use dataflow::policy::Policy;
use std::process::ExitCode;
use std::rt::{Clock, Env, Files};
use std::{env, fs};
use workspace::workspace::Workspace;

/// The words after the program's name.
fn words(rt: &(impl Env + AllocGlobal)) -> Result<Vec<String>, Fault> {
    Ok(env::args(rt)?.skip(1).collect(rt.alloc())?)
}

/// Does what the words after the program's name ask for.
fn perform<'a>(
    rt: &(impl Files + Clock + Print + AllocGlobal),
    words: &'a [String],
) -> Result<(), Error<'a>> {
    let command = parse(words)?;
    let name = command.file;
    let file = fs::read(rt, name).map_err(|error| Error::File { name, error })?;
    match command.policy {
        PickName::FirstIn => work(rt, &command, file.as_slice(), &mut first_in())?,
        PickName::Highest => work(rt, &command, file.as_slice(), &mut highest())?,
    }
    Ok(())
}

/// Measures the task of a command or answers what it does, on the one workspace that there is.
fn work<P: Policy>(
    rt: &(impl Clock + Print + AllocGlobal),
    command: &Command<'_>,
    file: &[u8],
    picks: &mut Picks<P>,
) -> Result<(), Fault> {
    let mut space = Workspace::new();
    let Command { task, times, .. } = *command;
    match command.ask {
        Ask::Time => {
            let time = measure(rt, task, &mut space, file, times, picks)?;
            println!(rt; "{time}")?;
            Ok(())
        }
        Ask::Answers => answer(rt, task, &mut space, file, times, picks),
    }
}

/// Says on standard error why the program fails.
fn fail(rt: &impl Eprint, error: Error<'_>) -> ExitCode {
    let _ = eprintln!(rt; "{error}");
    ExitCode::FAILURE
}

fn main(rt: HostRuntime) -> ExitCode {
    let words = match words(&rt) {
        Ok(words) => words,
        Err(fault) => return fail(&rt, Error::Fault(fault)),
    };
    match perform(&rt, words.as_slice()) {
        Ok(()) => ExitCode::SUCCESS,
        Err(error) => fail(&rt, error),
    }
}
