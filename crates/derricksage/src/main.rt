//! Makes, lists and runs units of stack bytecode.
#![tactic(auto)]

mod answer;
mod command;
mod denied;
mod error;
mod known;
mod perform;
mod play;
mod print;
mod script;
mod source;
mod tidy;
mod trace;

use crate::error::Error;
use crate::perform::perform;
use std::env;
use std::process::ExitCode;
use std::rt::Env;

/// The words after the program's name.
fn words(rt: &(impl Env + AllocGlobal)) -> Result<Vec<String>, Error<'static>> {
    Ok(env::args(rt)?.skip(1).collect(rt.alloc())?)
}

/// Says on standard error why the program fails.
fn fail(rt: &impl Eprint, error: Error<'_>) -> ExitCode {
    let _ = eprintln!(rt; "{error}");
    ExitCode::FAILURE
}

fn main(rt: HostRuntime) -> ExitCode {
    let words = match words(&rt) {
        Ok(words) => words,
        Err(error) => return fail(&rt, error),
    };
    match perform(&rt, words.as_slice()) {
        Ok(()) => ExitCode::SUCCESS,
        Err(error) => fail(&rt, error),
    }
}
