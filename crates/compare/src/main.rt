//! Compares the library with a second machine and solver, and tries the sample units.
#![tactic(auto)]

mod attempt;
mod counts;
mod difference;
mod error;
mod files;
mod histories;
mod samples;
mod sides;
mod tally;
mod task;
mod trials;
mod units;
mod unverified;
mod written;

use crate::error::Error;
use crate::files::compare_files;
use crate::samples::samples;
use crate::task::{Task, parse};
use std::env;
use std::process::ExitCode;
use std::rt::Env;

/// Does what the words after the program's name ask for; answers how many differences there are.
fn perform(rt: &(impl Env + Print + AllocGlobal)) -> Result<u64, Error> {
    let words: Vec<String> = env::args(rt)?.skip(1).collect(rt.alloc())?;
    match parse(rt.alloc(), words.as_slice())? {
        Task::Samples => try_samples(rt),
        Task::All { count, seed } => {
            let wrong = try_samples(rt)?;
            Ok(wrong.saturating_add(compare_files(rt, count, seed)?))
        }
    }
}

/// Prints what comes out at each sample; answers how many are wrong.
fn try_samples(rt: &(impl Print + AllocGlobal)) -> Result<u64, Error> {
    let samples = samples(rt.alloc())?;
    for sample in samples.iter() {
        println!(rt; "{sample}")?;
    }
    Ok(samples.iter().filter(|sample| !sample.is_right()).count() as u64)
}

fn main(rt: HostRuntime) -> ExitCode {
    match perform(&rt) {
        Ok(0) => ExitCode::SUCCESS,
        Ok(_) => ExitCode::FAILURE,
        Err(error) => {
            let _ = eprintln!(rt; "{error}");
            ExitCode::FAILURE
        }
    }
}
