//! Why the program fails. Each error prints as one line.
use std::alloc::AllocError;
use std::io;
use workspace::refusal::{LoadFault, Refusal};

/// Why the program fails.
#[derive(Debug, Drop, thiserror::Error)]
pub enum Error<'a> {
    #[error("clock: the words must be \"clock [answers] TASK FILE TIMES [POLICY]\"")]
    WrongWords,
    #[error("clock: TASK {0:?} is not load, tidy, abandon, propose, write, run or solve")]
    UnknownTask(&'a str),
    #[error("clock: POLICY {0:?} is not first-in or highest")]
    UnknownPolicy(&'a str),
    #[error("clock: TIMES {0:?} is not an unsigned 32-bit number")]
    NotNumber(&'a str),
    #[error("{name}: {error}")]
    File { name: &'a str, error: io::Error },
    #[error("clock: {0}")]
    Fault(#[from] Fault),
}

/// Why a task is not done.
#[derive(Debug, Drop, thiserror::Error)]
pub enum Fault {
    /// The file is not loaded.
    #[error("refused {} place {}", .0.number(), .0.place())]
    NotLoaded(#[from] LoadFault),
    /// Another call is refused.
    #[error("refused {} place 0", .0.number())]
    Refused(#[from] Refusal),
    #[error("no rule yields anything at any place of the unit")]
    NothingToPropose,
    /// No span can be told of a task that is done at no time.
    #[error("TIMES 0 leaves nothing to measure")]
    NoTimes,
    /// The arguments, the clock or the standard output fail.
    #[error("{0}")]
    System(#[from] io::Error),
    #[error("not enough memory")]
    Memory(#[from(alloc)] AllocError),
}
