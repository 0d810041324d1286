//! Why the program fails before it compares. Each error prints as one line.
use std::alloc::AllocError;
use std::io;

#[derive(Debug, Drop, thiserror::Error)]
pub enum Error {
    #[error("compare: the words must be \"compare [COUNT [SEED]]\" or \"compare samples\"")]
    WrongWords,
    /// A word that is no number of its range.
    #[error("compare: {name} {word:?} is not {range}")]
    NotNumber {
        name: &'static str,
        word: String,
        range: &'static str,
    },
    /// The arguments or the standard output fail.
    #[error("compare: {0}")]
    System(#[from] io::Error),
    #[error("compare: not enough memory")]
    Memory(#[from(alloc)] AllocError),
}
