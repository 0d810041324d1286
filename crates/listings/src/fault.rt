//! Why a text is no listing.
use crate::mnemonic::Mnemonic;
use std::alloc::AllocError;

/// Why a line of a listing says no instruction.
#[derive(Debug, Drop, thiserror::Error)]
pub enum LineFault {
    #[error("the first line must be \"locals L\"")]
    NoLocals,
    #[error("there is no instruction after the place")]
    NoInstruction,
    /// The place that the line should say.
    #[error("the place of this instruction is {0}")]
    WrongPlace(usize),
    #[error("no instruction is named {0:?}")]
    UnknownName(String),
    #[error("{} takes {}", .0.name, .0.operands)]
    WrongOperands(Mnemonic),
    /// A word that is no number of its range.
    #[error("{word:?} is not {range}")]
    NotNumber { word: String, range: &'static str },
    #[error("not enough memory")]
    Memory(#[from(alloc)] AllocError),
}

/// Why a text is no listing, and the line, counted from 1, that shows it.
#[derive(Debug, Drop, thiserror::Error)]
#[error("{line}: {fault}")]
pub struct TextFault {
    pub line: usize,
    pub fault: LineFault,
}
