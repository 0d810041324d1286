//! Why a command fails. Each error prints as one line: it begins with the file's name where a file is at fault, else with the program's.
use crate::command::Usage;
use crate::denied::Denied;
use analyses::verify::VerifierFault;
use bytecode::fault::ReadFault;
use facts::cell::TypeCell;
use facts::frame::Frame;
use listings::fault::TextFault;
use std::alloc::AllocError;
use std::io;

/// Why a command fails.
// No `anyhow::Error`: its line begins with the file that is at fault, or with the program.
#[derive(Debug, Drop, thiserror::Error)]
pub enum Error<'a> {
    #[error("derricksage: no command is named {0:?}; try \"derricksage help\"")]
    UnknownCommand(&'a str),
    #[error("derricksage: the words must be \"derricksage {}\"", .0.words)]
    WrongWords(&'static Usage),
    /// A word that is no number of its range.
    #[error("derricksage: {name} {word:?} is not {range}")]
    NotNumber {
        name: &'static str,
        word: &'a str,
        range: &'static str,
    },
    #[error("{name}: {error}")]
    File {
        name: &'a str,
        error: io::Error,
    },
    /// A file that a line of a script names.
    #[error("{name}:{line}: {file}: {error}")]
    ScriptFile {
        name: &'a str,
        line: usize,
        file: String,
        error: io::Error,
    },
    #[error("{name}:{fault}")]
    Listing {
        name: &'a str,
        fault: TextFault,
    },
    #[error("{name}: {fault}")]
    Refused {
        name: &'a str,
        fault: ReadFault,
    },
    /// What the verifier says of a unit, and the type frame at the place that it names.
    #[error("{name}: {fault}, types {frame}")]
    Unverified {
        name: &'a str,
        fault: VerifierFault,
        frame: Frame<TypeCell>,
    },
    /// Why the unit of a file is not tidied.
    #[error("{name}: {denied}")]
    Denied {
        name: &'a str,
        denied: Denied,
    },
    /// The arguments or the standard output fail.
    #[error("derricksage: {0}")]
    System(#[from] io::Error),
    #[error("derricksage: not enough memory")]
    Memory(#[from(alloc)] AllocError),
}
