//! Why a line of a script is not done.
use crate::print::{NotLoaded, Refused};
use std::alloc::AllocError;
use tokens::fault::TokenFault;
use workspace::refusal::{LoadFault, Refusal};

/// All but want of memory is an answer.
#[derive(Debug, Drop, thiserror::Error)]
pub enum Denied {
    #[error("{}", Refused(*.0))]
    Refused(#[from] Refusal),
    #[error("{}", NotLoaded(*.0))]
    NotLoaded(#[from] LoadFault),
    /// No unspent token has this depth.
    #[error("no such token")]
    NoSuchToken,
    /// The line of this number asks for nothing.
    #[error("bad line {0}")]
    BadLine(usize),
    #[error("not enough memory")]
    Memory(#[from(alloc)] AllocError),
}

impl From<TokenFault> for Denied {
    fn from(fault: TokenFault) -> Denied {
        match fault {
            TokenFault::Refused(refusal) => Denied::Refused(refusal),
            TokenFault::NoSuchToken => Denied::NoSuchToken,
            TokenFault::Memory(error) => Denied::Memory(error),
        }
    }
}
