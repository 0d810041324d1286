//! Faults of tokens.
use std::alloc::AllocError;
use workspace::refusal::Refusal;

/// Why a token is not answered or not used.
#[derive(Debug, Drop)]
pub enum TokenFault {
    Refused(Refusal),
    /// No unspent token has this depth.
    NoSuchToken,
    Memory(AllocError),
}

impl From<Refusal> for TokenFault {
    fn from(refusal: Refusal) -> TokenFault {
        TokenFault::Refused(refusal)
    }
}

impl From<AllocError> for TokenFault {
    fn from(error: AllocError) -> TokenFault {
        TokenFault::Memory(error)
    }
}
