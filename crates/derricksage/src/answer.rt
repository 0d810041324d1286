//! What a line of a script answers where it is done.
use bytecode::unit::Unit;
use machine::answer::Answer as RunAnswer;
use tokens::pick::PickName;
use tokens::side::Side;
use workspace::shown::{Facts, TakeCounts};

#[derive(Drop)]
pub enum Answer<'a> {
    Workspace(Side),
    Policy(PickName),
    /// So many bytes are at hand.
    Bytes(usize),
    Loaded,
    Opened(u8),
    Changed,
    Tidied(usize),
    Kept,
    Abandoned,
    Ran {
        answer: RunAnswer,
        outputs: Vec<i32>,
    },
    Wrote(Vec<u8>),
    Facts(Facts),
    Takes(TakeCounts),
    List(&'a Unit),
}
