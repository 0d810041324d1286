//! Calls as data, and what they give back.
use crate::refusal::{LoadFault, Refusal};
use crate::shown::{Facts, TakeCounts};
use bytecode::instr::Instr;
use bytecode::unit::Unit;
use machine::answer::Answer;

/// A call on a workspace, with what it is given. A token is named by its depth, which may be any number.
#[derive(Clone, Copy)]
pub enum Call<'a> {
    Load(&'a [u8]),
    Open,
    Propose {
        depth: u8,
        place: usize,
        instr: Instr,
    },
    Tidy {
        depth: u8,
    },
    Keep {
        depth: u8,
    },
    Abandon {
        depth: u8,
    },
    /// Its output buffer is the first `room` of 128 zeros.
    Run {
        inputs: &'a [i32],
        room: usize,
        budget: u32,
    },
    /// Its buffer is the first `room` of 774 zero bytes, as many as the longest file has.
    WriteOut {
        room: usize,
    },
    FactsAt(usize),
    TakeCounts,
    Unit,
}

/// What a call gives back. A token is told by its depth; a buffer is the first `room` of the array.
#[derive(Clone, Copy)]
pub enum Reply {
    Loaded,
    Opened(u8),
    Changed,
    Tidied(usize),
    Kept,
    Abandoned,
    Ran {
        answer: Answer,
        room: usize,
        outputs: [i32; 128],
    },
    Written {
        length: usize,
        room: usize,
        bytes: [u8; 774],
    },
    Facts(Facts),
    TakeCounts(TakeCounts),
    Unit(Unit),
    NotLoaded(LoadFault),
    Refused(Refusal),
    /// A keep or an abandon is refused, and the token comes back.
    Returned {
        refusal: Refusal,
        depth: u8,
    },
    NotRun {
        refusal: Refusal,
        room: usize,
        outputs: [i32; 128],
    },
    NotWritten {
        refusal: Refusal,
        room: usize,
        bytes: [u8; 774],
    },
}
