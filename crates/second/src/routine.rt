//! A routine as the words that its file says, right or wrong.

/// The most locals of a routine.
pub const MOST_LOCALS: usize = 16;

/// The most rows of a routine.
pub const MOST_ROWS: usize = 128;

/// One instruction: what it does, how many values it drops, and its argument.
#[derive(Clone, Copy, PartialEq, Eq, Debug)]
pub struct Row {
    pub operation: u8,
    pub drops: u8,
    pub argument: i32,
}

/// How many locals there are, and the instructions from place 0 on.
#[derive(Clone, PartialEq, Eq, Debug, Drop)]
pub struct Routine {
    pub locals: u8,
    pub rows: Vec<Row>,
}
