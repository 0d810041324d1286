//! What a workspace shows.
use facts::cell::{ConstCell, TypeCell};
use facts::frame::Frame;
use facts::live::LiveSet;

/// The facts at a place: what is known before it, and which locals are live after it.
#[derive(Clone, Copy)]
pub struct Facts {
    pub types: Frame<TypeCell>,
    pub constants: Frame<ConstCell>,
    pub live: LiveSet,
}

/// How many takes the last solving of each analysis took.
#[derive(Clone, Copy, PartialEq, Eq, Debug)]
pub struct TakeCounts {
    pub types: usize,
    pub constants: usize,
    pub lives: usize,
}
