//! A way from a place to one that may follow it.

#[derive(Clone, Copy, PartialEq, Eq, Debug)]
pub struct Edge {
    pub start: usize,
    pub end: usize,
    /// By the jump of the instruction at its start, and else to the next place.
    pub jump: bool,
}
