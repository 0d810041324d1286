//! What a routine computes with.

/// A number or a flag.
#[derive(Clone, Copy, PartialEq, Eq, Debug)]
pub enum Value {
    Number(i32),
    Truth(bool),
}
