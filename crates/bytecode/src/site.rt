//! Where an instruction stands.

/// The place `place` of a unit of `len` instructions over `locals` locals.
#[derive(Clone, Copy, PartialEq, Eq, Debug)]
pub struct Site {
    pub locals: u8,
    pub place: usize,
    pub len: usize,
}
