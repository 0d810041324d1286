//! The two workspaces of a script by their numbers.
use std::fmt;

/// One of the two workspaces.
#[derive(Clone, Copy, PartialEq, Eq, Debug)]
pub enum Side {
    Zero,
    One,
}

impl Side {
    /// The workspace of this number, if there is one.
    pub fn of(word: &str) -> Option<Side> {
        match word {
            "0" => Some(Side::Zero),
            "1" => Some(Side::One),
            _ => None,
        }
    }
}

impl fmt::Display for Side {
    fn fmt<W: fmt::Write>(&self, f: &mut fmt::Formatter<W>) -> fmt::Result {
        f.write_str(match self {
            Side::Zero => "0",
            Side::One => "1",
        })
    }
}
