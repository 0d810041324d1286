//! Unspent tokens.
ghost use Rattle.std.specs.Prelude.{◌≡◌};

use crate::side::Side;
use workspace::workspace::Attempt;

/// The token of an open attempt, the depth that it was answered with, and the workspace that answered it.
pub struct Token {
    pub attempt: Attempt,
    pub depth: u8,
    pub side: Side,
    ghost named: { depth ≡ attempt },
}
