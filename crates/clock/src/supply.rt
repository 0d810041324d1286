//! What a run is given.
ghost use Rattle.std.specs.Prelude.{◌≡◌, ◌*◌, ◌/◌, ◌%◌, ◌^◌, pos};

use std::alloc::{AllocError, Global};

/// How many inputs there are, and how many outputs have room.
const COUNT: u32 = 1_048_576;

/// The inputs of a run, and its buffer for outputs.
#[derive(Drop)]
pub struct Supply {
    pub inputs: Vec<i32>,
    pub outputs: Vec<i32>,
}

impl Supply {
    /// The scattered inputs, and zeros for outputs.
    pub fn new(heap: Global) -> Result<Supply, AllocError> {
        Ok(Supply {
            inputs: (0..COUNT).map(input).collect(heap)?,
            outputs: vec![in heap; 0i32; COUNT as usize]?,
        })
    }
}

/// The input of this number, 0 to 16,777,215: a number scattered by a multiplication.
fn input(number: u32) -> i32
    ensures { result ≡ pos (number * 2654435761 % 2 ^ 32 / 256) }
{
    (number.wrapping_mul(2_654_435_761) >> 8) as i32
}
