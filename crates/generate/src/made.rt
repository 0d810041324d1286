//! Files and inputs.
use crate::damaged::damaged;
use crate::scattered::{scattered, tall, tangled};
use crate::structured::structured;
use draws::random::Random;
use second::file::written;
use std::alloc::{AllocError, Global};

/// How a file was made.
#[derive(Clone, Copy, PartialEq, Eq, Debug)]
pub enum Sort {
    /// Of a routine of statements, which a load mostly accepts.
    Structured,
    /// Of instructions that do not know of each other.
    Random,
    /// A good file, or a good routine, with a fault put in.
    Damaged,
}

/// A file, and how it was made.
#[derive(Drop)]
pub struct Made {
    pub sort: Sort,
    pub bytes: Vec<u8>,
}

/// The next file.
pub fn file(heap: Global, random: &mut Random) -> Result<Made, AllocError> {
    let (sort, bytes) = match random.below(100) {
        0..70 => (Sort::Structured, written(heap, &structured(heap, random)?)?),
        70..76 => (Sort::Random, written(heap, &scattered(heap, random)?)?),
        76..83 => (Sort::Random, written(heap, &tangled(heap, random)?)?),
        83..85 => (Sort::Random, written(heap, &tall(heap, random)?)?),
        _ => (Sort::Damaged, damaged(heap, random)?),
    };
    Ok(Made { sort, bytes })
}

/// The inputs of a run: 0 to 12 numbers.
pub fn inputs(heap: Global, random: &mut Random) -> Result<Vec<i32>, AllocError> {
    let mut inputs = Vec::new(heap);
    for _ in 0..random.below(13) {
        inputs.push(random.number())?;
    }
    Ok(inputs)
}
