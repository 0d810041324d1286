//! What a comparison finds.
use crate::counts::Counts;
use crate::difference::Difference;
use std::alloc::{AllocError, Global};
use std::fmt;

/// What was compared, and the differences of the file that is looked at.
#[derive(Drop)]
pub struct Tally {
    pub counts: Counts,
    pub found: Vec<Difference>,
}

impl Tally {
    /// Nothing is compared yet.
    pub fn new(heap: Global) -> Tally {
        Tally {
            counts: Counts::new(),
            found: Vec::new(heap),
        }
    }

    /// Notes a difference, where the two answers are not alike.
    pub fn compare<T: PartialEq + fmt::Debug>(
        &mut self,
        heap: Global,
        comparison: impl fmt::Display + Drop,
        got: &T,
        wanted: &T,
    ) -> Result<(), AllocError> {
        if got == wanted {
            return Ok(());
        }
        self.found
            .push(Difference::of(heap, comparison, got, wanted)?)?;
        Ok(())
    }
}
