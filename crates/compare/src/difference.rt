//! What is not as it ought to be.
use std::alloc::{AllocError, Global};
use std::fmt;

/// Two answers that ought to be alike and are not, as text.
#[derive(Drop)]
pub struct Difference {
    /// What was compared.
    comparison: String,
    /// What the library says.
    got: String,
    /// What the second side says, or what the library ought to say again.
    wanted: String,
}

impl Difference {
    pub fn of<T: fmt::Debug>(
        heap: Global,
        comparison: impl fmt::Display + Drop,
        got: &T,
        wanted: &T,
    ) -> Result<Difference, AllocError> {
        Ok(Difference {
            comparison: format!(in heap; "{comparison}")?,
            got: format!(in heap; "{got:?}")?,
            wanted: format!(in heap; "{wanted:?}")?,
        })
    }
}

impl fmt::Display for Difference {
    fn fmt<W: fmt::Write>(&self, f: &mut fmt::Formatter<W>) -> fmt::Result {
        writeln!(f, "  {}", self.comparison)?;
        writeln!(f, "    got    {}", self.got)?;
        write!(f, "    wanted {}", self.wanted)
    }
}
