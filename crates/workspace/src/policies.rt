//! The pick policies that a call is given.
ghost use Rattle.workspace.specs.Policies.{AreEmpty};

use dataflow::policy::Policy;

/// A policy for each analysis.
#[derive(Drop)]
pub struct Policies<T, C, L> {
    pub types: T,
    pub constants: C,
    pub lives: L,
}

impl<T: Policy, C: Policy, L: Policy> Policies<T, C, L> {
    /// Empties all three.
    pub(crate) fn clear(&mut self)
        ensures { AreEmpty T.pending C.pending L.pending self.new }
    {
        self.types.clear();
        self.constants.clear();
        self.lives.clear();
    }
}
