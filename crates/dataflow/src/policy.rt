//! Pick policies: which pending node is taken next.
ghost use Rattle.std.specs.Prelude.{ℕ, Bool};
ghost use Rattle.dataflow.specs.Pending.{IsEmpty, AreBelow, Adds, Takes};

/// A set of pending nodes, each from 0 to 127.
pub trait Policy {
    // The set.
    ghost pending: { Self → ℕ → Bool };

    /// Empties the set.
    fn clear(&mut self)
        ensures { IsEmpty (pending self.new) };

    /// Puts a node in, and leaves a pending one; answers no, and leaves the set, for a node above 127.
    fn add(&mut self, node: usize) -> bool
        ensures { Adds node (pending self.old) (pending self.new) result };

    /// Removes a member, any; none exactly when the set is empty.
    fn take(&mut self) -> Option<usize>
        ensures { Takes (pending self.old) (pending self.new) result };

    /// Empties the set, and puts in the nodes below `count`, in rising order, as far as they are at most 127. It adds one after
    /// the other; an implementation may know how they stand then.
    fn fill(&mut self, count: usize)
        ensures { AreBelow count (pending self.new) }
    {
        self.clear();
        for node in 0..count.min(128) {
            self.add(node);
        }
    }
}
