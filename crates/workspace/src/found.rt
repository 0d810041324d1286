//! One analysis, solved.
ghost use Rattle.std.specs.Prelude.{◌≡◌, ℕ, ◌<◌, ◌≤◌, take, slice_index_or};
ghost use Rattle.dataflow.specs.Analysis.{LeastSolution};
ghost use Rattle.dataflow.specs.Pending.{IsEmpty};
ghost use Rattle.dataflow.specs.Takes.{at};
ghost use Rattle.workspace.specs.Contents.{IsSolution};

use analyses::solution::solution;
use dataflow::analysis::Analysis;
use dataflow::policy::Policy;

/// The least solution, and how many takes it took. The facts past the last node are those of earlier solvings.
#[derive(Drop)]
pub(crate) struct Found<F> {
    pub(crate) facts: [F; 128],
    pub(crate) takes: usize,
}

/// Solves an analysis anew, in place.
pub(crate) fn solve<A: Analysis, P: Policy>(
    code: &A::Code,
    policy: &mut P,
    found: &mut Found<A::Fact>,
)
    ensures least { LeastSolution (A.valid code.now) (A.meaning code.now) (at (A.meaning code.now) found.new.facts) }
    ensures solved { IsSolution (A.valid code.now) (A.meaning code.now) (at (A.meaning code.now) (take (A.meaning code.now).nodes found.new.facts)) found.new.takes }
    ensures emptied { IsEmpty (P.pending policy.new) }
{
    found.takes = solution::<A, P>(code, policy, &mut found.facts);
}

/// Copies the first facts of an array to another.
pub(crate) fn copy_first<F: Copy>(to: &mut [F; 128], from: &[F; 128], count: usize)
    requires { count ≤ 128 }
    ensures { take count to.new ≡ take count from.now }
{
    for k in 0..count {
        to[k] = from[k];
    }
}

/// The fact at a place.
pub(crate) fn fact<F: Copy>(facts: &[F; 128], place: usize) -> F
    requires { place < 128 }
    ensures { (n : ℕ) (least : F) → place < n → result ≡ slice_index_or (take n facts.now) place least }
{
    facts[place]
}
