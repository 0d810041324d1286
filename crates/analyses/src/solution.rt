//! Solving into an array, which has room for every analysis.
ghost use Rattle.dataflow.specs.Takes.{Solved};

use dataflow::analysis::Analysis;
use dataflow::fault::SliceTooShort;
use dataflow::policy::Policy;
use dataflow::solve::solve;

/// Writes the least solution into the first entries of `facts`, and answers how many takes it took. An analysis has at most 128 nodes, so nothing is refused.
pub fn solution<A: Analysis, P: Policy>(
    code: &A::Code,
    policy: &mut P,
    facts: &mut [A::Fact; 128],
) -> usize
    ensures { Solved (A.valid code.now) (A.meaning code.now) facts.old facts.new (P.pending policy.new) result }
{
    match solve::<A, P>(code, policy, facts) {
        Ok(takes) => takes,
        Err(SliceTooShort) => unreachable!(),
    }
}
