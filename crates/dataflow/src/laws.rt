//! Laws of solutions, of every analysis.
ghost use Rattle.std.specs.Prelude.{◌≡◌, ℕ};
ghost use Rattle.dataflow.specs.Analysis.{OneLeastSolution};
ghost use Rattle.dataflow.specs.Takes.{LegalLists};

use crate::analysis::Analysis;

/// Two least solutions are equal at each node, so the facts do not depend on the policy.
pub fn one_least_solution<A: Analysis>()
    ensures { (code : A.Code) → OneLeastSolution (A.valid code) (A.meaning code) }
{}

/// Every legal list ends in the least solution, and has at most one take for each node and rank.
pub fn legal_lists<A: Analysis>()
    ensures { (code : A.Code) → LegalLists (A.valid code) (A.meaning code) }
{}
