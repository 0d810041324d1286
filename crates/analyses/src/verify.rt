//! The verifier: which units cannot get stuck.
ghost use Rattle.std.specs.Prelude.{◌≡◌, ℕ, ◌<◌, MatchResult};
ghost use Rattle.dataflow.specs.Analysis.{Solution};
ghost use Rattle.dataflow.specs.Takes.{at, Solved};
ghost use Rattle.facts.specs.Frames.{Fitting};
ghost use Rattle.analyses.specs.Frameworks.{types_of};
ghost use Rattle.analyses.specs.Verdicts.{verifier_number, reason_in, Accepts, Refused, Judged, OnlyVerdict};

use crate::graph::Graph;
use crate::solution::solution;
use crate::types::Types;
use dataflow::policy::Policy;
use facts::cell::TypeCell;
use facts::frame::Frame;
use facts::reason::Reason;
use facts::types::reason;
use std::error::Error;
use std::fmt;

/// An instruction that a run may come to is not applicable: the lowest whose frame is not Clash, with the lowest reason, and if there is none, the lowest Clash.
#[derive(Clone, Copy, PartialEq, Eq, Debug)]
pub struct VerifierFault {
    pub place: usize,
    pub reason: Reason,
}

impl VerifierFault {
    /// The refusal number.
    pub fn number(&self) -> u8
        ensures { result ≡ verifier_number self.now }
    {
        8
    }
}

/// As the program tells it: the refusal number, the layer that refuses, the place and the reason's number.
impl fmt::Display for VerifierFault {
    fn fmt<W: fmt::Write>(&self, f: &mut fmt::Formatter<W>) -> fmt::Result {
        write!(
            f,
            "refused {} verifier place {} reason {}",
            self.number(),
            self.place,
            self.reason.number()
        )
    }
}

impl Error for VerifierFault {}

/// Solves the types of a unit into `facts`, and accepts it exactly when every instruction that a run may come to is applicable; answers how many takes it took.
pub fn verify<P: Policy>(
    graph: &Graph,
    policy: &mut P,
    facts: &mut [Frame<TypeCell>; 128],
) -> Result<usize, VerifierFault>
    ensures { MatchResult result
        (λ takes. Solved Fitting (types_of graph.now) facts.old facts.new (P.pending policy.new) takes
        × Accepts graph.now (at (types_of graph.now) facts.new))
        (λ fault. ((takes : ℕ) × Solved Fitting (types_of graph.now) facts.old facts.new (P.pending policy.new) takes)
        × Refused graph.now (at (types_of graph.now) facts.new) fault) }
{
    let takes = solution::<Types, P>(graph, policy, facts);
    judge_solved(graph, facts)?;
    Ok(takes)
}

/// What the type frames at its places say of a unit if they solve the equations of its types. `judge` says it of any frames, and takes longer.
// An instruction that is not applicable leads on, and carries Clash there. So where no frame is Clash all are applicable.
pub fn judge_solved(graph: &Graph, facts: &[Frame<TypeCell>; 128]) -> Result<(), VerifierFault>
    ensures { Solution Fitting (types_of graph.now) (at (types_of graph.now) facts.now) → Judged graph.now (at (types_of graph.now) facts.now) result }
{
    let count = graph.unit().len;
    for place in 0..count {
        if matches!(facts[place], Frame::Clash) {
            return judge(graph, facts);
        }
    }
    Ok(())
}

/// What the type frames at its places say of a unit.
pub fn judge(graph: &Graph, facts: &[Frame<TypeCell>; 128]) -> Result<(), VerifierFault>
    ensures answer { Judged graph.now (at (types_of graph.now) facts.now) result }
    ensures only { OnlyVerdict graph.now (at (types_of graph.now) facts.now) result }
{
    let mut clash = None;
    for place in 0..graph.unit().len {
        if let Some(reason) = reason_in(graph, facts, place) {
            if reason != Reason::Clash {
                return Err(VerifierFault { place, reason });
            }
            clash = clash.or(Some(place));
        }
    }
    match clash {
        None => Ok(()),
        Some(place) => Err(VerifierFault {
            place,
            reason: Reason::Clash,
        }),
    }
}

/// Why the instruction at a place is not applicable, if it is not.
fn reason_in(graph: &Graph, facts: &[Frame<TypeCell>; 128], place: usize) -> Option<Reason>
    requires { place < graph.now.len }
    ensures { result ≡ reason_in graph.now (at (types_of graph.now) facts.now) place }
{
    reason(graph.instr(place), &facts[place])
}
