//! One time of each task but of a load, a write-out and a run, which are one call each. A file that cannot be loaded is refused.
ghost use Rattle.std.specs.Prelude.{◌≡◌, MatchResult};
ghost use Rattle.clock.specs.Lines.{line_of};
ghost use Rattle.clock.specs.Tasks.{TidiedAndKept, OpenedAndAbandoned, ChangedAndAbandoned, NotChanged};
ghost use Rattle.dataflow.specs.Takes.{Solved};
ghost use Rattle.workspace.specs.Calls.{load, not_loaded};
ghost use Rattle.workspace.specs.Does.{Does};
ghost use Rattle.workspace.specs.Stored.{model_of};

use crate::attempt;
use crate::attempt::open_on;
use crate::error::Fault;
use crate::line::{Code, Line};
use crate::pick::Picks;
use dataflow::policy::Policy;
use dataflow::solve::solve as solve_in;
use rewrite::change::Change;
use workspace::refusal::LoadFault;
use workspace::workspace::Workspace;

/// Loads a file and tidies it in an attempt that is kept; answers the number of changes.
pub fn tidy<P: Policy>(
    space: &mut Workspace,
    file: &[u8],
    picks: &mut Picks<P>,
) -> Result<usize, LoadFault>
    ensures { MatchResult result
        (λ changes. TidiedAndKept file.now (model_of space.old) changes (model_of space.new))
        (λ fault. Does (load file.now) (model_of space.old) (not_loaded fault) (model_of space.new)) }
{
    let attempt = open_on(space, file, picks)?;
    let changes = attempt::tidy(space, &attempt, picks);
    attempt::keep(space, attempt);
    Ok(changes)
}

/// Loads a file, and opens an attempt that is abandoned.
pub fn abandon<P: Policy>(
    space: &mut Workspace,
    file: &[u8],
    picks: &mut Picks<P>,
) -> Result<(), LoadFault>
    ensures { MatchResult result
        (λ _. OpenedAndAbandoned file.now (model_of space.old) (model_of space.new))
        (λ fault. Does (load file.now) (model_of space.old) (not_loaded fault) (model_of space.new)) }
{
    let attempt = open_on(space, file, picks)?;
    attempt::abandon(space, attempt, picks);
    Ok(())
}

/// Loads a file, and makes a change in an attempt that is abandoned; refuses a change that no rule yields.
pub fn propose<P: Policy>(
    space: &mut Workspace,
    file: &[u8],
    change: &Change,
    picks: &mut Picks<P>,
) -> Result<(), Fault>
    ensures { MatchResult result
        (λ _. ChangedAndAbandoned file.now change.now.place change.now.instr (model_of space.old) (model_of space.new))
        (λ fault. NotChanged file.now change.now.place change.now.instr fault (model_of space.old) (model_of space.new)) }
{
    let attempt = match open_on(space, file, picks) {
        Ok(attempt) => attempt,
        Err(fault) => return Err(Fault::NotLoaded(fault)),
    };
    let proposed = attempt::propose(space, &attempt, change, picks);
    attempt::abandon(space, attempt, picks);
    match proposed {
        Ok(()) => Ok(()),
        Err(refusal) => Err(Fault::Refused(refusal)),
    }
}

/// Solves the analysis of a line; answers how many takes that took.
pub fn solve<P: Policy>(code: &Code, pick: &mut P, facts: &mut [bool; 128]) -> usize
    ensures { Solved (λ fact. Unit {0}) (line_of code.now) facts.old facts.new (P.pending pick.new) result }
{
    match solve_in::<Line, P>(code, pick, facts) {
        Ok(takes) => takes,
        // Cannot be refused: there are no more nodes than facts.
        Err(_) => unreachable!(),
    }
}
