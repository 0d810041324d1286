//! The calls of the tasks, each with its contract and with what of it makes that the next one cannot be refused.
ghost use Rattle.std.specs.Prelude.{◌≡◌, ◌≢◌, ◌<◌, IfOk, OnOk, OnErr, IsSome, MatchResult};
ghost use Rattle.clock.specs.Tasks.{Opened};
ghost use Rattle.workspace.specs.Calls.{load, opens, propose, tidy, keep, abandon, not_loaded, tidied, kept, abandoned};
ghost use Rattle.workspace.specs.Does.{depth as depth_of, Does};
ghost use Rattle.workspace.specs.Stored.{model_of};
ghost use Rattle.workspace.specs.Views.{loading, opening, proposing};

use crate::pick::Picks;
use dataflow::policy::Policy;
use rewrite::change::Change;
use workspace::refusal::{LoadFault, Refusal};
use workspace::workspace::{Attempt, Workspace};

/// Loads a file.
fn load<P: Policy>(
    space: &mut Workspace,
    file: &[u8],
    picks: &mut Picks<P>,
) -> Result<(), LoadFault>
    ensures does { Does (load file.now) (model_of space.old) (loading result) (model_of space.new) }
    ensures outermost { OnOk result ((depth_of (model_of space.new) ≡ 0) × IsSome (model_of space.new)) }
{
    space.load(file, picks)
}

/// Opens an attempt.
fn open(space: &mut Workspace) -> Result<Attempt, Refusal>
    ensures does { Does opens (model_of space.old) (opening result) (model_of space.new) }
    ensures innermost { IfOk result (λ attempt. (0 < attempt) × (attempt ≡ depth_of (model_of space.new))) }
    ensures accepted { OnErr result (IsSome (model_of space.old) → depth_of (model_of space.old) ≢ 0) }
{
    space.open()
}

/// Loads a file and opens an attempt; refuses what a load refuses.
pub fn open_on<P: Policy>(
    space: &mut Workspace,
    file: &[u8],
    picks: &mut Picks<P>,
) -> Result<Attempt, LoadFault>
    ensures does { MatchResult result
        (λ attempt. Opened file.now (model_of space.old) attempt (model_of space.new))
        (λ fault. Does (load file.now) (model_of space.old) (not_loaded fault) (model_of space.new)) }
    ensures innermost { IfOk result (λ attempt. (0 < attempt) × (attempt ≡ depth_of (model_of space.new))) }
{
    load(space, file, picks)?;
    match open(space) {
        Ok(attempt) => Ok(attempt),
        // Cannot be refused: no attempt is open after a load.
        Err(_) => unreachable!(),
    }
}

/// Tidies in an attempt; answers the number of changes.
#[tactic(auto, using(workspace::proofs::Depths::tidy_depth))]
pub fn tidy<P: Policy>(space: &mut Workspace, attempt: &Attempt, picks: &mut Picks<P>) -> usize
    requires { (0 < attempt.now) × (attempt.now ≡ depth_of (model_of space.old)) }
    ensures does { Does (tidy attempt.now) (model_of space.old) (tidied result) (model_of space.new) }
    ensures depth { depth_of (model_of space.new) ≡ depth_of (model_of space.old) }
{
    match space.tidy(attempt, picks) {
        Ok(changes) => changes,
        Err(_) => unreachable!(),
    }
}

/// Proposes a change in an attempt.
pub fn propose<P: Policy>(
    space: &mut Workspace,
    attempt: &Attempt,
    change: &Change,
    picks: &mut Picks<P>,
) -> Result<(), Refusal>
    ensures does { Does (propose attempt.now change.now.place change.now.instr) (model_of space.old) (proposing result) (model_of space.new) }
    ensures depth { depth_of (model_of space.new) ≡ depth_of (model_of space.old) }
{
    space.propose(attempt, change.place, change.instr, picks)
}

/// Keeps an attempt.
pub fn keep(space: &mut Workspace, attempt: Attempt)
    requires { (0 < attempt) × (attempt ≡ depth_of (model_of space.old)) }
    ensures { Does (keep attempt) (model_of space.old) kept (model_of space.new) }
{
    match space.keep(attempt) {
        Ok(()) => {}
        Err(_) => unreachable!(),
    }
}

/// Abandons an attempt.
pub fn abandon<P: Policy>(space: &mut Workspace, attempt: Attempt, picks: &mut Picks<P>)
    requires { (0 < attempt) × (attempt ≡ depth_of (model_of space.old)) }
    ensures { Does (abandon attempt) (model_of space.old) abandoned (model_of space.new) }
{
    match space.abandon(attempt, picks) {
        Ok(()) => {}
        Err(_) => unreachable!(),
    }
}
