//! Uses of a workspace, as a caller writes them.
#![tactic(auto)]

ghost use Rattle.std.specs.Prelude.{◌≡◌, IfOk};
ghost use Rattle.workspace.specs.Policies.{EmptiedBy};
ghost use Rattle.workspace.specs.Replay.{history};
ghost use Rattle.workspace.specs.Stored.{model_of};
ghost use Rattle.callers.specs.Steps.{ChangedOrAbandoned, KeptOrChanged};
ghost use Rattle.callers.specs.Traces.{Untraced};

use bytecode::fault::TooShort;
use bytecode::instr::Instr;
use dataflow::policy::Policy;
use workspace::events::{Call, Reply};
use workspace::policies::Policies;
use workspace::refusal::Refusal;
use workspace::workspace::replay::replay;
use workspace::workspace::{Attempt, Workspace};

/// Changes one place under an attempt and keeps it; where the change is refused, the attempt is abandoned.
pub fn change_or_abandon<T: Policy, C: Policy, L: Policy>(
    workspace: &mut Workspace,
    attempt: Attempt,
    place: usize,
    instr: Instr,
    policies: &mut Policies<T, C, L>,
) -> Result<(), (Refusal, Attempt)>
    ensures does { ChangedOrAbandoned attempt place instr (model_of workspace.old) result (model_of workspace.new) }
    ensures policies { EmptiedBy T.pending C.pending L.pending result policies.old policies.new }
{
    if let Err(_) = workspace.propose(&attempt, place, instr, policies) {
        return workspace.abandon(attempt, policies);
    }
    workspace.keep(attempt)
}

/// Keeps an attempt; where that is refused, changes one place under the token that came back.
pub fn keep_or_change<T: Policy, C: Policy, L: Policy>(
    workspace: &mut Workspace,
    attempt: Attempt,
    place: usize,
    instr: Instr,
    policies: &mut Policies<T, C, L>,
) -> Result<(), (Refusal, Attempt)>
    ensures does { KeptOrChanged attempt place instr (model_of workspace.old) result (model_of workspace.new) }
    ensures policies { policies.new ≡ policies.old }
{
    match workspace.keep(attempt) {
        Ok(()) => Ok(()),
        Err((refusal, attempt)) => {
            let _answer = workspace.propose(&attempt, place, instr, policies);
            Err((refusal, attempt))
        }
    }
}

/// Makes two lists of calls, each on a new workspace.
pub fn replay_both<T: Policy, C: Policy, L: Policy>(
    whole: &[Call],
    cut: &[Call],
    policies: &mut Policies<T, C, L>,
    replies: &mut [Reply],
    others: &mut [Reply],
) -> Result<(), TooShort>
    ensures { IfOk result (λ done. Untraced (history whole.now replies.new) (history cut.now others.new)) }
{
    replay(whole, policies, replies)?;
    replay(cut, policies, others)
}
