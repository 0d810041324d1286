//! An attempt that is opened, tidied in and kept.
ghost use Rattle.std.specs.Prelude.{◌≡◌, ◌≢◌, ◌<◌, IfOk, IfErr};
ghost use Rattle.workspace.specs.Does.{depth as depth_of};
ghost use Rattle.workspace.specs.Stored.{model_of};

use picks::pick::Picks;
use workspace::refusal::Refusal;
use workspace::workspace::{Attempt, Workspace};

/// Opens an attempt, with what of its contract `tidy_and_keep` needs.
fn open(space: &mut Workspace) -> Result<Attempt, Refusal>
    ensures { IfOk result (λ attempt. (0 < attempt) × (attempt ≡ depth_of (model_of space.new))) }
{
    space.open()
}

/// Tidies in the attempt, with what of its contract `tidy_and_keep` needs.
#[tactic(auto, using(workspace::proofs::Depths::tidy_depth))]
fn tidy(space: &mut Workspace, attempt: &Attempt, picks: &mut Picks) -> Result<usize, Refusal>
    ensures { depth_of (model_of space.new) ≡ depth_of (model_of space.old) }
{
    space.tidy(attempt, picks)
}

/// Keeps the attempt, with what of its contract `tidy_and_keep` needs.
fn keep(space: &mut Workspace, attempt: Attempt) -> Result<(), (Refusal, Attempt)>
    ensures { IfErr result (λ back. 0 < attempt → attempt ≢ depth_of (model_of space.old)) }
{
    space.keep(attempt)
}

/// Tidies in an attempt of its own, which is kept; answers the number of changes.
pub fn tidy_and_keep(space: &mut Workspace, picks: &mut Picks) -> Result<usize, Refusal> {
    let attempt = open(space)?;
    let changes = tidy(space, &attempt, picks);
    match keep(space, attempt) {
        Ok(()) => changes,
        Err(_) => unreachable!(),
    }
}
