//! The change that is proposed.
ghost use Rattle.std.specs.Prelude.{◌≡◌, Some, IfOk, OnOk, IsSome};
ghost use Rattle.clock.specs.Proposals.{Proposed};
ghost use Rattle.workspace.specs.Contents.{Contents};
ghost use Rattle.workspace.specs.Stored.{facts_of, model_of};

use bytecode::unit::Unit;
use rewrite::change::Change;
use rewrite::yields::lowest_rule;
use workspace::refusal::Refusal;
use workspace::shown::Facts;
use workspace::workspace::Workspace;

/// The held unit, with what of its contract `lowest_change` needs.
fn unit(space: &Workspace) -> Result<&Unit, Refusal>
    ensures held { OnOk result (IsSome (model_of space.now)) }
    ensures unit { IfOk result (λ unit. (c : Contents) → model_of space.now ≡ Some c → unit.now ≡ c.unit) }
{
    space.unit()
}

/// The facts at a place, with what of their contract `lowest_change` needs.
fn facts_at(space: &Workspace, place: usize) -> Result<Facts, Refusal>
    ensures { IfOk result (λ facts. (c : Contents) → model_of space.now ≡ Some c → facts ≡ facts_of c place) }
{
    space.facts_at(place)
}

/// The lowest rule that yields something at the lowest place at which one does; none where no rule yields anything at any place.
pub fn lowest_change(space: &Workspace) -> Result<Option<Change>, Refusal>
    ensures held { OnOk result (IsSome (model_of space.now)) }
    ensures lowest { IfOk result (λ change. (c : Contents) → model_of space.now ≡ Some c → Proposed c change) }
{
    let unit = unit(space)?;
    for (place, instr) in unit.instructions().iter().enumerate() {
        let facts = facts_at(space, place)?;
        if let Some((rule, instr)) = lowest_rule(*instr, &facts.constants, facts.live) {
            return Ok(Some(Change { place, rule, instr }));
        }
    }
    Ok(None)
}
