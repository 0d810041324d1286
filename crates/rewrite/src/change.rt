//! The next change of a unit.
ghost use Rattle.std.specs.Prelude.{MatchOption};
ghost use Rattle.dataflow.specs.Takes.{at};
ghost use Rattle.analyses.specs.Frameworks.{constants_of, live_of};
ghost use Rattle.rewrite.specs.Choices.{InRange, NothingToDo, LowestChange};

use crate::rule::Rule;
use crate::yields::lowest_rule;
use bytecode::instr::Instr;
use bytecode::unit::Unit;
use facts::cell::ConstCell;
use facts::frame::Frame;
use facts::live::LiveSet;

/// An instruction for a place of a unit, and the rule that makes it.
#[derive(Clone, Copy, PartialEq, Debug)]
pub struct Change {
    pub place: usize,
    pub rule: Rule,
    pub instr: Instr,
}

/// The lowest rule that yields something at the lowest place at which one does; none where no rule yields anything at any place.
/// `known` is known before each place, and `live` is live after it.
pub fn first_change(
    unit: &Unit,
    known: &[Frame<ConstCell>; 128],
    live: &[LiveSet; 128],
) -> Option<Change>
    ensures { MatchOption result
        (NothingToDo unit.now (at (constants_of unit.now) known.now) (at (live_of unit.now) live.now))
        (λ change. LowestChange unit.now (at (constants_of unit.now) known.now) (at (live_of unit.now) live.now) change
        × InRange change.instr) }
{
    for (place, instr) in unit.instructions().iter().enumerate() {
        if let Some((rule, instr)) = lowest_rule(*instr, &known[place], live[place]) {
            return Some(Change { place, rule, instr });
        }
    }
    None
}
