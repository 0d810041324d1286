//! The calls that open, use and spend an attempt.
ghost use Rattle.std.specs.Prelude.{◌≡◌, not, Some};
ghost use Rattle.workspace.specs.Calls.{opens, propose, tidy, keep, abandon, kept, abandoned};
ghost use Rattle.workspace.specs.Does.{is_not_innermost, Does};
ghost use Rattle.workspace.specs.Policies.{EmptiedBy};
ghost use Rattle.workspace.specs.Stored.{contents_of, model_of};
ghost use Rattle.workspace.specs.Views.{opening, proposing, tidying, spending};

use super::{Attempt, Workspace};
use crate::held::Held;
use crate::policies::Policies;
use crate::refusal::Refusal;
use bytecode::instr::Instr;
use dataflow::policy::Policy;

impl Attempt {
    /// Whether the token's depth is the innermost attempt's.
    fn is_innermost(&self, held: &Held) -> bool
        ensures { is_not_innermost (Some (contents_of held.now)) self.now ≡ not result }
    {
        self.depth > 0 && self.depth == held.depth()
    }
}

impl Workspace {
    /// Opens an attempt within the innermost one.
    pub fn open(&mut self) -> Result<Attempt, Refusal>
        ensures { Does opens (model_of self.old) (opening result) (model_of self.new) }
    {
        if !self.loaded {
            return Err(Refusal::NoUnit);
        }
        let held = &mut self.held;
        if held.depth() == 8 {
            return Err(Refusal::TooDeep);
        }
        Ok(Attempt { depth: held.open() })
    }

    /// Changes one place to what a rule yields there.
    pub fn propose<T: Policy, C: Policy, L: Policy>(
        &mut self,
        attempt: &Attempt,
        place: usize,
        instr: Instr,
        policies: &mut Policies<T, C, L>,
    ) -> Result<(), Refusal>
        ensures does { Does (propose attempt.now place instr) (model_of self.old) (proposing result) (model_of self.new) }
        ensures policies { EmptiedBy T.pending C.pending L.pending result policies.old policies.new }
    {
        if !self.loaded {
            return Err(Refusal::NoUnit);
        }
        let held = &mut self.held;
        if !attempt.is_innermost(held) {
            return Err(Refusal::NotInnermost);
        }
        if place >= held.unit().len {
            return Err(Refusal::NoPlace);
        }
        if !held.may_become(place, instr) {
            return Err(Refusal::NoRule);
        }
        held.change(place, instr, &mut self.graph, policies);
        Ok(())
    }

    /// Applies the lowest rule at the lowest place that has one, and again, until none yields anything; answers the number of changes.
    pub fn tidy<T: Policy, C: Policy, L: Policy>(
        &mut self,
        attempt: &Attempt,
        policies: &mut Policies<T, C, L>,
    ) -> Result<usize, Refusal>
        ensures does { Does (tidy attempt.now) (model_of self.old) (tidying result) (model_of self.new) }
        ensures policies { EmptiedBy T.pending C.pending L.pending result policies.old policies.new }
    {
        if !self.loaded {
            return Err(Refusal::NoUnit);
        }
        let held = &mut self.held;
        if !attempt.is_innermost(held) {
            return Err(Refusal::NotInnermost);
        }
        Ok(held.tidy(&mut self.graph, policies))
    }

    /// Hands the innermost attempt's changes to the attempt around it, or at depth 1 forgets them.
    pub fn keep(&mut self, attempt: Attempt) -> Result<(), (Refusal, Attempt)>
        ensures { Does (keep attempt) (model_of self.old) (spending kept result) (model_of self.new) }
    {
        if !self.loaded {
            return Err((Refusal::NoUnit, attempt));
        }
        let held = &mut self.held;
        if !attempt.is_innermost(held) {
            return Err((Refusal::NotInnermost, attempt));
        }
        let Attempt { depth: _ } = attempt;
        held.keep();
        Ok(())
    }

    /// Puts back the code that was held when the innermost attempt was opened, and solves anew.
    pub fn abandon<T: Policy, C: Policy, L: Policy>(
        &mut self,
        attempt: Attempt,
        policies: &mut Policies<T, C, L>,
    ) -> Result<(), (Refusal, Attempt)>
        ensures does { Does (abandon attempt) (model_of self.old) (spending abandoned result) (model_of self.new) }
        ensures policies { EmptiedBy T.pending C.pending L.pending result policies.old policies.new }
    {
        if !self.loaded {
            return Err((Refusal::NoUnit, attempt));
        }
        let held = &mut self.held;
        if !attempt.is_innermost(held) {
            return Err((Refusal::NotInnermost, attempt));
        }
        let Attempt { depth: _ } = attempt;
        held.abandon(&mut self.graph, policies);
        Ok(())
    }
}
