//! The calls that leave the workspace as it is.
ghost use Rattle.std.specs.Prelude.{◌≡◌, MatchResult, Some, None};
ghost use Rattle.workspace.specs.declared.refusal.Refusal.TheVariants.{NoUnit};
ghost use Rattle.workspace.specs.Calls.{run, write_out, facts_at, take_counts, unit_now};
ghost use Rattle.workspace.specs.Does.{Does};
ghost use Rattle.workspace.specs.Stored.{model_of};
ghost use Rattle.workspace.specs.Views.{running, writing, showing, counting, telling};

use super::Workspace;
use crate::held::Held;
use crate::refusal::Refusal;
use crate::shown::{Facts, TakeCounts};
use bytecode::unit::Unit;
use bytecode::write::write;
use machine::answer::Answer;
use machine::run::run;

impl Workspace {
    /// What is held, if a unit is loaded.
    fn held(&self) -> Result<&Held, Refusal>
        ensures { MatchResult result (λ held. self.now ≡ Some held.now) (λ refusal. (self.now ≡ None) × (refusal ≡ NoUnit)) }
    {
        if !self.loaded {
            return Err(Refusal::NoUnit);
        }
        Ok(&self.held)
    }

    /// Runs the held code for at most `budget` steps, with its outputs at the start of the buffer `outputs`.
    pub fn run(&self, inputs: &[i32], outputs: &mut [i32], budget: u32) -> Result<Answer, Refusal>
        ensures { Does (run inputs.now outputs.old budget) (model_of self.now) (running result outputs.new) (model_of self.now) }
    {
        Ok(run(self.unit()?, inputs, outputs, budget))
    }

    /// Writes the unit's file to the front of a buffer, and answers its length.
    pub fn write_out(&self, buffer: &mut [u8]) -> Result<usize, Refusal>
        ensures { Does (write_out buffer.old) (model_of self.now) (writing result buffer.new) (model_of self.now) }
    {
        if self.depth() > 0 {
            return Err(Refusal::AttemptOpen);
        }
        match write(self.unit()?, buffer) {
            Ok(length) => Ok(length),
            Err(_) => Err(Refusal::TooShort),
        }
    }

    /// The facts at a place.
    pub fn facts_at(&self, place: usize) -> Result<Facts, Refusal>
        ensures { Does (facts_at place) (model_of self.now) (showing result) (model_of self.now) }
    {
        let held = self.held()?;
        if place >= held.unit().len {
            return Err(Refusal::NoPlace);
        }
        Ok(held.facts_at(place))
    }

    /// How many takes the last solving of each analysis took.
    pub fn take_counts(&self) -> Result<TakeCounts, Refusal>
        ensures { Does take_counts (model_of self.now) (counting result) (model_of self.now) }
    {
        Ok(self.held()?.take_counts())
    }

    /// The held unit.
    pub fn unit(&self) -> Result<&Unit, Refusal>
        ensures { Does unit_now (model_of self.now) (telling result) (model_of self.now) }
    {
        Ok(self.held()?.unit())
    }
}
