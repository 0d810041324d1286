//! A pick policy that is one of several.
ghost use Rattle.dataflow.specs.Pending.{IsEmpty};
ghost use Rattle.picks.specs.Picks.{pending_of};
ghost use Rattle.workspace.specs.Policies.{AreEmpty};

use crate::seeded::Seeded;
use dataflow::first_in::FirstIn;
use dataflow::highest::Highest;
use dataflow::policy::Policy;
use draws::random::Random;
use std::fmt;
use workspace::policies::Policies;

/// Which pick policy, by its seed where it has one.
#[derive(Clone, Copy, PartialEq, Eq, Debug)]
pub enum PickName {
    FirstIn,
    Highest,
    Seeded(u32),
}

impl PickName {
    /// Each of the policies, the last with a seed of its own.
    pub fn each(random: &mut Random) -> [PickName; 3] {
        [
            PickName::FirstIn,
            PickName::Highest,
            PickName::Seeded(random.below(u32::MAX)),
        ]
    }

    /// One of the policies.
    pub fn any(random: &mut Random) -> PickName {
        match random.below(3) {
            0 => PickName::FirstIn,
            1 => PickName::Highest,
            _ => PickName::Seeded(random.below(u32::MAX)),
        }
    }

    /// The policy, with nothing pending.
    fn pick(self) -> Pick
        ensures { IsEmpty (pending_of result) }
    {
        match self {
            PickName::FirstIn => Pick::FirstIn(FirstIn::new()),
            PickName::Highest => Pick::Highest(Highest::new()),
            PickName::Seeded(seed) => Pick::Seeded(Seeded::new(u64::from(seed))),
        }
    }

    /// The policy for each analysis.
    pub fn policies(self) -> Picks
        ensures { AreEmpty pending_of pending_of pending_of result }
    {
        Policies {
            types: self.pick(),
            constants: self.pick(),
            lives: self.pick(),
        }
    }
}

impl fmt::Display for PickName {
    fn fmt<W: fmt::Write>(&self, f: &mut fmt::Formatter<W>) -> fmt::Result {
        match self {
            PickName::FirstIn => f.write_str("first-in"),
            PickName::Highest => f.write_str("highest"),
            PickName::Seeded(seed) => write!(f, "seeded {seed}"),
        }
    }
}

/// One of the pick policies.
#[derive(Drop)]
pub enum Pick {
    FirstIn(FirstIn),
    Highest(Highest),
    Seeded(Seeded),
}

/// A policy for each analysis.
pub type Picks = Policies<Pick, Pick, Pick>;

/// A policy for each analysis, each any.
pub fn any_policies(random: &mut Random) -> Picks
    ensures { AreEmpty pending_of pending_of pending_of result }
{
    Policies {
        types: PickName::any(random).pick(),
        constants: PickName::any(random).pick(),
        lives: PickName::any(random).pick(),
    }
}

impl Policy for Pick {
    ghost use Rattle.picks.specs.Picks.{pending_of};

    ghost pending = { pending_of };

    fn clear(&mut self) {
        match self {
            Pick::FirstIn(policy) => policy.clear(),
            Pick::Highest(policy) => policy.clear(),
            Pick::Seeded(policy) => policy.clear(),
        }
    }

    fn add(&mut self, node: usize) -> bool {
        match self {
            Pick::FirstIn(policy) => policy.add(node),
            Pick::Highest(policy) => policy.add(node),
            Pick::Seeded(policy) => policy.add(node),
        }
    }

    fn take(&mut self) -> Option<usize> {
        match self {
            Pick::FirstIn(policy) => policy.take(),
            Pick::Highest(policy) => policy.take(),
            Pick::Seeded(policy) => policy.take(),
        }
    }
}
