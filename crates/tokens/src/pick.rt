//! A pick policy that is chosen while the program runs.
use dataflow::first_in::FirstIn;
use dataflow::highest::Highest;
use dataflow::policy::Policy;
use std::fmt;
use workspace::policies::Policies;

/// The name of a pick policy.
#[derive(Clone, Copy, PartialEq, Eq, Debug)]
pub enum PickName {
    FirstIn,
    Highest,
}

impl PickName {
    /// The policy of this name, if there is one.
    pub fn of(word: &str) -> Option<PickName> {
        match word {
            "first-in" => Some(PickName::FirstIn),
            "highest" => Some(PickName::Highest),
            _ => None,
        }
    }

    /// The other one.
    pub fn other(self) -> PickName {
        match self {
            PickName::FirstIn => PickName::Highest,
            PickName::Highest => PickName::FirstIn,
        }
    }

    /// The policy, with nothing pending.
    fn pick(self) -> Pick {
        match self {
            PickName::FirstIn => Pick::FirstIn(FirstIn::new()),
            PickName::Highest => Pick::Highest(Highest::new()),
        }
    }

    /// The policy for each analysis.
    pub fn policies(self) -> Picks {
        Policies {
            types: self.pick(),
            constants: self.pick(),
            lives: self.pick(),
        }
    }
}

impl fmt::Display for PickName {
    fn fmt<W: fmt::Write>(&self, f: &mut fmt::Formatter<W>) -> fmt::Result {
        f.write_str(match self {
            PickName::FirstIn => "first-in",
            PickName::Highest => "highest",
        })
    }
}

/// One of the pick policies.
#[derive(Drop)]
pub enum Pick {
    FirstIn(FirstIn),
    Highest(Highest),
}

/// A policy for each analysis.
pub type Picks = Policies<Pick, Pick, Pick>;

impl Policy for Pick {
    ghost use Rattle.tokens.specs.Picks.{pending_of};

    ghost pending = { pending_of };

    fn clear(&mut self) {
        match self {
            Pick::FirstIn(policy) => policy.clear(),
            Pick::Highest(policy) => policy.clear(),
        }
    }

    fn add(&mut self, node: usize) -> bool {
        match self {
            Pick::FirstIn(policy) => policy.add(node),
            Pick::Highest(policy) => policy.add(node),
        }
    }

    fn take(&mut self) -> Option<usize> {
        match self {
            Pick::FirstIn(policy) => policy.take(),
            Pick::Highest(policy) => policy.take(),
        }
    }
}
