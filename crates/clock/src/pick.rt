//! The pick policies that can be chosen.
ghost use Rattle.std.specs.Prelude.{◌≡◌, ◌≢◌, MatchOption};
ghost use Rattle.clock.specs.Names.{pick_name};
ghost use Rattle.clock.specs.declared.pick.PickName.{PickName as TheName};

use dataflow::first_in::FirstIn;
use dataflow::highest::Highest;
use workspace::policies::Policies;

/// The name of a pick policy.
#[derive(Clone, Copy, PartialEq, Eq, Debug)]
pub enum PickName {
    FirstIn,
    Highest,
}

impl PickName {
    /// The policy of this name, if there is one.
    pub fn of(word: &str) -> Option<PickName>
        ensures { MatchOption result ((name : TheName) → word.now ≢ pick_name name) (λ name. word.now ≡ pick_name name) }
    {
        match word {
            "first-in" => Some(PickName::FirstIn),
            "highest" => Some(PickName::Highest),
            _ => None,
        }
    }
}

/// The same kind of policy for each analysis.
pub type Picks<P> = Policies<P, P, P>;

/// First-in for each analysis, with nothing pending.
pub fn first_in() -> Picks<FirstIn> {
    Policies {
        types: FirstIn::new(),
        constants: FirstIn::new(),
        lives: FirstIn::new(),
    }
}

/// Highest for each analysis, with nothing pending.
pub fn highest() -> Picks<Highest> {
    Policies {
        types: Highest::new(),
        constants: Highest::new(),
        lives: Highest::new(),
    }
}
