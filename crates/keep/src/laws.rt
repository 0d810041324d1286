//! Laws of the rules.
ghost use Rattle.keep.specs.Keeps.{RulesKeepRuns, RulesKeepUnits, RulesKeepAcceptance};

/// A rule changes no whole answer, and no run of the changed unit is stuck.
pub fn rules_keep_runs()
    ensures { RulesKeepRuns }
{}

/// What a rule makes may stand where the instruction stood.
pub fn rules_keep_units()
    ensures { RulesKeepUnits }
{}

/// The verifier accepts what the rules make of a unit that it accepts.
pub fn rules_keep_acceptance()
    ensures { RulesKeepAcceptance }
{}
