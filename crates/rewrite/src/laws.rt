//! Laws of the rules.
ghost use Rattle.rewrite.specs.Laws.{YieldsOne, OneLowestRule, OneLowestChange, RulesLowerWeight, RulesLowerCode, CodeWeighsAtMost256};

/// A rule makes one instruction of another, an instruction has one lowest rule, and a unit one lowest change.
pub fn rules_choose_one()
    ensures instr { YieldsOne }
    ensures rule { OneLowestRule }
    ensures change { OneLowestChange }
{}

/// What a rule makes weighs less than what stood there, and so does the code with it.
pub fn rules_lower_weight()
    ensures instr { RulesLowerWeight }
    ensures code { RulesLowerCode }
{}

/// A code of at most 128 instructions weighs at most 256.
pub fn code_weighs_at_most_256()
    ensures { CodeWeighsAtMost256 }
{}
