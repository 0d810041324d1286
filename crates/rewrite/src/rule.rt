//! The rules.
ghost use Rattle.std.specs.Prelude.{◌≡◌};
ghost use Rattle.rewrite.specs.Rules.{rule_number};

#[derive(Clone, Copy, PartialEq, Eq, Debug)]
pub enum Rule {
    /// An instruction that no run comes to becomes HALT.
    Unreached,
    /// An instruction whose result is known becomes a literal.
    Literal,
    /// A JF on a known flag becomes POP or DJMP.
    Branch,
    /// A STORE of a local that is not live after it becomes POP.
    DeadStore,
}

impl Rule {
    /// The rules, the lowest number first.
    pub const ALL: [Rule; 4] = [
        Rule::Unreached,
        Rule::Literal,
        Rule::Branch,
        Rule::DeadStore,
    ];

    pub fn number(self) -> u8
        ensures { result ≡ rule_number self }
    {
        match self {
            Rule::Unreached => 1,
            Rule::Literal => 2,
            Rule::Branch => 3,
            Rule::DeadStore => 4,
        }
    }
}
