//! A workspace whose depth is known outside it.
ghost use Rattle.std.specs.Prelude.{◌≡◌, ◌≢◌, ◌+◌, ◌<◌, MatchResult};
ghost use Rattle.workspace.specs.Does.{depth as depth_of};
ghost use Rattle.workspace.specs.Stored.{model_of};

use crate::pick::Picks;
use crate::side::Side;
use crate::spend::Spend;
use crate::token::Token;
use bytecode::instr::Instr;
use workspace::refusal::{LoadFault, Refusal};
use workspace::workspace::{Attempt, Workspace};

/// Keeps or abandons.
fn spend_on(
    space: &mut Workspace,
    attempt: Attempt,
    spend: Spend,
    picks: &mut Picks,
) -> Result<(), (Refusal, Attempt)>
    ensures { MatchResult result
        (λ _. (attempt ≡ depth_of (model_of space.old)) × (depth_of (model_of space.old) ≡ depth_of (model_of space.new) + 1))
        (λ back. (back.1 ≡ attempt) × (depth_of (model_of space.new) ≡ depth_of (model_of space.old)) × (0 < attempt → attempt ≢ depth_of (model_of space.old))) }
{
    match spend {
        Spend::Keep => space.keep(attempt),
        Spend::Abandon => space.abandon(attempt, picks),
    }
}

/// A workspace, and how many attempts are open in it.
#[derive(Drop)]
pub struct Desk {
    space: Workspace,
    depth: u8,
    ghost counted: { depth ≡ depth_of (model_of space) },
}

impl Desk {
    /// A workspace without a unit.
    pub fn new() -> Desk
        ensures { result.depth ≡ 0 }
    {
        Desk {
            space: Workspace::new(),
            depth: 0,
        }
    }

    /// The workspace, for what leaves it as it is.
    pub fn space(&self) -> &Workspace {
        &self.space
    }

    /// How many attempts are open.
    pub fn depth(&self) -> u8
        ensures { result ≡ self.now.depth }
    {
        self.depth
    }

    /// Loads a file.
    pub fn load(&mut self, file: &[u8], picks: &mut Picks) -> Result<(), LoadFault>
        ensures { self.new.depth ≡ self.old.depth }
    {
        self.space.load(file, picks)
    }

    /// Opens an attempt, and answers its token; `side` is which workspace this is.
    pub fn open(&mut self, side: Side) -> Result<Token, Refusal>
        ensures { MatchResult result
            (λ token. (token.depth ≡ self.new.depth) × (self.new.depth ≡ self.old.depth + 1))
            (λ _. self.new.depth ≡ self.old.depth) }
    {
        let attempt = self.space.open()?;
        self.depth += 1;
        Ok(Token {
            attempt,
            depth: self.depth,
            side,
        })
    }

    /// Proposes a change.
    pub fn propose(
        &mut self,
        attempt: &Attempt,
        place: usize,
        instr: Instr,
        picks: &mut Picks,
    ) -> Result<(), Refusal>
        ensures { self.new.depth ≡ self.old.depth }
    {
        self.space.propose(attempt, place, instr, picks)
    }

    /// Tidies.
    #[tactic(auto, using(workspace::proofs::Depths::tidy_depth))]
    pub fn tidy(&mut self, attempt: &Attempt, picks: &mut Picks) -> Result<usize, Refusal>
        ensures { self.new.depth ≡ self.old.depth }
    {
        self.space.tidy(attempt, picks)
    }

    /// Keeps or abandons; a refused call gives the token back.
    pub fn spend(
        &mut self,
        attempt: Attempt,
        spend: Spend,
        picks: &mut Picks,
    ) -> Result<(), (Refusal, Attempt)>
        ensures { MatchResult result
            (λ _. (attempt ≡ self.old.depth) × (self.old.depth ≡ self.new.depth + 1))
            (λ back. (back.1 ≡ attempt) × (self.new.depth ≡ self.old.depth) × (0 < attempt → attempt ≢ self.old.depth)) }
    {
        spend_on(&mut self.space, attempt, spend, picks)?;
        self.depth -= 1;
        Ok(())
    }
}
