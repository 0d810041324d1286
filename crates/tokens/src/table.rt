//! The two workspaces of a script, and the unspent tokens that their attempts answered.
ghost use Rattle.std.specs.Prelude.{◌≡◌, ℕ, ◌+◌, ◌<◌, length, drop, slice_index_or, MatchResult};
ghost use Rattle.tokens.specs.Tokens.{count_at};
ghost use Rattle.tokens.specs.Opened.{depth_on, open_at};
ghost use Rattle.tokens.specs.declared.token.Token.{Token as TheToken};

use crate::desks::Desks;
use crate::fault::TokenFault;
use crate::pick::Picks;
use crate::side::Side;
use crate::spend::Spend;
use crate::token::Token;
use bytecode::instr::Instr;
use std::alloc::Global;
use workspace::refusal::{LoadFault, Refusal};
use workspace::workspace::Workspace;

/// Two workspaces, each of which takes the tokens of both. A table must be cleared, since a token must be spent.
// It can be: of each depth there are as many tokens as open attempts.
pub struct Table {
    desks: Desks,
    // In the order in which they were answered.
    tokens: Vec<Token>,
    ghost balanced: { (d : ℕ) → count_at d tokens.items ≡ open_at d desks },
}

impl Table {
    /// Two workspaces without a unit, and no token.
    pub fn new(heap: Global) -> Table {
        Table {
            desks: Desks::new(),
            tokens: Vec::new(heap),
        }
    }

    /// One of the workspaces, for what leaves it as it is.
    pub fn space(&self, side: Side) -> &Workspace {
        self.desks.space(side)
    }

    /// How many tokens are unspent.
    pub fn unspent(&self) -> usize {
        self.tokens.len()
    }

    /// Loads a file into one of the workspaces.
    pub fn load(&mut self, side: Side, file: &[u8], picks: &mut Picks) -> Result<(), LoadFault> {
        self.desks.load(side, file, picks)
    }

    /// Opens an attempt, holds its token, and answers its depth.
    pub fn open(&mut self, side: Side) -> Result<u8, TokenFault> {
        self.tokens.reserve(1)?;
        let token = self.desks.open(side)?;
        let depth = token.depth;
        self.tokens.push_reserved(token);
        Ok(depth)
    }

    /// Proposes a change under the latest token of this depth.
    pub fn propose(
        &mut self,
        side: Side,
        depth: u8,
        place: usize,
        instr: Instr,
        picks: &mut Picks,
    ) -> Result<(), TokenFault> {
        let index = latest(self.tokens.as_slice(), depth)?;
        let attempt = &self.tokens[index].attempt;
        self.desks.propose(side, attempt, place, instr, picks)?;
        Ok(())
    }

    /// Tidies under the latest token of this depth.
    pub fn tidy(&mut self, side: Side, depth: u8, picks: &mut Picks) -> Result<usize, TokenFault> {
        let index = latest(self.tokens.as_slice(), depth)?;
        let attempt = &self.tokens[index].attempt;
        Ok(self.desks.tidy(side, attempt, picks)?)
    }

    /// Keeps or abandons with the latest token of this depth. A token that is given back is where it was.
    pub fn spend(
        &mut self,
        side: Side,
        depth: u8,
        spend: Spend,
        picks: &mut Picks,
    ) -> Result<(), TokenFault> {
        let index = latest(self.tokens.as_slice(), depth)?;
        self.spend_at(index, side, spend, picks)?;
        Ok(())
    }

    /// The depth of the token at an index.
    pub fn depth_at(&self, index: usize) -> Option<u8> {
        Some(self.tokens.get(index)?.depth)
    }

    /// Abandons the token at an index in the workspace that answered it.
    pub fn abandon_at(&mut self, index: usize, picks: &mut Picks) -> Result<(), TokenFault> {
        let token = self.tokens.get(index).ok_or(TokenFault::NoSuchToken)?;
        let side = token.side;
        self.spend_at(index, side, Spend::Abandon, picks)?;
        Ok(())
    }

    fn spend_at(
        &mut self,
        index: usize,
        on: Side,
        spend: Spend,
        picks: &mut Picks,
    ) -> Result<(), Refusal>
        requires { index < length self.old.tokens.items }
    {
        let token = self.tokens.remove(index);
        match self.desks.spend(on, token, spend, picks) {
            Ok(()) => Ok(()),
            Err((refusal, token)) => match self.tokens.insert(index, token) {
                Ok(()) => Err(refusal),
                // Cannot fail: the removed token left its room.
                Err(_token) => unreachable!(),
            },
        }
    }

    /// Abandons every token that is left, the innermost ones first, in a workspace that takes it.
    #[tactic(auto, using(crate::proofs::Counting::none_left))]
    pub fn clear(self, picks: &mut Picks) {
        let mut table = self;
        while let Some((side, depth)) = table.desks.deepest() {
            table.abandon_deepest(side, depth, picks);
        }
        let Table { desks: _, tokens } = table;
        tokens.destroy_empty();
    }

    /// Abandons a token of the innermost depth.
    fn abandon_deepest(&mut self, side: Side, depth: u8, picks: &mut Picks)
        requires { (0 < depth) × (depth_on side self.old.desks ≡ depth) × (0 < open_at depth self.old.desks) }
        ensures { length self.new.tokens.items + 1 ≡ length self.old.tokens.items }
    {
        match latest(self.tokens.as_slice(), depth) {
            Ok(index) => {
                let token = self.tokens.remove(index);
                match self.desks.spend(side, token, Spend::Abandon, picks) {
                    Ok(()) => {}
                    Err(_given_back) => unreachable!(),
                }
            }
            Err(_) => unreachable!(),
        }
    }
}

/// The token of this depth that was answered last.
#[tactic(auto, using(crate::proofs::Counting::none_from))]
fn latest(tokens: &[Token], depth: u8) -> Result<usize, TokenFault>
    ensures { MatchResult result
        (λ i. (i < length tokens.now) × ((t : TheToken) → (slice_index_or tokens.now i t).depth ≡ depth) × (count_at depth (drop (i + 1) tokens.now) ≡ 0))
        (λ _. count_at depth tokens.now ≡ 0) }
{
    // A loop: the contract of `rposition` does not tell that no later token has this depth.
    let mut index = tokens.len();
    while index > 0 {
        index -= 1;
        if tokens[index].depth == depth {
            return Ok(index);
        }
    }
    Err(TokenFault::NoSuchToken)
}
