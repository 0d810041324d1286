//! The two workspaces of a script.
ghost use Rattle.std.specs.Prelude.{◌≡◌, ◌≢◌, ℕ, ◌+◌, ◌<◌, MatchResult, MatchOption};
ghost use Rattle.tokens.specs.Tokens.{one_at};
ghost use Rattle.tokens.specs.Opened.{depth_on, open_at};

use crate::desk::Desk;
use crate::pick::Picks;
use crate::side::Side;
use crate::spend::Spend;
use crate::token::Token;
use bytecode::instr::Instr;
use workspace::refusal::{LoadFault, Refusal};
use workspace::workspace::{Attempt, Workspace};

/// The two workspaces, without the tokens.
#[derive(Drop)]
pub struct Desks {
    zero: Desk,
    one: Desk,
}

impl Desks {
    /// Two workspaces without a unit.
    pub fn new() -> Desks
        ensures { (d : ℕ) → open_at d result ≡ 0 }
    {
        Desks {
            zero: Desk::new(),
            one: Desk::new(),
        }
    }

    /// One of the workspaces, for what leaves it as it is.
    pub fn space(&self, side: Side) -> &Workspace {
        match side {
            Side::Zero => self.zero.space(),
            Side::One => self.one.space(),
        }
    }

    /// The workspace with the most open attempts, and how many; none where there is no open attempt.
    pub fn deepest(&self) -> Option<(Side, u8)>
        ensures { MatchOption result
            ((d : ℕ) → open_at d self.now ≡ 0)
            (λ r. (0 < r.1) × (depth_on r.0 self.now ≡ r.1) × (0 < open_at r.1 self.now)) }
    {
        let (side, depth) = if self.zero.depth() < self.one.depth() {
            (Side::One, self.one.depth())
        } else {
            (Side::Zero, self.zero.depth())
        };
        if depth == 0 {
            return None;
        }
        Some((side, depth))
    }

    /// Loads a file into one of them.
    pub fn load(&mut self, side: Side, file: &[u8], picks: &mut Picks) -> Result<(), LoadFault>
        ensures { (d : ℕ) → open_at d self.new ≡ open_at d self.old }
    {
        match side {
            Side::Zero => self.zero.load(file, picks),
            Side::One => self.one.load(file, picks),
        }
    }

    /// Opens an attempt on one of them, and answers its token.
    pub fn open(&mut self, side: Side) -> Result<Token, Refusal>
        ensures { MatchResult result
            (λ token. (d : ℕ) → open_at d self.new ≡ open_at d self.old + one_at d token)
            (λ _. (d : ℕ) → open_at d self.new ≡ open_at d self.old) }
    {
        match side {
            Side::Zero => self.zero.open(side),
            Side::One => self.one.open(side),
        }
    }

    /// Proposes a change on one of them.
    pub fn propose(
        &mut self,
        side: Side,
        attempt: &Attempt,
        place: usize,
        instr: Instr,
        picks: &mut Picks,
    ) -> Result<(), Refusal>
        ensures { (d : ℕ) → open_at d self.new ≡ open_at d self.old }
    {
        match side {
            Side::Zero => self.zero.propose(attempt, place, instr, picks),
            Side::One => self.one.propose(attempt, place, instr, picks),
        }
    }

    /// Tidies one of them.
    pub fn tidy(
        &mut self,
        side: Side,
        attempt: &Attempt,
        picks: &mut Picks,
    ) -> Result<usize, Refusal>
        ensures { (d : ℕ) → open_at d self.new ≡ open_at d self.old }
    {
        match side {
            Side::Zero => self.zero.tidy(attempt, picks),
            Side::One => self.one.tidy(attempt, picks),
        }
    }

    /// Keeps or abandons; a refused call gives the token back.
    pub fn spend(
        &mut self,
        on: Side,
        token: Token,
        spend: Spend,
        picks: &mut Picks,
    ) -> Result<(), (Refusal, Token)>
        ensures { MatchResult result
            (λ _. (d : ℕ) → open_at d self.new + one_at d token ≡ open_at d self.old)
            (λ back. (back.1.depth ≡ token.depth) × ((d : ℕ) → open_at d self.new ≡ open_at d self.old) × (0 < token.depth → token.depth ≢ depth_on on self.old)) }
    {
        let Token {
            attempt,
            depth,
            side,
        } = token;
        let spent = match on {
            Side::Zero => self.zero.spend(attempt, spend, picks),
            Side::One => self.one.spend(attempt, spend, picks),
        };
        match spent {
            Ok(()) => Ok(()),
            Err((refusal, attempt)) => {
                let token = Token {
                    attempt,
                    depth,
                    side,
                };
                Err((refusal, token))
            }
        }
    }
}
