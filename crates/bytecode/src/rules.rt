//! Which instructions the machine has, and where each may stand.
ghost use Rattle.std.specs.Prelude.{◌≡◌, ℕ, ◌<◌, pos, MatchResult, ◌≢◌};
ghost use Rattle.bytecode.specs.Instructions.{row, IsBare, standing, Spells, SpellsNone};

use crate::instr::Instr;
use crate::jump::target;
use crate::site::Site;
use crate::word::Word;

/// The machine has no instruction with this number, drop count and argument.
#[derive(Clone, Copy, PartialEq, Eq, Debug)]
pub struct NoSuchInstr;

/// The instruction of this number among those without operands.
fn without_operands(op: u8) -> Result<Instr, NoSuchInstr>
    ensures { MatchResult result (IsBare op) (λ _. (i : Instr) → IsBare op i → ⊥) }
{
    match op {
        0 => Ok(Instr::Nop),
        1 => Ok(Instr::Halt),
        4 => Ok(Instr::Pop),
        5 => Ok(Instr::Dup),
        6 => Ok(Instr::Swap),
        9 => Ok(Instr::Add),
        10 => Ok(Instr::Sub),
        11 => Ok(Instr::Mul),
        12 => Ok(Instr::Div),
        13 => Ok(Instr::Eq),
        14 => Ok(Instr::Lt),
        15 => Ok(Instr::Not),
        19 => Ok(Instr::In),
        20 => Ok(Instr::Out),
        _ => Err(NoSuchInstr),
    }
}

/// The local that an argument names, one of 16.
fn local(arg: i32) -> Result<u8, NoSuchInstr>
    ensures { MatchResult result (λ x. (x < 16) × (pos x ≡ arg)) (λ _. (x : ℕ) → x < 16 → pos x ≢ arg) }
{
    u8::try_from(arg)
        .ok()
        .filter(|local| *local < 16)
        .ok_or(NoSuchInstr)
}

impl TryFrom<Word> for Instr {
    type Error = NoSuchInstr;

    ghost try_from_gives = { λ word result. MatchResult result (Spells word) (λ _. SpellsNone word) };

    fn try_from(word: Word) -> Result<Instr, NoSuchInstr> {
        let Word { op, drops, arg } = word;
        match (op, drops, arg) {
            (2, 0..=2, value) => Ok(Instr::Lit { drops, value }),
            (3, 0..=2, 0) => Ok(Instr::LitFlag {
                drops,
                value: false,
            }),
            (3, 0..=2, 1) => Ok(Instr::LitFlag { drops, value: true }),
            (7, 0, arg) => Ok(Instr::Load(local(arg)?)),
            (8, 0, arg) => Ok(Instr::Store(local(arg)?)),
            (16, 0, by) => Ok(Instr::Jmp(by)),
            (17, 0, by) => Ok(Instr::Jf(by)),
            (18, 0, by) => Ok(Instr::DropJmp(by)),
            (op, 0, 0) => without_operands(op),
            _ => Err(NoSuchInstr),
        }
    }
}

impl Instr {
    /// Whether the next place can follow.
    pub fn falls_through(&self) -> bool
        ensures { result ≡ (row self.now).falls }
    {
        !matches!(self, Instr::Halt | Instr::Jmp(_) | Instr::DropJmp(_))
    }

    /// How much is left for the rewrite rules to do.
    pub fn weight(&self) -> u8
        ensures { result ≡ (row self.now).weight }
    {
        match self {
            Instr::Halt => 0,
            Instr::Lit { .. } | Instr::LitFlag { .. } | Instr::Pop | Instr::DropJmp(_) => 1,
            _ => 2,
        }
    }

    /// Whether the instruction may stand there.
    pub fn may_stand(&self, site: Site) -> bool
        ensures { result ≡ standing site.locals site.place site.len self.now }
    {
        let fitting = match self {
            Instr::Load(local) | Instr::Store(local) => *local < site.locals,
            Instr::Jmp(by) | Instr::Jf(by) | Instr::DropJmp(by) => target(
                site.place, *by, site.len,
            ).is_some(),
            _ => true,
        };
        fitting && (!self.falls_through() || site.place.saturating_add(1) < site.len)
    }
}
