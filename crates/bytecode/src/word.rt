//! An instruction as the unit file has it.
ghost use Rattle.std.specs.Prelude.{◌≡◌, ◌↔◌, IsTrue};
ghost use Rattle.bytecode.specs.Instructions.{word};
ghost use Rattle.bytecode.specs.Layout.{encoded};
ghost use Rattle.bytecode.specs.declared.word.Word.{Word as TheWord};
ghost use Rattle.bytecode.specs.Equality.{same_instr, same_instr_laws};

use crate::instr::Instr;

/// What the six bytes of an instruction say, whether the machine has such an instruction or not.
#[derive(Clone, Copy, PartialEq, Eq, Debug)]
pub struct Word {
    // A number and no enum: a file may have any.
    pub op: u8,
    pub drops: u8,
    pub arg: i32,
}

/// What six bytes of a file spell.
pub(crate) trait Spelled: Copy {
    // Its word.
    ghost spelling: { Self → TheWord };

    fn word(self) -> Word
        ensures { result ≡ spelling self };
}

impl Spelled for Word {
    ghost spelling = { λ w. w };

    fn word(self) -> Word {
        self
    }
}

impl Spelled for Instr {
    ghost spelling = { word };

    fn word(self) -> Word {
        Word::from(self)
    }
}

impl From<Instr> for Word {
    ghost from_gives = { λ instr result. result ≡ word instr };

    fn from(instr: Instr) -> Word {
        let (op, drops, arg) = match instr {
            Instr::Nop => (0, 0, 0),
            Instr::Halt => (1, 0, 0),
            Instr::Lit { drops, value } => (2, drops, value),
            Instr::LitFlag { drops, value } => (3, drops, i32::from(value)),
            Instr::Pop => (4, 0, 0),
            Instr::Dup => (5, 0, 0),
            Instr::Swap => (6, 0, 0),
            Instr::Load(local) => (7, 0, i32::from(local)),
            Instr::Store(local) => (8, 0, i32::from(local)),
            Instr::Add => (9, 0, 0),
            Instr::Sub => (10, 0, 0),
            Instr::Mul => (11, 0, 0),
            Instr::Div => (12, 0, 0),
            Instr::Eq => (13, 0, 0),
            Instr::Lt => (14, 0, 0),
            Instr::Not => (15, 0, 0),
            Instr::Jmp(by) => (16, 0, by),
            Instr::Jf(by) => (17, 0, by),
            Instr::DropJmp(by) => (18, 0, by),
            Instr::In => (19, 0, 0),
            Instr::Out => (20, 0, 0),
        };
        Word { op, drops, arg }
    }
}

/// The argument's high byte comes first.
impl From<[u8; 6]> for Word {
    ghost from_gives = { λ bytes result. encoded result ≡ bytes };

    fn from(bytes: [u8; 6]) -> Word {
        let [op, drops, a, b, c, d] = bytes;
        Word {
            op,
            drops,
            arg: i32::from_be_bytes([a, b, c, d]),
        }
    }
}

impl From<Word> for [u8; 6] {
    ghost from_gives = { λ word result. result ≡ encoded word };

    fn from(word: Word) -> [u8; 6] {
        let [a, b, c, d] = word.arg.to_be_bytes();
        [word.op, word.drops, a, b, c, d]
    }
}

/// Equal words are those of equal instructions.
// By hand: of a derived `==` no clause here would promise that it decides equality.
impl PartialEq for Instr {
    ghost eq = { same_instr };

    ghost laws = { same_instr_laws };

    fn eq(&self, other: &Instr) -> bool
        ensures eq { result ≡ same_instr self.now other.now }
        ensures decides { IsTrue result ↔ (self.now ≡ other.now) }
    {
        Word::from(*self) == Word::from(*other)
    }
}
