//! One routine: validated code.
ghost use Rattle.std.specs.Prelude.{◌≡◌, ℕ, ◌<◌, ◌≤◌, true, ◌++◌, length, take, drop, slice_index_or};
ghost use Rattle.bytecode.specs.declared.instr.Instr.TheVariants.{Nop};
ghost use Rattle.bytecode.specs.Instructions.{sound};

use crate::instr::Instr;

/// The instructions of one routine over `locals` locals. The code past `len` is NOP, so that equal units are equal in every field.
// An array beside its length and no vector: the library allocates nothing, and a unit is `Copy`.
#[derive(Clone, Copy)]
pub struct Unit {
    pub locals: u8,
    pub len: usize,
    pub code: [Instr; 128],
    ghost whole: { length code ≡ 128 },
    ghost some: { 1 ≤ len },
    ghost most: { len ≤ 128 },
    ghost few: { locals ≤ 16 },
    ghost rules: { (k : ℕ) → k < len → sound locals k len (slice_index_or code k Nop) ≡ true },
    ghost blank: { (k : ℕ) → len ≤ k → k < 128 → slice_index_or code k Nop ≡ Nop },
}

impl Unit {
    ghost use Rattle.std.specs.Prelude.{[], ◌∷◌};
    ghost use Rattle.bytecode.specs.declared.instr.Instr.TheVariants.{Halt};
    ghost use Rattle.bytecode.specs.Files.{held};

    /// HALT alone, over no local.
    pub fn halt() -> Unit
        ensures code { held result ≡ Halt ∷ [] }
        ensures locals { result.locals ≡ 0 }
    {
        let mut code = [Instr::Nop; 128];
        code[0] = Instr::Halt;
        Unit {
            locals: 0,
            len: 1,
            code,
        }
    }

    /// Turns to another unit. Only as many instructions are copied as the longer of the two has.
    pub fn turn_to(&mut self, other: &Unit)
        ensures { self.new ≡ other.now }
    {
        self.turn_to_code(other.locals, other.len, &other.code);
    }

    /// As `turn_to`, of a unit that is told by its fields.
    pub(crate) fn turn_to_code(&mut self, locals: u8, len: usize, code: &[Instr; 128])
        requires whole { length code.now ≡ 128 }
        requires few { locals ≤ 16 }
        requires some { 1 ≤ len }
        requires most { len ≤ 128 }
        requires rules { (k : ℕ) → k < len → sound locals k len (slice_index_or code.now k Nop) ≡ true }
        requires blank { (k : ℕ) → len ≤ k → k < 128 → slice_index_or code.now k Nop ≡ Nop }
        ensures locals { self.new.locals ≡ locals }
        ensures len { self.new.len ≡ len }
        ensures code { self.new.code ≡ code.now }
    {
        copy_first(&mut self.code, code, self.len.max(len));
        self.locals = locals;
        self.len = len;
    }

    /// The instructions of the routine.
    pub fn instructions(&self) -> &[Instr]
        ensures { result.now ≡ held self.now }
    {
        &self.code[..self.len]
    }
}

/// Copies the first instructions of an array to another.
fn copy_first(to: &mut [Instr; 128], from: &[Instr; 128], count: usize)
    requires { count ≤ 128 }
    ensures { to.new ≡ take count from.now ++ drop count to.old }
{
    to[..count].copy_from_slice(&from[..count]);
}
