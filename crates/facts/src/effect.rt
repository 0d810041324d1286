//! How many values an instruction takes, and how many it puts in their place.
ghost use Rattle.std.specs.Prelude.{◌≡◌, ◌≤◌, length};
ghost use Rattle.facts.specs.Held.{Held};
ghost use Rattle.facts.specs.declared.cell.TypeCell.{TypeCell};
ghost use Rattle.facts.specs.Types.{types};
ghost use Rattle.facts.specs.Effects.{takes_of, effect};

use bytecode::instr::Instr;

/// How many values the instruction takes from the stack.
pub(crate) fn takes(instr: Instr) -> usize
    ensures { result ≡ length (takes_of instr) }
{
    match instr {
        Instr::Nop | Instr::Halt | Instr::Load(_) | Instr::Jmp(_) | Instr::In => 0,
        Instr::Lit { drops, .. } | Instr::LitFlag { drops, .. } => usize::from(drops),
        Instr::Pop
        | Instr::Dup
        | Instr::Store(_)
        | Instr::Not
        | Instr::Jf(_)
        | Instr::DropJmp(_)
        | Instr::Out => 1,
        Instr::Swap | Instr::Add | Instr::Sub | Instr::Mul | Instr::Div | Instr::Eq | Instr::Lt =>
            2,
    }
}

/// How many values the instruction puts in their place.
pub(crate) fn puts(instr: Instr) -> usize
    ensures puts { (a : Held TypeCell) → result ≡ length (effect types instr a).puts }
    ensures few { result ≤ 2 }
{
    match instr {
        Instr::Nop
        | Instr::Halt
        | Instr::Pop
        | Instr::Store(_)
        | Instr::Jmp(_)
        | Instr::Jf(_)
        | Instr::DropJmp(_)
        | Instr::Out => 0,
        Instr::Dup | Instr::Swap => 2,
        _ => 1,
    }
}
