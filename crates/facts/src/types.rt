//! Type frames: of which kind each value is.
ghost use Rattle.std.specs.Prelude.{◌≡◌, ◌≤◌, cond, length, [], ◌∷◌};
ghost use Rattle.machine.specs.Machine.{number};
ghost use Rattle.facts.specs.declared.frame.Frame.TheVariants.{At, Clash};
ghost use Rattle.facts.specs.Effects.{takes_of};
ghost use Rattle.facts.specs.Frames.{replaced};
ghost use Rattle.facts.specs.Types.{has_kinds, has_right_kinds, reason_at, reason, carry_types};
ghost use Rattle.facts.specs.Ways.{framed};

use crate::cell::TypeCell;
use crate::cells::Cells;
use crate::effect::{puts, takes};
use crate::frame::{Frame, Way};
use crate::reason::Reason;
use bytecode::instr::Instr;

/// Why the instruction is not applicable in the frame, the lowest reason; none where it is, or where no run comes.
pub fn reason(instr: Instr, frame: &Frame<TypeCell>) -> Option<Reason>
    ensures { result ≡ reason instr frame.now }
{
    match frame {
        Frame::Unreached => None,
        Frame::At(cells) => reason_at(instr, cells),
        Frame::Clash => Some(Reason::Clash),
    }
}

/// Carries the frame through the instruction, which is performed on the kinds.
#[inline(always)]
pub fn carry_types(instr: Instr, frame: &mut Frame<TypeCell>)
    ensures { frame.new ≡ carry_types instr frame.old }
{
    if let Frame::At(cells) = frame {
        let way = perform(instr, cells);
        frame.follow(way);
    }
}

fn reason_at(instr: Instr, cells: &Cells<TypeCell>) -> Option<Reason>
    ensures { result ≡ reason_at instr cells.now }
{
    let height = cells.height();
    let taken = takes(instr);
    if height < taken {
        Some(Reason::TooFew)
    } else if height - taken + puts(instr) > 8 {
        Some(Reason::TooMany)
    } else if has_right_kinds(instr, cells) {
        None
    } else {
        Some(Reason::WrongKind)
    }
}

/// Whether the values that are taken have the kinds that are asked for, and the local that is loaded has one.
fn has_right_kinds(instr: Instr, cells: &Cells<TypeCell>) -> bool
    requires { length (takes_of instr) ≤ length cells.now.stack }
    ensures { result ≡ has_right_kinds instr cells.now }
{
    match instr {
        Instr::Add | Instr::Sub | Instr::Mul | Instr::Div | Instr::Eq | Instr::Lt => {
            cells.cell(0) == TypeCell::Num && cells.cell(1) == TypeCell::Num
        }
        Instr::Out => cells.cell(0) == TypeCell::Num,
        Instr::Not | Instr::Jf(_) => cells.cell(0) == TypeCell::Flag,
        Instr::Load(local) => cells.local(local) != TypeCell::Unusable,
        Instr::Nop
        | Instr::Halt
        | Instr::Lit { .. }
        | Instr::LitFlag { .. }
        | Instr::Pop
        | Instr::Dup
        | Instr::Swap
        | Instr::Store(_)
        | Instr::Jmp(_)
        | Instr::DropJmp(_)
        | Instr::In => true,
    }
}

/// Puts the kind in the place of two numbers; Clash where there are none.
fn operate(kind: TypeCell, cells: &mut Cells<TypeCell>) -> Way
    ensures { framed result cells.new ≡ cond (has_kinds (number ∷ number ∷ []) cells.old.stack) (replaced 2 (kind ∷ []) cells.old) Clash }
{
    if cells.cell(0) != TypeCell::Num || cells.cell(1) != TypeCell::Num {
        return Way::Clash;
    }
    cells.replace(2, kind)
}

/// Performs the instruction on the kinds; Clash where it is not applicable.
#[inline(always)]
fn perform(instr: Instr, cells: &mut Cells<TypeCell>) -> Way
    ensures { framed result cells.new ≡ carry_types instr (At cells.old) }
{
    use TypeCell::{Flag, Num, Unusable};
    let height = cells.height();
    let top = cells.cell(0);
    match instr {
        Instr::Nop | Instr::Halt | Instr::Jmp(_) => Way::On,
        Instr::Lit { drops, .. } => cells.replace(usize::from(drops), Num),
        Instr::LitFlag { drops, .. } => cells.replace(usize::from(drops), Flag),
        Instr::Dup if height == 0 => Way::Clash,
        Instr::Dup => cells.replace(0, top),
        Instr::Swap if height < 2 => Way::Clash,
        Instr::Swap => {
            let under = cells.cell(1);
            cells.lower(2);
            cells.raise(top);
            cells.raise(under);
            Way::On
        }
        Instr::Store(_) if height == 0 => Way::Clash,
        Instr::Store(local) => {
            cells.lower(1);
            cells.set_local(local, top);
            Way::On
        }
        Instr::Load(local) if cells.local(local) == Unusable => Way::Clash,
        Instr::Load(local) => {
            let loaded = cells.local(local);
            cells.replace(0, loaded)
        }
        Instr::Add | Instr::Sub | Instr::Mul | Instr::Div => operate(Num, cells),
        Instr::Eq | Instr::Lt => operate(Flag, cells),
        Instr::Not if top != Flag => Way::Clash,
        Instr::Not => cells.replace(1, Flag),
        Instr::Jf(_) if top != Flag => Way::Clash,
        Instr::Out if top != Num => Way::Clash,
        Instr::Pop | Instr::DropJmp(_) | Instr::Jf(_) | Instr::Out => cells.pop(),
        Instr::In => cells.replace(0, Num),
    }
}
