//! Constant frames: which values are known.
ghost use Rattle.std.specs.Prelude.{◌≡◌, false, [], ◌∷◌};
ghost use Rattle.std.specs.List.{slice_get};
ghost use Rattle.facts.specs.Constants.{constants, const_operation, const_opposite, carry_held, carry_constants};
ghost use Rattle.facts.specs.Effects.{cell_at};
ghost use Rattle.facts.specs.Frames.{replaced, top_of};
ghost use Rattle.facts.specs.Ways.{framed};

use crate::cell::ConstCell;
use crate::cells::Cells;
use crate::frame::{Frame, Way};
use bytecode::instr::Instr;
use machine::arith::Binary;
use machine::value::Value;

/// Carries the frame along the instruction's jump, or to the next place.
#[inline(always)]
pub fn carry_constants(instr: Instr, jump: bool, frame: &mut Frame<ConstCell>)
    ensures { frame.new ≡ carry_constants instr jump frame.old }
{
    if let Frame::At(cells) = frame {
        let way = perform(instr, jump, cells);
        frame.follow(way);
    }
}

/// What the operation gives on two cells: known where both are known numbers.
fn result(op: Binary, a: ConstCell, b: ConstCell) -> ConstCell
    ensures { result ≡ const_operation op a b }
{
    match (a, b) {
        (ConstCell::Num(a), ConstCell::Num(b)) => match op.apply(a, b) {
            Some(Value::Num(number)) => ConstCell::Num(number),
            Some(Value::Flag(flag)) => ConstCell::Flag(flag),
            None => ConstCell::Varies,
        },
        _ => ConstCell::Varies,
    }
}

/// What NOT gives on a cell: known where it is a known flag.
fn opposite(cell: ConstCell) -> ConstCell
    ensures { result ≡ const_opposite cell }
{
    match cell {
        ConstCell::Flag(flag) => ConstCell::Flag(!flag),
        ConstCell::Num(_) | ConstCell::Varies => ConstCell::Varies,
    }
}

/// Puts the operation's result in the place of its operands.
fn operate(op: Binary, cells: &mut Cells<ConstCell>) -> Way
    ensures { framed result cells.new ≡ replaced 2 (const_operation op (cell_at constants cells.old 1) (cell_at constants cells.old 0) ∷ []) cells.old }
{
    let made = result(op, cells.cell(1), cells.cell(0));
    cells.replace(2, made)
}

/// A result is known where all operands are, in the right kinds; a cell that is not there varies.
#[inline(always)]
fn perform(instr: Instr, jump: bool, cells: &mut Cells<ConstCell>) -> Way
    ensures { framed result cells.new ≡ carry_held instr jump cells.old }
{
    use ConstCell::{Flag, Num, Varies};
    let height = cells.height();
    let top = cells.cell(0);
    match instr {
        Instr::Nop | Instr::Halt | Instr::Jmp(_) => Way::On,
        Instr::Lit { drops, value } => cells.replace(usize::from(drops), Num(value)),
        Instr::LitFlag { drops, value } => cells.replace(usize::from(drops), Flag(value)),
        Instr::Dup if height == 0 => Way::Clash,
        Instr::Dup => cells.replace(0, top),
        Instr::Swap if height < 2 => Way::Clash,
        Instr::Swap => {
            let under = cells.cell(1);
            cells.lower(2);
            cells.raise(top);
            cells.raise(under);
            Way::On
        }
        Instr::Store(_) if height == 0 => Way::Clash,
        Instr::Store(local) => {
            cells.lower(1);
            cells.set_local(local, top);
            Way::On
        }
        Instr::Load(local) => {
            let loaded = cells.local(local);
            cells.replace(0, loaded)
        }
        Instr::Add => operate(Binary::Add, cells),
        Instr::Sub => operate(Binary::Sub, cells),
        Instr::Mul => operate(Binary::Mul, cells),
        Instr::Div if height > 1 && top == Num(0) => Way::Nowhere,
        Instr::Div => operate(Binary::Div, cells),
        Instr::Eq => operate(Binary::Eq, cells),
        Instr::Lt => operate(Binary::Lt, cells),
        Instr::Not => cells.replace(1, opposite(top)),
        Instr::Jf(_) if top == Flag(jump) => Way::Nowhere,
        Instr::Jf(_) | Instr::Pop | Instr::DropJmp(_) | Instr::Out => cells.pop(),
        Instr::In => cells.replace(0, Varies),
    }
}

/// The cell where it takes the place of the top `count` values; none where that makes a Clash.
fn placed(count: usize, cell: ConstCell, cells: &Cells<ConstCell>) -> Option<ConstCell>
    ensures { result ≡ top_of (replaced count (cell ∷ []) cells.now) }
{
    let height = cells.height();
    if height < count || height - count == 8 {
        None
    } else {
        Some(cell)
    }
}

/// The cell under the top value; none where there are fewer than two values.
fn under(cells: &Cells<ConstCell>) -> Option<ConstCell>
    ensures { result ≡ slice_get cells.now.stack 1 }
{
    if cells.height() > 1 {
        Some(cells.cell(1))
    } else {
        None
    }
}

/// The cell of the top value after the instruction, on the way to the next place; none where no value is there. It makes no frame.
pub fn top_after(instr: Instr, frame: &Frame<ConstCell>) -> Option<ConstCell>
    ensures { result ≡ top_of (carry_constants instr false frame.now) }
{
    match frame {
        Frame::At(cells) => top_of_performed(instr, cells),
        Frame::Unreached | Frame::Clash => None,
    }
}

/// As `top_after`, where a run comes.
fn top_of_performed(instr: Instr, cells: &Cells<ConstCell>) -> Option<ConstCell>
    ensures { result ≡ top_of (carry_held instr false cells.now) }
{
    use ConstCell::{Flag, Num, Varies};
    let height = cells.height();
    let top = cells.cell(0);
    match instr {
        Instr::Nop | Instr::Halt | Instr::Jmp(_) if height > 0 => Some(top),
        Instr::Nop | Instr::Halt | Instr::Jmp(_) => None,
        Instr::Lit { drops, value } => placed(usize::from(drops), Num(value), cells),
        Instr::LitFlag { drops, value } => placed(usize::from(drops), Flag(value), cells),
        Instr::Dup if height == 0 => None,
        Instr::Dup => placed(0, top, cells),
        Instr::Load(local) => placed(0, cells.local(local), cells),
        Instr::Add => placed(2, result(Binary::Add, cells.cell(1), top), cells),
        Instr::Sub => placed(2, result(Binary::Sub, cells.cell(1), top), cells),
        Instr::Mul => placed(2, result(Binary::Mul, cells.cell(1), top), cells),
        Instr::Div if height > 1 && top == Num(0) => None,
        Instr::Div => placed(2, result(Binary::Div, cells.cell(1), top), cells),
        Instr::Eq => placed(2, result(Binary::Eq, cells.cell(1), top), cells),
        Instr::Lt => placed(2, result(Binary::Lt, cells.cell(1), top), cells),
        Instr::Not => placed(1, opposite(top), cells),
        Instr::In => placed(0, Varies, cells),
        Instr::Jf(_) if top == Flag(false) => None,
        Instr::Swap
        | Instr::Store(_)
        | Instr::Jf(_)
        | Instr::Pop
        | Instr::DropJmp(_)
        | Instr::Out => { under(cells) }
    }
}
