//! Changes of a unit, made and put back.
ghost use Rattle.std.specs.Prelude.{◌≡◌, ◌<◌, ◌≤◌, length, true};
ghost use Rattle.std.specs.List.{All};
ghost use Rattle.bytecode.specs.Instructions.{sound};
ghost use Rattle.keep.specs.Keeps.{IsChanged};
ghost use Rattle.workspace.specs.Record.{MayStand, PutBack};

use crate::trail::{Change, Trail};
use bytecode::instr::Instr;
use bytecode::unit::Unit;

/// Puts another instruction at a place.
pub(crate) fn put(unit: &mut Unit, place: usize, instr: Instr)
    requires inside { place < unit.old.len }
    requires stands { sound unit.old.locals place unit.old.len instr ≡ true }
    ensures { IsChanged unit.old place instr unit.new }
{
    unit.code[place] = instr;
}

/// Puts back all changes but the first `mark`, the last one first.
pub(crate) fn put_back(unit: &mut Unit, trail: &mut Trail, mark: usize)
    requires stand { All (MayStand unit.old.locals unit.old.len) trail.old.changes }
    requires mark { mark ≤ length trail.old.changes }
    ensures { PutBack mark unit.old trail.old unit.new trail.new }
{
    while let Some(Change { place, old }) = trail.pop_past(mark) {
        put(unit, place, old);
    }
}
