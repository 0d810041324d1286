//! The edges out of one place.
ghost use Rattle.std.specs.Prelude.{◌≡◌, ◌<◌, ◌++◌, ◌↔◌, IsTrue, length, true, slice_index_or};
ghost use Rattle.std.specs.Option.{option_to_list};
ghost use Rattle.bytecode.specs.declared.instr.Instr.TheVariants.{Nop};
ghost use Rattle.analyses.specs.Edges.{distance, way, in_order, GoAlike, LeadAlike};

use crate::edge::Edge;
use bytecode::instr::Instr;
use bytecode::jump::target;
use bytecode::unit::Unit;

/// How far an instruction leads by its jump, if that is asked, or else to the next place.
fn distance(instr: &Instr, jump: bool) -> Option<i32>
    ensures { result ≡ distance instr.now jump }
{
    match instr {
        Instr::Jmp(by) | Instr::Jf(by) | Instr::DropJmp(by) if jump => Some(*by),
        _ if !jump && instr.falls_through() => Some(1),
        _ => None,
    }
}

/// The edge from `place`, one of `len`, by one way of its instruction.
pub(crate) fn way(len: usize, place: usize, instr: &Instr, jump: bool) -> Option<Edge>
    ensures { result ≡ way len place instr.now jump }
{
    let end = target(place, distance(instr, jump)?, len)?;
    Some(Edge {
        start: place,
        end,
        jump,
    })
}

/// The lower end first; the next place before a jump to it.
pub(crate) fn in_order(next: Option<Edge>, jump: Option<Edge>) -> (Option<Edge>, Option<Edge>)
    ensures { option_to_list result.0 ++ option_to_list result.1 ≡ in_order next jump }
{
    match (next, jump) {
        (Some(near), Some(far)) if far.end < near.end => (jump, next),
        _ => (next, jump),
    }
}

/// Whether two instructions lead equally far, by either way.
fn goes_alike(a: &Instr, b: &Instr) -> bool
    ensures { IsTrue result ↔ GoAlike a.now b.now }
{
    distance(a, false) == distance(b, false) && distance(a, true) == distance(b, true)
}

/// Whether two units have as many instructions, and at each place instructions that lead equally far.
pub(crate) fn leads_alike(a: &Unit, b: &Unit) -> bool
    ensures { IsTrue result ↔ LeadAlike a.now b.now }
{
    if a.len != b.len {
        return false;
    }
    for place in 0..a.len {
        if !goes_alike(&a.code[place], &b.code[place]) {
            return false;
        }
    }
    true
}
