//! Where a jump leads.
ghost use Rattle.std.specs.Prelude.{◌≡◌, pos, ◌+ℤ◌};
ghost use Rattle.bytecode.specs.Instructions.{inside};

/// The place that a jump by `by` from `place` leads to; none outside a code of `len` instructions.
pub fn target(place: usize, by: i32, len: usize) -> Option<usize>
    ensures { result ≡ inside len (pos place +ℤ by) }
{
    place.checked_add_signed(by as isize).filter(|to| *to < len)
}
