//! Sets of live locals: those that a run may load before it stores to them.
ghost use Rattle.std.specs.Prelude.{◌≡◌, ℕ, ◌||◌, ◌↔◌, false, IsTrue, bit_or};
ghost use Rattle.dataflow.specs.Mask.{has_bit};
ghost use Rattle.facts.specs.Live.{local_bit, with_local, without_local, carry_live};

use bytecode::instr::Instr;
use std::fmt;
use std::marker::Model;

/// A set of the 16 locals, one bit a local.
#[derive(Clone, Copy)]
pub struct LiveSet {
    bits: u16,
}

// The number whose bits they are.
impl Model for LiveSet {
    ghost Value = { ℕ };

    ghost view = { λ s. s.bits };

    ghost inverse = { λ n. record { bits = n } };
}

impl LiveSet {
    /// The empty set.
    pub fn new() -> LiveSet
        ensures value { result ≡ 0 }
        ensures empty { (n : ℕ) → has_bit result n ≡ false }
    {
        LiveSet { bits: 0 }
    }

    /// The locals that are in either set.
    pub fn union(self, other: LiveSet) -> LiveSet
        ensures value { result ≡ bit_or self other }
        ensures members { (n : ℕ) → has_bit result n ≡ (has_bit self n || has_bit other n) }
    {
        LiveSet {
            bits: self.bits | other.bits,
        }
    }

    pub fn same(self, other: LiveSet) -> bool
        ensures { IsTrue result ↔ (self ≡ other) }
    {
        self.bits == other.bits
    }

    /// Whether the local is in the set; false past the sixteenth.
    pub fn contains(self, local: u8) -> bool
        ensures { result ≡ has_bit self local }
    {
        self.bits & bit(local) != 0
    }

    fn with(self, local: u8) -> LiveSet
        ensures { result ≡ with_local local self }
    {
        LiveSet {
            bits: self.bits | bit(local),
        }
    }

    fn without(self, local: u8) -> LiveSet
        ensures { result ≡ without_local local self }
    {
        LiveSet {
            bits: self.bits & !bit(local),
        }
    }
}

/// The locals in rising order, with a space between two.
impl fmt::Display for LiveSet {
    fn fmt<W: fmt::Write>(&self, f: &mut fmt::Formatter<W>) -> fmt::Result {
        let mut gap = "";
        for local in 0..16 {
            if self.contains(local) {
                write!(f, "{gap}{local}")?;
                gap = " ";
            }
        }
        Ok(())
    }
}

/// The bit of a local; a local past the sixteenth has none.
fn bit(local: u8) -> u16
    ensures { result ≡ local_bit local }
{
    if local < 16 { 1 << local } else { 0 }
}

/// The locals that are live before an instruction, by those that are live after it.
pub fn carry_live(instr: Instr, set: LiveSet) -> LiveSet
    ensures { result ≡ carry_live instr set }
{
    match instr {
        Instr::Store(local) => set.without(local),
        Instr::Load(local) => set.with(local),
        _ => set,
    }
}
