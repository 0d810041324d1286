//! What is known of one value.
ghost use Rattle.std.specs.Prelude.{◌≡◌, ℕ, ◌↔◌, IsTrue};
ghost use Rattle.facts.specs.Cell.{CellLaws};

use std::fmt;

/// What is known of a stack value or of a local.
pub trait Cell: Copy {
    // What an unused stack cell holds.
    ghost zero: { Self };

    // The greatest cell, which says nothing of its value.
    ghost top: { Self };

    ghost joined: { Self → Self → Self };

    ghost rank: { Self → ℕ };

    // The highest rank.
    ghost height: { ℕ };

    fn zero() -> Self
        ensures { result ≡ zero };

    fn top() -> Self
        ensures { result ≡ top };

    /// What is known where either may be: the least cell at or above both.
    fn join(self, other: Self) -> Self
        ensures { result ≡ joined self other };

    fn same(self, other: Self) -> bool
        ensures { IsTrue result ↔ (self ≡ other) };

    ghost laws: { CellLaws joined top rank height };
}

/// The kind of a value.
#[derive(Clone, Copy, PartialEq, Eq, Debug)]
pub enum TypeCell {
    Num,
    Flag,
    /// It may be of either kind, or an unset local.
    Unusable,
}

impl Cell for TypeCell {
    ghost use Rattle.facts.specs.Flat.{flat, flat_rank};
    ghost use Rattle.facts.specs.TypeCells.{same_type, type_laws};
    ghost use Rattle.facts.specs.declared.cell.TypeCell.TheVariants.{Num, Unusable};

    ghost zero = { Num };

    ghost top = { Unusable };

    ghost joined = { flat same_type Unusable };

    ghost rank = { flat_rank same_type Unusable };

    ghost height = { 1 };

    ghost laws = { type_laws };

    fn zero() -> TypeCell {
        TypeCell::Num
    }

    fn top() -> TypeCell {
        TypeCell::Unusable
    }

    fn join(self, other: TypeCell) -> TypeCell {
        if self == other {
            self
        } else {
            TypeCell::Unusable
        }
    }

    fn same(self, other: TypeCell) -> bool {
        self == other
    }
}

impl fmt::Display for TypeCell {
    fn fmt<W: fmt::Write>(&self, f: &mut fmt::Formatter<W>) -> fmt::Result {
        f.write_str(match self {
            TypeCell::Num => "Num",
            TypeCell::Flag => "Flag",
            TypeCell::Unusable => "Unusable",
        })
    }
}

/// A value that is known, or not.
#[derive(Clone, Copy, PartialEq, Eq, Debug)]
pub enum ConstCell {
    Num(i32),
    Flag(bool),
    Varies,
}

impl Cell for ConstCell {
    ghost use Rattle.std.specs.Prelude.{pos};
    ghost use Rattle.facts.specs.Flat.{flat, flat_rank};
    ghost use Rattle.facts.specs.ConstCells.{same_const, const_laws};
    ghost use Rattle.facts.specs.declared.cell.ConstCell.TheVariants.{Num, Varies};

    ghost zero = { Num (pos 0) };

    ghost top = { Varies };

    ghost joined = { flat same_const Varies };

    ghost rank = { flat_rank same_const Varies };

    ghost height = { 1 };

    ghost laws = { const_laws };

    fn zero() -> ConstCell {
        ConstCell::Num(0)
    }

    fn top() -> ConstCell {
        ConstCell::Varies
    }

    fn join(self, other: ConstCell) -> ConstCell {
        if self == other {
            self
        } else {
            ConstCell::Varies
        }
    }

    fn same(self, other: ConstCell) -> bool {
        self == other
    }
}

/// The value, or `?` where it varies.
impl fmt::Display for ConstCell {
    fn fmt<W: fmt::Write>(&self, f: &mut fmt::Formatter<W>) -> fmt::Result {
        match self {
            ConstCell::Num(number) => write!(f, "{number}"),
            ConstCell::Flag(flag) => write!(f, "{flag}"),
            ConstCell::Varies => f.write_str("?"),
        }
    }
}
