//! What is known before a place.
ghost use Rattle.std.specs.Prelude.{◌≡◌, [], ◌∷◌, ◌↔◌, ◌≢◌, false, IsTrue};
ghost use Rattle.facts.specs.Frames.{entry, joined_frames, replaced, top_of};
ghost use Rattle.facts.specs.Ways.{followed};

use crate::cell::Cell;
use crate::cells::Cells;
use std::fmt;

#[derive(Clone, Copy, Debug)]
pub enum Frame<C: Cell> {
    /// No run comes there.
    Unreached,
    At(Cells<C>),
    /// Edges carry frames of unlike heights there, or one leads there from an instruction that is not applicable.
    Clash,
}

impl<C: Cell> Frame<C> {
    ghost use Rattle.facts.specs.declared.frame.Frame.TheVariants.{Unreached, At, Clash};

    /// Before the first instruction: no value, and nothing known of the locals.
    pub fn entry() -> Frame<C>
        ensures { result ≡ At (entry C.top) }
    {
        Frame::At(Cells::entry())
    }

    /// Whether it is not Unreached.
    pub fn is_reached(&self) -> bool
        ensures { IsTrue result ↔ (self.now ≢ Unreached) }
    {
        !matches!(self, Frame::Unreached)
    }

    /// Joins the other frame into this one, which is then the least at or above both, and answers whether that changed it.
    pub fn join(&mut self, other: &Frame<C>) -> bool
        ensures joined { self.new ≡ joined_frames C.joined self.old other.now }
        ensures changed { IsTrue result → self.new ≢ self.old }
        ensures same { result ≡ false → self.new ≡ self.old }
    {
        match self {
            Frame::Unreached => match other {
                Frame::Unreached => false,
                Frame::At(_) | Frame::Clash => {
                    self.turn_to(other);
                    true
                }
            },
            Frame::At(cells) => match other {
                Frame::Unreached => false,
                Frame::At(others) => {
                    if cells.height() == others.height() {
                        cells.join(others)
                    } else {
                        self.set_clash();
                        true
                    }
                }
                Frame::Clash => {
                    self.set_clash();
                    true
                }
            },
            Frame::Clash => false,
        }
    }

    /// Goes a way: on, or to Unreached or Clash.
    #[inline(always)]
    pub(crate) fn follow(&mut self, way: Way)
        ensures { self.new ≡ followed way self.old }
    {
        match way {
            Way::On => {}
            Way::Nowhere => self.set_unreached(),
            Way::Clash => self.set_clash(),
        }
    }

    // A function of its own, as the next two: a frame that a function makes is cleared whole wherever that function is entered.
    #[inline(never)]
    fn turn_to(&mut self, other: &Frame<C>)
        ensures { self.new ≡ other.now }
    {
        *self = *other;
    }

    #[inline(never)]
    fn set_unreached(&mut self)
        ensures { self.new ≡ Unreached }
    {
        *self = Frame::Unreached;
    }

    #[inline(never)]
    fn set_clash(&mut self)
        ensures { self.new ≡ Clash }
    {
        *self = Frame::Clash;
    }

    /// The cell of the top value; none where there is no value.
    pub fn top(&self) -> Option<C>
        ensures { result ≡ top_of self.now }
    {
        match self {
            Frame::At(cells) if cells.height() > 0 => Some(cells.cell(0)),
            _ => None,
        }
    }

    pub fn same(&self, other: &Frame<C>) -> bool
        ensures { IsTrue result ↔ (self.now ≡ other.now) }
    {
        match (self, other) {
            (Frame::Unreached, Frame::Unreached) | (Frame::Clash, Frame::Clash) => true,
            (Frame::At(a), Frame::At(b)) => a.same(b),
            _ => false,
        }
    }
}

impl<C: Cell + fmt::Display> fmt::Display for Frame<C> {
    fn fmt<W: fmt::Write>(&self, f: &mut fmt::Formatter<W>) -> fmt::Result {
        match self {
            Frame::Unreached => f.write_str("Unreached"),
            Frame::At(cells) => write!(f, "{cells}"),
            Frame::Clash => f.write_str("Clash"),
        }
    }
}

/// Where an instruction leads.
#[derive(Clone, Copy, PartialEq, Eq, Debug)]
pub(crate) enum Way {
    /// On, with the cells that it leaves.
    On,
    /// Nowhere along the edge.
    Nowhere,
    /// To Clash: it is not applicable.
    Clash,
}

impl<C: Cell> Cells<C> {
    ghost use Rattle.facts.specs.Ways.{framed};

    /// Puts the cell in the place of the top `count` values; Clash where there are fewer, or where more than 8 would be left.
    pub(crate) fn replace(&mut self, count: usize, cell: C) -> Way
        ensures { framed result self.new ≡ replaced count (cell ∷ []) self.old }
    {
        let height = self.height();
        if height < count || height - count == 8 {
            return Way::Clash;
        }
        self.lower(count);
        self.raise(cell);
        Way::On
    }

    /// Drops the top value; Clash where there is none.
    pub(crate) fn pop(&mut self) -> Way
        ensures { framed result self.new ≡ replaced 1 [] self.old }
    {
        if self.height() == 0 {
            return Way::Clash;
        }
        self.lower(1);
        Way::On
    }
}
