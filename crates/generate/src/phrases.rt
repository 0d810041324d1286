//! Statements without branches.
use crate::draft::Draft;
use crate::rows::{OPERATIONS, flag, in_range, local, number, plain, with_argument};
use draws::random::Random;
use second::facts::Kind;
use second::operation::{
    ADD, DIV, DUP, EQ, IN, JMP, LIT, LITF, LOAD, LT, MUL, NOP, NOT, OUT, POP, STORE, SUB, SWAP,
};
use second::routine::Row;
use std::alloc::AllocError;

/// The operations of a straight line, the more frequent ones several times.
const STRAIGHT: [u8; 24] = [
    NOP, LIT, LIT, LIT, LITF, LITF, POP, DUP, DUP, SWAP, SWAP, LOAD, LOAD, STORE, STORE, ADD, SUB,
    MUL, DIV, EQ, LT, NOT, IN, OUT,
];

impl Draft {
    /// A row that is applicable.
    pub fn step(&mut self, random: &mut Random) -> Result<(), AllocError> {
        for _ in 0..8 {
            let operation = random.choice(&STRAIGHT).unwrap_or(NOP);
            if self.add(in_range(random, operation, 0, self.locals, 0))? {
                break;
            }
        }
        Ok(())
    }

    /// A row that no run comes to, applicable or not.
    pub fn stray(&mut self, random: &mut Random) -> Result<(), AllocError> {
        if self.room() == 0 {
            return Ok(());
        }
        let place = self.place();
        let row = match random.below(OPERATIONS) as u8 {
            LOAD | STORE if self.locals == 0 => plain(NOP),
            operation => in_range(
                random,
                operation,
                place,
                self.locals,
                place.saturating_add(1),
            ),
        };
        Ok(self.rows.push(row)?)
    }

    /// Pushes a number, with one row.
    pub fn push_number(&mut self, random: &mut Random) -> Result<(), AllocError> {
        let row = match random.below(10) {
            0..4 => Some(number(0, random.number())),
            4..7 => self.load(random, Kind::Number),
            7..8 if self.state.below_top(0) == Some(Kind::Number) => Some(plain(DUP)),
            _ => None,
        };
        self.add(row.unwrap_or(plain(IN)))?;
        Ok(())
    }

    /// Loads a local of the kind, where the one that is looked at is of it.
    fn load(&self, random: &mut Random, kind: Kind) -> Option<Row> {
        let local = local(random, self.locals);
        if self.state.local(usize::from(local)) != kind {
            return None;
        }
        Some(with_argument(LOAD, i32::from(local)))
    }

    /// Pushes a flag, known or not, with four rows at most.
    pub fn push_flag(&mut self, random: &mut Random) -> Result<(), AllocError> {
        if random.chance(20) {
            let known = flag(0, random.chance(50));
            let row = self.load(random, Kind::Truth).unwrap_or(known);
            self.add(row)?;
        } else {
            self.push_number(random)?;
            self.compare(random)?;
        }
        self.maybe_not(random)
    }

    /// Pushes a flag that is mostly not known, with four rows at most.
    pub fn push_open_flag(&mut self, random: &mut Random) -> Result<(), AllocError> {
        if random.chance(15) {
            return self.push_flag(random);
        }
        self.add(plain(IN))?;
        self.compare(random)?;
        self.maybe_not(random)
    }

    /// Compares the top with another number.
    fn compare(&mut self, random: &mut Random) -> Result<(), AllocError> {
        self.push_number(random)?;
        self.add(plain(random.choice(&[EQ, LT]).unwrap_or(EQ)))?;
        Ok(())
    }

    fn maybe_not(&mut self, random: &mut Random) -> Result<(), AllocError> {
        if random.chance(25) {
            self.add(plain(NOT))?;
        }
        Ok(())
    }

    /// Computes a number, and mostly stores or shows it.
    pub fn compute(&mut self, random: &mut Random) -> Result<(), AllocError> {
        self.push_number(random)?;
        for _ in 0..random.below(3) {
            self.push_number(random)?;
            self.add(plain(random.choice(&[ADD, SUB, MUL, DIV]).unwrap_or(ADD)))?;
        }
        self.spend(random)
    }

    /// Divides by zero, so that the code behind is not reached.
    pub fn divide_by_zero(&mut self, random: &mut Random) -> Result<(), AllocError> {
        self.push_number(random)?;
        self.add(number(0, 0))?;
        self.add(plain(DIV))?;
        self.spend(random)
    }

    /// Shows a number.
    pub fn show(&mut self, random: &mut Random) -> Result<(), AllocError> {
        self.push_number(random)?;
        self.add(plain(OUT))?;
        Ok(())
    }

    /// Stores a flag.
    pub fn store_flag(&mut self, random: &mut Random) -> Result<(), AllocError> {
        self.push_flag(random)?;
        self.spend(random)
    }

    /// Stores, shows or drops the top, or leaves it.
    fn spend(&mut self, random: &mut Random) -> Result<(), AllocError> {
        let row = match random.below(20) {
            0..12 => with_argument(STORE, i32::from(local(random, self.locals))),
            12..16 => plain(OUT),
            16..18 => plain(POP),
            _ => return Ok(()),
        };
        self.add(row)?;
        Ok(())
    }

    /// Jumps over rows that no run comes to.
    pub fn jump_over(&mut self, random: &mut Random) -> Result<(), AllocError> {
        if self.room() < 2 {
            return Ok(());
        }
        let from = self.branch(JMP)?;
        for _ in 0..1 + random.below(3) {
            self.stray(random)?;
        }
        self.lead_here(from);
        Ok(())
    }
}
