//! A workspace that keeps whole routines for its open attempts, and finds facts anew whenever it is asked.
use crate::facts::{Guess, Kind, Shape, facts_of};
use crate::fault::Fault;
use crate::file::written;
use crate::judge::judged;
use crate::machine::{Told, run};
use crate::routine::{Routine, Row};
use crate::rules::{replace, tidied, yielded};
use std::alloc::{AllocError, Global};

/// A call. A token is named by its depth.
#[derive(Clone, PartialEq, Eq, Debug, Drop)]
pub enum Ask {
    Load(Vec<u8>),
    Open,
    Propose {
        depth: u8,
        place: usize,
        row: Row,
    },
    Tidy {
        depth: u8,
    },
    Keep {
        depth: u8,
    },
    Abandon {
        depth: u8,
    },
    Run {
        inputs: Vec<i32>,
        room: usize,
        budget: u32,
    },
    WriteOut {
        room: usize,
    },
    Facts {
        place: usize,
    },
    Takes,
    Unit,
}

/// What a call gives back.
#[derive(Clone, PartialEq, Eq, Debug, Drop)]
pub enum Say {
    Loaded,
    Opened(u8),
    Changed,
    Tidied(usize),
    Kept,
    Abandoned,
    Ran(Told),
    Wrote(Vec<u8>),
    Facts {
        kinds: Shape<Kind>,
        guesses: Shape<Guess>,
        live: u16,
    },
    /// The take counts are the pick policy's, and not told.
    Takes,
    Unit(Routine),
    Refused(Fault),
}

/// The most attempts that are open at once.
const DEEPEST: u8 = 8;

/// Why a call gives nothing back.
enum Stop {
    Refused(Fault),
    Memory(AllocError),
}

impl From<Fault> for Stop {
    fn from(fault: Fault) -> Stop {
        Stop::Refused(fault)
    }
}

impl From<AllocError> for Stop {
    fn from(error: AllocError) -> Stop {
        Stop::Memory(error)
    }
}

/// The workspace: the routine that it holds, and those that it held as each open attempt began.
#[derive(Drop)]
pub struct Desk {
    held: Option<Routine>,
    begun: Vec<Routine>,
}

impl Desk {
    /// A workspace without a unit.
    pub fn new(heap: Global) -> Desk {
        Desk {
            held: None,
            begun: Vec::new(heap),
        }
    }

    /// Makes a call. A refused one changes nothing.
    pub fn ask(&mut self, heap: Global, ask: &Ask) -> Result<Say, AllocError> {
        match self.answer(heap, ask) {
            Ok(say) => Ok(say),
            Err(Stop::Refused(fault)) => Ok(Say::Refused(fault)),
            Err(Stop::Memory(error)) => Err(error),
        }
    }

    fn answer(&mut self, heap: Global, ask: &Ask) -> Result<Say, Stop> {
        match ask {
            Ask::Load(bytes) => self.load(heap, bytes.as_slice()),
            Ask::Open => self.open(),
            Ask::Propose { depth, place, row } => self.propose(heap, *depth, *place, *row),
            Ask::Tidy { depth } => self.tidy(heap, *depth),
            Ask::Keep { depth } => self.keep(*depth),
            Ask::Abandon { depth } => self.abandon(*depth),
            Ask::Run {
                inputs,
                room,
                budget,
            } => Ok(Say::Ran(run(heap, self.unit()?, inputs.as_slice(), *room, *budget)?)),
            Ask::WriteOut { room } => self.write_out(heap, *room),
            Ask::Facts { place } => self.facts_at(heap, *place),
            Ask::Takes => {
                self.unit()?;
                Ok(Say::Takes)
            }
            Ask::Unit => Ok(Say::Unit(self.unit()?.clone()?)),
        }
    }

    /// The routine that is held.
    fn unit(&self) -> Result<&Routine, Fault> {
        self.held.as_ref().ok_or(Fault::plain(2))
    }

    /// How many attempts are open.
    fn depth(&self) -> u8 {
        u8::try_from(self.begun.len()).unwrap_or(u8::MAX)
    }

    /// Refuses a token that is not the innermost attempt's.
    fn require_innermost(&self, depth: u8) -> Result<(), Fault> {
        if depth == 0 || depth != self.depth() {
            return Err(Fault::plain(10));
        }
        Ok(())
    }

    /// Refuses a call that may not be made while an attempt is open.
    fn require_none_open(&self) -> Result<(), Fault> {
        if self.begun.is_empty() {
            Ok(())
        } else {
            Err(Fault::plain(1))
        }
    }

    fn load(&mut self, heap: Global, bytes: &[u8]) -> Result<Say, Stop> {
        self.require_none_open()?;
        self.held = Some(judged(heap, bytes)??);
        Ok(Say::Loaded)
    }

    fn open(&mut self) -> Result<Say, Stop> {
        let unit = self.unit()?;
        if self.depth() >= DEEPEST {
            return Err(Stop::Refused(Fault::plain(9)));
        }
        let begun = unit.clone()?;
        self.begun.push(begun).map_err(AllocError::from)?;
        Ok(Say::Opened(self.depth()))
    }

    fn propose(&mut self, heap: Global, depth: u8, place: usize, row: Row) -> Result<Say, Stop> {
        let unit = self.unit()?;
        self.require_innermost(depth)?;
        if place >= unit.rows.len() {
            return Err(Stop::Refused(Fault::plain(11)));
        }
        let facts = facts_of(heap, unit)?;
        let yields = yielded(heap, unit, &facts, place)?;
        if !yields.iter().any(|(_, made)| *made == row) {
            return Err(Stop::Refused(Fault::plain(12)));
        }
        if let Some(held) = &mut self.held {
            replace(held, place, row);
        }
        Ok(Say::Changed)
    }

    fn tidy(&mut self, heap: Global, depth: u8) -> Result<Say, Stop> {
        let unit = self.unit()?;
        self.require_innermost(depth)?;
        let (tidy, changes) = tidied(heap, unit)?;
        self.held = Some(tidy);
        Ok(Say::Tidied(changes))
    }

    fn keep(&mut self, depth: u8) -> Result<Say, Stop> {
        self.unit()?;
        self.require_innermost(depth)?;
        self.begun.pop();
        Ok(Say::Kept)
    }

    fn abandon(&mut self, depth: u8) -> Result<Say, Stop> {
        self.unit()?;
        self.require_innermost(depth)?;
        self.held = self.begun.pop();
        Ok(Say::Abandoned)
    }

    fn write_out(&self, heap: Global, room: usize) -> Result<Say, Stop> {
        self.require_none_open()?;
        let bytes = written(heap, self.unit()?)?;
        if room < bytes.len() {
            return Err(Stop::Refused(Fault::plain(13)));
        }
        Ok(Say::Wrote(bytes))
    }

    fn facts_at(&self, heap: Global, place: usize) -> Result<Say, Stop> {
        let unit = self.unit()?;
        let facts = facts_of(heap, unit)?;
        match (
            facts.kinds.get(place),
            facts.guesses.get(place),
            facts.lives.get(place),
        ) {
            (Some(kinds), Some(guesses), Some(live)) => Ok(Say::Facts {
                kinds: kinds.clone()?,
                guesses: guesses.clone()?,
                live: *live,
            }),
            _ => Err(Stop::Refused(Fault::plain(11))),
        }
    }
}
