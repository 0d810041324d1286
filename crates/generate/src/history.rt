//! Lists of calls on a workspace.
use crate::made::{file, inputs};
use crate::proposals::proposal;
use crate::structured::structured;
use draws::random::Random;
use second::desk::Ask;
use second::facts::facts_of;
use second::file::{ROW_LENGTH, written};
use second::judge::judged;
use second::routine::{MOST_ROWS, Routine, Row};
use second::rules::yielded;
use std::alloc::{AllocError, Global};

/// How many bytes a file has beside its rows.
const BESIDE_ROWS: usize = 6;

/// How many bytes the longest file has.
const LONGEST: usize = BESIDE_ROWS + ROW_LENGTH * MOST_ROWS;

/// What the next call is chosen by: what the calls so far come to.
#[derive(Drop)]
struct History<'a> {
    file: &'a [u8],
    loaded: bool,
    /// The rows of the unit that was loaded last, and what the rules yield in it.
    rows: Vec<Row>,
    yields: Vec<(usize, Row)>,
    /// How many attempts are open.
    depth: u8,
    /// Whether many attempts are opened, and few closed.
    deep: bool,
}

impl History<'_> {
    /// Notes what a call does.
    fn note(&mut self, heap: Global, ask: &Ask) -> Result<(), AllocError> {
        match ask {
            Ask::Load(bytes) if self.depth == 0 => self.note_load(heap, bytes.as_slice())?,
            Ask::Open if self.loaded => self.depth = self.depth.saturating_add(1).min(8),
            Ask::Keep { depth } | Ask::Abandon { depth } if *depth == self.depth => {
                self.depth = self.depth.saturating_sub(1);
            }
            _ => {}
        }
        Ok(())
    }

    fn note_load(&mut self, heap: Global, bytes: &[u8]) -> Result<(), AllocError> {
        if let Ok(routine) = judged(heap, bytes)? {
            self.yields = yields_of(heap, &routine)?;
            let Routine { rows, .. } = routine;
            self.rows = rows;
            self.loaded = true;
        }
        Ok(())
    }
}

/// What the rules yield at each place.
fn yields_of(heap: Global, routine: &Routine) -> Result<Vec<(usize, Row)>, AllocError> {
    let facts = facts_of(heap, routine)?;
    let mut yields = Vec::new(heap);
    for place in 0..routine.rows.len() {
        for (_, row) in &yielded(heap, routine, &facts, place)? {
            yields.push((place, *row))?;
        }
    }
    Ok(yields)
}

/// A list of 5 to 60 calls, mostly on the unit of a file: most with the token of the innermost attempt, a few with another.
pub fn calls(heap: Global, random: &mut Random, file: &[u8]) -> Result<Vec<Ask>, AllocError> {
    let mut history = History {
        file,
        loaded: false,
        rows: Vec::new(heap),
        yields: Vec::new(heap),
        depth: 0,
        deep: random.chance(10),
    };
    let count = 5 + random.below(56) as usize;
    let mut calls = begun(heap, random, file)?;
    for ask in &calls {
        history.note(heap, ask)?;
    }
    for _ in calls.len()..count {
        let ask = next(heap, random, &history)?;
        history.note(heap, &ask)?;
        calls.push(ask)?;
    }
    Ok(calls)
}

/// The loads that a list begins with: mostly one of the file, before it now and then one of a good file, and mostly so where the file is not accepted.
fn begun(heap: Global, random: &mut Random, file: &[u8]) -> Result<Vec<Ask>, AllocError> {
    let accepted = judged(heap, file)?.is_ok();
    let mut calls = Vec::new(heap);
    if random.chance(if accepted { 15 } else { 75 }) {
        let routine = structured(heap, random)?;
        calls.push(Ask::Load(written(heap, &routine)?))?;
    }
    if random.chance(95) {
        calls.push(Ask::Load(Vec::from_slice(heap, file)?))?;
    }
    Ok(calls)
}

fn next(heap: Global, random: &mut Random, history: &History<'_>) -> Result<Ask, AllocError> {
    if history.deep && random.chance(50) {
        return Ok(Ask::Open);
    }
    // Fewer calls with a token where no attempt is open.
    let among = if history.depth == 0 { 64 } else { 140 };
    match random.below(among) {
        0..8 => another_load(heap, random, history),
        8..18 => run(heap, random),
        18..25 => Ok(write_out(random, history)),
        25..33 => Ok(facts(random, history)),
        33..36 => Ok(Ask::Takes),
        36..41 => Ok(Ask::Unit),
        41..58 => Ok(Ask::Open),
        _ => Ok(on_token(random, history)),
    }
}

/// A load of the file or of another.
fn another_load(
    heap: Global,
    random: &mut Random,
    history: &History<'_>,
) -> Result<Ask, AllocError> {
    let bytes = if random.chance(50) {
        Vec::from_slice(heap, history.file)?
    } else {
        file(heap, random)?.bytes
    };
    Ok(Ask::Load(bytes))
}

fn run(heap: Global, random: &mut Random) -> Result<Ask, AllocError> {
    let budget = match random.below(10) {
        0 => 0,
        1..4 => random.below(20),
        _ => random.below(401),
    };
    Ok(Ask::Run {
        inputs: inputs(heap, random)?,
        room: random.index(17),
        budget,
    })
}

/// A write-out, often into a buffer that is just long enough for the unit that was loaded last, or just too short.
fn write_out(random: &mut Random, history: &History<'_>) -> Ask {
    let length = ROW_LENGTH
        .saturating_mul(history.rows.len())
        .saturating_add(BESIDE_ROWS);
    let room = match random.below(10) {
        0..3 => length,
        3..5 => length.saturating_sub(1),
        5..8 => LONGEST,
        _ => random.index(LONGEST + 1),
    };
    Ask::WriteOut { room }
}

/// The facts at a place, now and then past the end.
fn facts(random: &mut Random, history: &History<'_>) -> Ask {
    let count = history.rows.len();
    let place = match random.below(20) {
        0 => count,
        1 => random.index(1000),
        _ => random.index(count),
    };
    Ask::Facts { place }
}

/// A call that is given a token.
fn on_token(random: &mut Random, history: &History<'_>) -> Ask {
    let depth = token(random, history.depth);
    match random.below(100) {
        0..58 => {
            let (place, row) = proposal(random, history.rows.as_slice(), history.yields.as_slice());
            Ask::Propose { depth, place, row }
        }
        58..65 => Ask::Tidy { depth },
        65..78 => Ask::Keep { depth },
        _ => Ask::Abandon { depth },
    }
}

/// The innermost attempt's depth mostly.
fn token(random: &mut Random, depth: u8) -> u8 {
    if random.chance(94) {
        return depth;
    }
    let any = random.byte();
    random
        .choice(&[0, 9, depth.saturating_add(1), depth.saturating_sub(1), any])
        .unwrap_or(0)
}
