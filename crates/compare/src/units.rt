//! Compares what the two sides say of one file.
use crate::attempt::tidy_and_keep;
use crate::sides::{bits_of, fault_of, fault_of_load, routine_of, row_of, shape_of};
use crate::tally::Tally;
use crate::trials::{Trial, compare_runs, trials};
use crate::unverified::compare_unverified;
use crate::written::compare_written;
use bytecode::instr::Instr;
use draws::random::Random;
use facts::frame::Frame;
use generate::Made;
use picks::pick::PickName;
use rewrite::rule::Rule;
use rewrite::yields::yielded as yielded_by;
use second::facts::{Facts, facts_of};
use second::judge::judged;
use second::routine::{Routine, Row};
use second::rules::{tidied, yielded};
use std::alloc::{AllocError, Global};
use workspace::shown::Facts as Shown;
use workspace::workspace::Workspace;

/// The height of types and of constants.
const FRAME_HEIGHT: usize = 26;

/// The height of live locals.
const LIVE_HEIGHT: usize = 16;

/// A routine with what the second side says of it.
#[derive(Drop)]
struct Known {
    routine: Routine,
    facts: Facts,
}

/// What the second side says of an accepted file.
#[derive(Drop)]
struct Expected {
    loaded: Known,
    changes: usize,
    tidied: Known,
    trials: Vec<Trial>,
}

impl Known {
    fn of(heap: Global, routine: Routine) -> Result<Known, AllocError> {
        let facts = facts_of(heap, &routine)?;
        Ok(Known { routine, facts })
    }
}

impl Expected {
    fn of(heap: Global, random: &mut Random, routine: Routine) -> Result<Expected, AllocError> {
        let (other, changes) = tidied(heap, &routine)?;
        let trials = trials(heap, random, &routine)?;
        Ok(Expected {
            loaded: Known::of(heap, routine)?,
            changes,
            tidied: Known::of(heap, other)?,
            trials,
        })
    }
}

/// Compares what loading a file answers, and what is known of its unit, if it is one.
pub fn compare_file(
    heap: Global,
    random: &mut Random,
    made: &Made,
    tally: &mut Tally,
) -> Result<(), AllocError> {
    let file = made.bytes.as_slice();
    let mut space = Workspace::new();
    let loaded = space.load(file, &mut PickName::FirstIn.policies());
    let fault = loaded.err().map(fault_of_load);
    tally.counts.file(made.sort, fault);
    match judged(heap, file)? {
        Ok(routine) => {
            tally.compare(heap, "load", &fault, &None)?;
            let expected = Expected::of(heap, random, routine)?;
            for name in PickName::each(random) {
                compare_under(heap, file, &expected, name, tally)?;
            }
            Ok(())
        }
        Err(other) => {
            tally.compare(heap, "load", &fault, &Some(other))?;
            compare_unverified(heap, random, file, tally)
        }
    }
}

/// Compares all that is known of a unit, and of the unit that tidying makes of it, under a pick policy.
fn compare_under(
    heap: Global,
    file: &[u8],
    expected: &Expected,
    name: PickName,
    tally: &mut Tally,
) -> Result<(), AllocError> {
    let mut space = Workspace::new();
    let mut picks = name.policies();
    let fault = space.load(file, &mut picks).err().map(fault_of_load);
    tally.compare(heap, format_args!("load, {name}"), &fault, &None)?;
    let when = format!(in heap; "loaded, {name}")?;
    compare_known(heap, &space, &expected.loaded, when.as_str(), tally)?;
    compare_runs(
        heap,
        &space,
        expected.trials.as_slice(),
        when.as_str(),
        tally,
    )?;

    let changes = tidy_and_keep(&mut space, &mut picks).map_err(fault_of);
    let when = format!(in heap; "tidied, {name}")?;
    tally.compare(
        heap,
        format_args!("{when}, changes"),
        &changes,
        &Ok(expected.changes),
    )?;
    if let Ok(changes) = changes {
        tally.counts.tidied(changes);
    }
    compare_known(heap, &space, &expected.tidied, when.as_str(), tally)?;
    compare_runs(
        heap,
        &space,
        expected.trials.as_slice(),
        when.as_str(),
        tally,
    )
}

/// Compares the held unit, its file, its facts and what the rules yield.
fn compare_known(
    heap: Global,
    space: &Workspace,
    known: &Known,
    when: &str,
    tally: &mut Tally,
) -> Result<(), AllocError> {
    let unit = match space.unit() {
        Ok(unit) => Ok(routine_of(heap, unit)?),
        Err(refusal) => Err(fault_of(refusal)),
    };
    let other = Ok(known.routine.clone()?);
    tally.compare(heap, format_args!("{when}, unit"), &unit, &other)?;
    compare_takes(heap, space, known, when, tally)?;
    for place in 0..known.routine.rows.len() {
        compare_place(heap, space, known, place, when, tally)?;
    }
    compare_written(heap, space, &known.routine, when, tally)
}

/// Checks that the take counts are within their bounds.
fn compare_takes(
    heap: Global,
    space: &Workspace,
    known: &Known,
    when: &str,
    tally: &mut Tally,
) -> Result<(), AllocError> {
    let count = known.routine.rows.len();
    let within = space.take_counts().map(|takes| {
        is_possible(takes.types, count, FRAME_HEIGHT)
            && is_possible(takes.constants, count, FRAME_HEIGHT)
            && is_possible(takes.lives, count, LIVE_HEIGHT)
    });
    let within = within.map_err(fault_of);
    tally.compare(
        heap,
        format_args!("{when}, take counts within their bounds"),
        &within,
        &Ok(true),
    )
}

/// Whether an analysis of a height may need so many takes: each place is pending at first, and again at most as often as its facts change.
fn is_possible(takes: usize, places: usize, height: usize) -> bool {
    places <= takes && takes <= places.saturating_mul(height.saturating_add(1))
}

/// Compares the facts at a place, none of which is Clash, and what each rule yields there.
fn compare_place(
    heap: Global,
    space: &Workspace,
    known: &Known,
    place: usize,
    when: &str,
    tally: &mut Tally,
) -> Result<(), AllocError> {
    let Ok(shown) = space.facts_at(place) else {
        return tally.compare(
            heap,
            format_args!("{when}, facts at {place}"),
            &false,
            &true,
        );
    };
    compare_facts(heap, &shown, &known.facts, place, when, tally)?;
    let is_clash = matches!(shown.types, Frame::Clash) || matches!(shown.constants, Frame::Clash);
    tally.compare(
        heap,
        format_args!("{when}, whether the types or the constants at {place} are Clash"),
        &is_clash,
        &false,
    )?;
    let library = match instr_at(space, place) {
        Some(instr) => yields(heap, instr, &shown)?,
        None => Vec::new(heap),
    };
    let other = yielded(heap, &known.routine, &known.facts, place)?;
    tally.compare(
        heap,
        format_args!("{when}, yields at {place}"),
        &library,
        &other,
    )?;
    tally.counts.place(&shown, library.as_slice());
    Ok(())
}

/// Compares the facts at a place.
pub fn compare_facts(
    heap: Global,
    shown: &Shown,
    facts: &Facts,
    place: usize,
    when: &str,
    tally: &mut Tally,
) -> Result<(), AllocError> {
    tally.compare(
        heap,
        format_args!("{when}, types at {place}"),
        &Some(&shape_of(heap, &shown.types)?),
        &facts.kinds.get(place),
    )?;
    tally.compare(
        heap,
        format_args!("{when}, constants at {place}"),
        &Some(&shape_of(heap, &shown.constants)?),
        &facts.guesses.get(place),
    )?;
    tally.compare(
        heap,
        format_args!("{when}, live after {place}"),
        &Some(&bits_of(shown.live)),
        &facts.lives.get(place),
    )
}

/// The instruction at a place of the held unit.
fn instr_at(space: &Workspace, place: usize) -> Option<Instr> {
    space.unit().ok()?.instructions().get(place).copied()
}

/// What each rule of the library yields, with its number.
fn yields(heap: Global, instr: Instr, shown: &Shown) -> Result<Vec<(u8, Row)>, AllocError> {
    let mut yields = Vec::new(heap);
    for rule in Rule::ALL {
        if let Some(instr) = yielded_by(rule, instr, &shown.constants, shown.live) {
            yields.push((rule.number(), row_of(instr)))?;
        }
    }
    Ok(yields)
}
