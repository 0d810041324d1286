//! Compares what is known of units that the verifier refuses. They alone have Clash, and runs that end Stuck.
use crate::tally::Tally;
use crate::trials::{compare_unverified_runs, trials};
use crate::units::compare_facts;
use analyses::constants::Constants;
use analyses::graph::Graph;
use analyses::live::Live;
use analyses::solution::solution;
use analyses::types::Types;
use bytecode::read::read;
use bytecode::unit::Unit;
use draws::random::Random;
use facts::cell::{ConstCell, TypeCell};
use facts::frame::Frame;
use facts::live::LiveSet;
use picks::pick::{PickName, Picks};
use second::facts::{Facts, facts_of};
use second::file::read as read_routine;
use std::alloc::{AllocError, Global};
use workspace::shown::Facts as Shown;

/// The solutions of a unit, which need not be verified.
#[derive(Drop)]
struct Solved {
    types: [Frame<TypeCell>; 128],
    constants: [Frame<ConstCell>; 128],
    lives: [LiveSet; 128],
}

impl Solved {
    fn of(unit: &Unit, picks: &mut Picks) -> Solved {
        let graph = Graph::new(unit);
        let mut types = [Frame::Unreached; 128];
        solution::<Types, _>(&graph, &mut picks.types, &mut types);
        let mut constants = [Frame::Unreached; 128];
        solution::<Constants, _>(&graph, &mut picks.constants, &mut constants);
        let mut lives = [LiveSet::new(); 128];
        solution::<Live, _>(&graph, &mut picks.lives, &mut lives);
        Solved {
            types,
            constants,
            lives,
        }
    }

    fn at(&self, place: usize) -> Option<Shown> {
        Some(Shown {
            types: *self.types.get(place)?,
            constants: *self.constants.get(place)?,
            live: *self.lives.get(place)?,
        })
    }
}

/// Compares the runs and the facts of the unit of a file that is not loaded, if it is one.
pub fn compare_unverified(
    heap: Global,
    random: &mut Random,
    file: &[u8],
    tally: &mut Tally,
) -> Result<(), AllocError> {
    let unit = read(file);
    let routine = read_routine(heap, file)?;
    tally.compare(
        heap,
        "whether it is the file of a unit",
        &unit.is_ok(),
        &routine.is_ok(),
    )?;
    let (Ok(unit), Ok(routine)) = (unit, routine) else {
        return Ok(());
    };
    let trials = trials(heap, random, &routine)?;
    compare_unverified_runs(heap, &unit, trials.as_slice(), tally)?;
    let facts = facts_of(heap, &routine)?;
    for name in PickName::each(random) {
        compare_solved(heap, &unit, &facts, name, tally)?;
    }
    Ok(())
}

/// Compares the facts at each place of a unit under a pick policy.
fn compare_solved(
    heap: Global,
    unit: &Unit,
    facts: &Facts,
    name: PickName,
    tally: &mut Tally,
) -> Result<(), AllocError> {
    let solved = Solved::of(unit, &mut name.policies());
    let when = format!(in heap; "unverified, {name}")?;
    for place in 0..unit.len {
        if let Some(shown) = solved.at(place) {
            compare_facts(heap, &shown, facts, place, when.as_str(), tally)?;
            tally.counts.place(&shown, &[]);
        }
    }
    Ok(())
}
