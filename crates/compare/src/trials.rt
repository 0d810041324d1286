//! Runs that both sides make.
use crate::sides::{fault_of, told_of};
use crate::tally::Tally;
use bytecode::unit::Unit;
use draws::random::Random;
use generate::inputs;
use machine::answer::Answer;
use machine::ending::Ending;
use machine::run::run as run_unit;
use second::desk::Say;
use second::machine::run;
use second::routine::Routine;
use std::alloc::{AllocError, Global};
use workspace::refusal::Refusal;
use workspace::workspace::Workspace;

/// How many lists of inputs are tried.
const LISTS: usize = 3;

/// The rooms that are tried with each list: the last is enough for every budget.
const ROOMS: [usize; 4] = [0, 1, 4, 2000];

/// The budgets that are tried with each room.
const BUDGETS: [u32; 4] = [0, 1, 30, 2000];

/// What the output buffer of the library holds before a run.
const MARK: i32 = 0x5a5a_5a5a;

/// A run, and what the second side says of it.
#[derive(Debug, Drop)]
pub struct Trial {
    inputs: Vec<i32>,
    room: usize,
    budget: u32,
    told: Say,
}

/// Runs of a routine by the second side.
pub fn trials(
    heap: Global,
    random: &mut Random,
    routine: &Routine,
) -> Result<Vec<Trial>, AllocError> {
    let mut trials = Vec::new(heap);
    for _ in 0..LISTS {
        let inputs = inputs(heap, random)?;
        for room in ROOMS {
            for budget in BUDGETS {
                trials.push(Trial {
                    inputs: inputs.clone()?,
                    room,
                    budget,
                    told: Say::Ran(run(heap, routine, inputs.as_slice(), room, budget)?),
                })?;
            }
        }
    }
    Ok(trials)
}

/// Compares the same runs of the unit that a workspace holds, and that none ends Stuck. `when` says which unit that is.
pub fn compare_runs(
    heap: Global,
    space: &Workspace,
    trials: &[Trial],
    when: &str,
    tally: &mut Tally,
) -> Result<(), AllocError> {
    for trial in trials {
        let mut buffer = vec![in heap; MARK; trial.room]?;
        let ran = space.run(trial.inputs.as_slice(), buffer.as_mut_slice(), trial.budget);
        let is_stuck = matches!(
            ran,
            Ok(Answer {
                ending: Ending::Stuck,
                ..
            })
        );
        tally.compare(
            heap,
            format_args!("{when}, whether {trial:?} ends Stuck"),
            &is_stuck,
            &false,
        )?;
        compare_run(heap, ran, buffer.as_slice(), trial, when, tally)?;
    }
    Ok(())
}

/// Compares the same runs of a unit that the verifier may refuse.
pub fn compare_unverified_runs(
    heap: Global,
    unit: &Unit,
    trials: &[Trial],
    tally: &mut Tally,
) -> Result<(), AllocError> {
    for trial in trials {
        let mut buffer = vec![in heap; MARK; trial.room]?;
        let answer = run_unit(
            unit,
            trial.inputs.as_slice(),
            buffer.as_mut_slice(),
            trial.budget,
        );
        compare_run(
            heap,
            Ok(answer),
            buffer.as_slice(),
            trial,
            "unverified",
            tally,
        )?;
    }
    Ok(())
}

/// Compares what a run answered, and the buffer after it.
fn compare_run(
    heap: Global,
    ran: Result<Answer, Refusal>,
    buffer: &[i32],
    trial: &Trial,
    when: &str,
    tally: &mut Tally,
) -> Result<(), AllocError> {
    let (say, written) = match ran {
        Ok(answer) => (Say::Ran(told_of(heap, &answer, buffer)?), answer.written),
        Err(refusal) => (Say::Refused(fault_of(refusal)), 0),
    };
    let is_kept = buffer.iter().skip(written).all(|entry| *entry == MARK);
    tally.compare(
        heap,
        format_args!("{when}, run {trial:?}"),
        &say,
        &trial.told,
    )?;
    tally.compare(
        heap,
        format_args!("{when}, whether the buffer past the outputs is kept by {trial:?}"),
        &is_kept,
        &true,
    )?;
    tally.counts.run(&say);
    Ok(())
}
