//! What one time of each task answers.
ghost use Rattle.std.specs.Prelude.{◌≡◌, ◌≤◌, pos, IfOk};
ghost use Rattle.clock.specs.Sums.{next_sum, summed};

use crate::command::Task;
use crate::error::Fault;
use crate::find::lowest_change;
use crate::line::Code;
use crate::measure::LONGEST_FILE;
use crate::pick::Picks;
use crate::supply::Supply;
use crate::task;
use bytecode::instr::Instr;
use bytecode::word::Word;
use dataflow::policy::Policy;
use facts::live::LiveSet;
use machine::answer::Answer;
use rewrite::change::Change;
use std::fmt;
use workspace::refusal::Refusal;
use workspace::shown::Facts;
use workspace::workspace::Workspace;

/// Bytes as lower-case hex digits.
#[derive(Clone, Copy)]
struct Hex<'a>(&'a [u8]);

impl fmt::Display for Hex<'_> {
    fn fmt<W: fmt::Write>(&self, f: &mut fmt::Formatter<W>) -> fmt::Result {
        for byte in self.0 {
            write!(f, "{byte:02x}")?;
        }
        Ok(())
    }
}

/// A change by the numbers of its instruction.
#[derive(Clone, Copy)]
struct Proposal<'a>(&'a Change);

impl fmt::Display for Proposal<'_> {
    fn fmt<W: fmt::Write>(&self, f: &mut fmt::Formatter<W>) -> fmt::Result {
        let Change { place, instr, .. } = *self.0;
        let Word { op, drops, arg } = Word::from(instr);
        write!(f, "proposal {place}: {op} {drops} {arg}")
    }
}

/// The facts at a place, as three lines.
#[derive(Clone, Copy)]
struct PlaceLines<'a> {
    place: usize,
    facts: &'a Facts,
}

impl fmt::Display for PlaceLines<'_> {
    fn fmt<W: fmt::Write>(&self, f: &mut fmt::Formatter<W>) -> fmt::Result {
        let place = self.place;
        let Facts {
            types,
            constants,
            live,
        } = self.facts;
        write!(
            f,
            "{place} types {types}\n{place} constants {constants}\n{place} live"
        )?;
        if !live.same(LiveSet::new()) {
            write!(f, " {live}")?;
        }
        Ok(())
    }
}

/// How a run ended, and the sum of its outputs.
#[derive(Clone, Copy)]
struct RunLine<'a> {
    answer: &'a Answer,
    sum: i32,
}

impl fmt::Display for RunLine<'_> {
    fn fmt<W: fmt::Write>(&self, f: &mut fmt::Formatter<W>) -> fmt::Result {
        let Answer {
            ending,
            place,
            steps,
            used,
            written,
        } = *self.answer;
        let sum = self.sum;
        write!(
            f,
            "{ending} place {place} steps {steps} inputs {used} outputs {written} sum {sum}"
        )
    }
}

/// Facts that hold or do not, as digits 1 and 0.
#[derive(Clone, Copy)]
struct Digits<'a>(&'a [bool]);

impl fmt::Display for Digits<'_> {
    fn fmt<W: fmt::Write>(&self, f: &mut fmt::Formatter<W>) -> fmt::Result {
        for fact in self.0 {
            f.write_str(if *fact { "1" } else { "0" })?;
        }
        Ok(())
    }
}

/// Does a task once, after a first loading of the file, and prints what it answers; of a run `times` is the budget in steps.
/// Fails where the file is not loaded, where there is nothing to propose, and where memory or the output fails.
pub fn answer<P: Policy>(
    rt: &(impl Print + AllocGlobal),
    task: Task,
    space: &mut Workspace,
    file: &[u8],
    times: u32,
    picks: &mut Picks<P>,
) -> Result<(), Fault> {
    space.load(file, picks)?;
    match task {
        Task::Load => print_held(rt, space),
        Task::Tidy => {
            let changes = task::tidy(space, file, picks)?;
            println!(rt; "changes {changes}")?;
            print_held(rt, space)
        }
        Task::Abandon => {
            task::abandon(space, file, picks)?;
            print_held(rt, space)
        }
        Task::Propose => {
            let change = lowest_change(space)?.ok_or(Fault::NothingToPropose)?;
            task::propose(space, file, &change, picks)?;
            println!(rt; "{}", Proposal(&change))?;
            print_held(rt, space)
        }
        Task::Write => {
            let mut buffer = [0u8; LONGEST_FILE];
            let length = written(space, &mut buffer)?;
            println!(rt; "length {length}\nfile {}", Hex(&buffer[..length]))?;
            Ok(())
        }
        Task::Run => {
            let mut supply = Supply::new(rt.alloc())?;
            let answer = space.run(
                supply.inputs.as_slice(),
                supply.outputs.as_mut_slice(),
                times,
            )?;
            supply.outputs.truncate(answer.written);
            let line = RunLine {
                answer: &answer,
                sum: sum(supply.outputs.as_slice()),
            };
            println!(rt; "{line}")?;
            Ok(())
        }
        Task::Solve => {
            let code = Code::from_the_last(space.unit()?.len);
            let mut facts = [false; 128];
            let takes = task::solve(&code, &mut picks.types, &mut facts);
            println!(rt; "takes {takes}\n{}", Digits(&facts[..code.nodes]))?;
            Ok(())
        }
    }
}

/// The output added to 31 times the sum so far, modulo 2^32.
fn sum_with(sum: i32, output: i32) -> i32
    ensures { result ≡ next_sum sum output }
{
    sum.wrapping_mul(31).wrapping_add(output)
}

/// Each output added to 31 times the sum so far, modulo 2^32.
fn sum(outputs: &[i32]) -> i32
    ensures { result ≡ summed (pos 0) outputs.now }
{
    let mut sum = 0i32;
    for output in outputs {
        sum = sum_with(sum, *output);
    }
    sum
}

/// Prints what a workspace holds: the take counts, the unit's file and the facts at each place.
fn print_held(rt: &impl Print, space: &Workspace) -> Result<(), Fault> {
    let takes = space.take_counts()?;
    println!(rt; "takes {} {} {}", takes.types, takes.constants, takes.lives)?;
    let mut buffer = [0u8; LONGEST_FILE];
    let length = written(space, &mut buffer)?;
    println!(rt; "file {}", Hex(&buffer[..length]))?;
    for place in 0..space.unit()?.len {
        let facts = space.facts_at(place)?;
        let lines = PlaceLines {
            place,
            facts: &facts,
        };
        println!(rt; "{lines}")?;
    }
    Ok(())
}

/// Writes the held unit's file to the front of a buffer, and answers its length.
fn written(space: &Workspace, buffer: &mut [u8; LONGEST_FILE]) -> Result<usize, Refusal>
    ensures { IfOk result (λ length. length ≤ 774) }
{
    space.write_out(buffer)
}
