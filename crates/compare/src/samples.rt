//! The sample units, through the library's public calls.
use crate::attempt::tidy_and_keep;
use crate::sides::{fault_of_load, row_of};
use bytecode::instr::Instr;
use facts::cell::{Cell, ConstCell, TypeCell};
use facts::constants::carry_constants;
use facts::frame::Frame;
use facts::types::carry_types;
use machine::answer::Answer;
use picks::pick::PickName;
use second::fault::Fault;
use second::file::written;
use second::routine::{Routine, Row};
use std::alloc::{AllocError, Global};
use std::fmt;
use workspace::refusal::LoadFault;
use workspace::workspace::Workspace;

/// A sample, what came out, and what ought to.
#[derive(Drop)]
pub struct Sample {
    name: &'static str,
    got: String,
    wanted: &'static str,
}

impl Sample {
    /// Whether what came out is right.
    pub fn is_right(&self) -> bool {
        self.got.as_str() == self.wanted
    }
}

impl fmt::Display for Sample {
    fn fmt<W: fmt::Write>(&self, f: &mut fmt::Formatter<W>) -> fmt::Result {
        write!(f, "{}: {}", self.name, self.got)?;
        if !self.is_right() {
            write!(f, ", wanted {}", self.wanted)?;
        }
        Ok(())
    }
}

/// STORE and LOAD of a number that is then written out, over one local.
const STORED: [Instr; 5] = [
    Instr::Lit { drops: 0, value: 5 },
    Instr::Store(0),
    Instr::Load(0),
    Instr::Out,
    Instr::Halt,
];

/// A step that pushes 0.
const ZERO: Instr = Instr::Lit { drops: 0, value: 0 };

/// How many steps a run is given that never ends.
const BUDGET: u32 = 100_000;

/// All samples.
pub fn samples(heap: Global) -> Result<Vec<Sample>, AllocError> {
    let mut samples = Vec::new(heap);
    add_arithmetic(heap, &mut samples)?;
    add_joins(heap, &mut samples)?;
    add_verdicts(heap, &mut samples)?;
    add_changes(heap, &mut samples)?;
    add_files(heap, &mut samples)?;
    Ok(samples)
}

fn add_arithmetic(heap: Global, samples: &mut Vec<Sample>) -> Result<(), AllocError> {
    samples.push(Sample {
        name: "7 DIV -2",
        got: computed(heap, 7, -2, Instr::Div)?,
        wanted: "-3",
    })?;
    samples.push(Sample {
        name: "-2147483648 DIV -1",
        got: computed(heap, i32::MIN, -1, Instr::Div)?,
        wanted: "-2147483648",
    })?;
    samples.push(Sample {
        name: "2147483647 ADD 1",
        got: computed(heap, i32::MAX, 1, Instr::Add)?,
        wanted: "-2147483648",
    })?;
    Ok(())
}

fn add_joins(heap: Global, samples: &mut Vec<Sample>) -> Result<(), AllocError> {
    samples.push(Sample {
        name: "Num joined with Flag",
        got: format!(in heap; "{}", TypeCell::Num.join(TypeCell::Flag))?,
        wanted: "Unusable",
    })?;
    let mut one = Frame::entry();
    carry_types(ZERO, &mut one);
    let mut joined = one;
    carry_types(ZERO, &mut joined);
    joined.join(&one);
    samples.push(Sample {
        name: "heights 1 and 2 joined",
        got: format!(in heap; "{joined}")?,
        wanted: "Clash",
    })?;
    samples.push(Sample {
        name: "ADD on Known flag and Known 3",
        got: top(heap, &added_to_a_flag())?,
        wanted: "Varies",
    })?;
    Ok(())
}

fn add_verdicts(heap: Global, samples: &mut Vec<Sample>) -> Result<(), AllocError> {
    samples.push(Sample {
        name: "JMP -1 at place 0",
        got: verdict(heap, 0, &[Instr::Jmp(-1)])?,
        wanted: "refused 7 by Unit place 0 reason 0",
    })?;
    samples.push(Sample {
        name: "JMP 0 at place 0",
        got: verdict(heap, 0, &[Instr::Jmp(0)])?,
        wanted: "accepted",
    })?;
    samples.push(Sample {
        name: "JMP 0 at place 0, run",
        got: run(heap, &[Instr::Jmp(0)])?,
        wanted: "Running place 0 steps 100000 written 0",
    })?;
    samples.push(Sample {
        name: "eight LIT 0 0 and HALT",
        got: verdict(heap, 0, repeated(heap, ZERO, 8)?.as_slice())?,
        wanted: "accepted",
    })?;
    samples.push(Sample {
        name: "nine LIT 0 0 and HALT",
        got: verdict(heap, 0, repeated(heap, ZERO, 9)?.as_slice())?,
        wanted: "refused 8 by Verifier place 8 reason 2",
    })?;
    Ok(())
}

fn add_changes(heap: Global, samples: &mut Vec<Sample>) -> Result<(), AllocError> {
    samples.push(Sample {
        name: "LIT 0 5, STORE 0, LOAD 0, OUT, HALT tidied",
        got: tidied(heap, 1, &STORED)?,
        wanted: "2 changes, [Lit { drops: 0, value: 5 }, Pop, Lit { drops: 0, value: 5 }, Out, Halt]",
    })?;
    samples.push(Sample {
        name: "its take counts under first-in",
        got: takes(heap, 1, &STORED, PickName::FirstIn)?,
        wanted: "5, 5, 6",
    })?;
    samples.push(Sample {
        name: "its take counts under highest",
        got: takes(heap, 1, &STORED, PickName::Highest)?,
        wanted: "9, 9, 5",
    })?;
    Ok(())
}

fn add_files(heap: Global, samples: &mut Vec<Sample>) -> Result<(), AllocError> {
    samples.push(Sample {
        name: "HALT alone with no locals, written",
        got: written_out(heap, 0, &[Instr::Halt])?,
        wanted: "12 bytes, [1, 0, 0, 1, 1, 0, 0, 0, 0, 0, 0, 3]",
    })?;
    samples.push(Sample {
        name: "a file of 128 instructions",
        got: verdict(heap, 0, repeated(heap, Instr::Nop, 127)?.as_slice())?,
        wanted: "accepted",
    })?;
    samples.push(Sample {
        name: "a file of 129 instructions",
        got: verdict(heap, 0, repeated(heap, Instr::Nop, 128)?.as_slice())?,
        wanted: "refused 3 by File place 0 reason 0",
    })?;
    samples.push(Sample {
        name: "the empty file",
        got: loaded(heap, &[])?,
        wanted: "refused 3 by File place 0 reason 0",
    })?;
    Ok(())
}

/// The file of instructions, a unit or not, as the second side writes it.
fn file_of(heap: Global, locals: u8, code: &[Instr]) -> Result<Vec<u8>, AllocError> {
    let rows: Vec<Row> = code.iter().map(|instr| row_of(*instr)).collect(heap)?;
    written(heap, &Routine { locals, rows })
}

/// An instruction so many times, and HALT.
fn repeated(heap: Global, instr: Instr, times: usize) -> Result<Vec<Instr>, AllocError> {
    let mut code = vec![in heap; instr; times]?;
    code.push(Instr::Halt)?;
    Ok(code)
}

/// A workspace into which the unit is loaded.
fn holding(
    heap: Global,
    locals: u8,
    code: &[Instr],
    name: PickName,
) -> Result<(Workspace, Result<(), LoadFault>), AllocError> {
    let mut space = Workspace::new();
    let file = file_of(heap, locals, code)?;
    let answer = space.load(file.as_slice(), &mut name.policies());
    Ok((space, answer))
}

/// What loading a file answers.
fn loaded(heap: Global, file: &[u8]) -> Result<String, AllocError> {
    answered(
        heap,
        Workspace::new().load(file, &mut PickName::FirstIn.policies()),
    )
}

/// What loading a unit answers.
fn verdict(heap: Global, locals: u8, code: &[Instr]) -> Result<String, AllocError> {
    let (_space, answer) = holding(heap, locals, code, PickName::FirstIn)?;
    answered(heap, answer)
}

/// The answer of a load as text.
fn answered(heap: Global, answer: Result<(), LoadFault>) -> Result<String, AllocError> {
    match answer.map_err(fault_of_load) {
        Ok(()) => String::from_str(heap, "accepted"),
        Err(
            Fault {
                layer: None,
                number,
                ..
            },
        ) => format!(in heap; "refused {number}"),
        Err(
            Fault {
                layer: Some(layer),
                number,
                place,
                reason,
            },
        ) => format!(in heap; "refused {number} by {layer:?} place {place} reason {reason}"),
    }
}

/// The only output of a run that computes with two numbers.
fn computed(heap: Global, a: i32, b: i32, instr: Instr) -> Result<String, AllocError> {
    let code = [
        Instr::Lit { drops: 0, value: a },
        Instr::Lit { drops: 0, value: b },
        instr,
        Instr::Out,
        Instr::Halt,
    ];
    let (space, _answer) = holding(heap, 0, &code, PickName::FirstIn)?;
    let mut outputs = [0];
    let ran = space.run(&[], &mut outputs, BUDGET);
    match ran {
        Ok(answer) if answer.written == 1 => format!(in heap; "{}", outputs[0]),
        _ => String::from_str(heap, "no output"),
    }
}

/// What a run without inputs answers.
fn run(heap: Global, code: &[Instr]) -> Result<String, AllocError> {
    let (space, _answer) = holding(heap, 0, code, PickName::FirstIn)?;
    match space.run(&[], &mut [], BUDGET) {
        Ok(
            Answer {
                ending,
                place,
                steps,
                written,
                ..
            },
        ) => format!(in heap; "{ending} place {place} steps {steps} written {written}"),
        Err(refusal) => format!(in heap; "refused {}", refusal.number()),
    }
}

/// The constants after ADD on a known flag and a known 3.
fn added_to_a_flag() -> Frame<ConstCell> {
    let flag = Instr::LitFlag {
        drops: 0,
        value: true,
    };
    let three = Instr::Lit { drops: 0, value: 3 };
    let mut frame = Frame::entry();
    for instr in [flag, three, Instr::Add] {
        carry_constants(instr, false, &mut frame);
    }
    frame
}

/// The cell of the top value.
fn top(heap: Global, frame: &Frame<ConstCell>) -> Result<String, AllocError> {
    match frame.top() {
        Some(cell) => format!(in heap; "{cell:?}"),
        None => String::from_str(heap, "no value"),
    }
}

/// How many changes tidying makes, and the instructions after it.
fn tidied(heap: Global, locals: u8, code: &[Instr]) -> Result<String, AllocError> {
    let (mut space, _answer) = holding(heap, locals, code, PickName::FirstIn)?;
    let changes = tidy_and_keep(&mut space, &mut PickName::FirstIn.policies());
    match (changes, space.unit()) {
        (Ok(changes), Ok(unit)) => format!(in heap; "{changes} changes, {:?}", unit.instructions()),
        (Err(refusal), _) | (_, Err(refusal)) => format!(in heap; "refused {}", refusal.number()),
    }
}

/// The take counts after a load under a policy.
fn takes(heap: Global, locals: u8, code: &[Instr], name: PickName) -> Result<String, AllocError> {
    let (space, _answer) = holding(heap, locals, code, name)?;
    match space.take_counts() {
        Ok(takes) => format!(in heap; "{}, {}, {}", takes.types, takes.constants, takes.lives),
        Err(refusal) => format!(in heap; "refused {}", refusal.number()),
    }
}

/// The file that a unit is written to after it was loaded.
fn written_out(heap: Global, locals: u8, code: &[Instr]) -> Result<String, AllocError> {
    let (space, _answer) = holding(heap, locals, code, PickName::FirstIn)?;
    let mut buffer = [0; 12];
    match space.write_out(&mut buffer) {
        Ok(length) => format!(in heap; "{length} bytes, {buffer:?}"),
        Err(refusal) => format!(in heap; "refused {}", refusal.number()),
    }
}
