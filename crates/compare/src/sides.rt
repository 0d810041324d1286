//! What the library says, as the second side says it.
use bytecode::instr::Instr;
use bytecode::unit::Unit;
use bytecode::word::Word;
use facts::cell::{Cell, ConstCell, TypeCell};
use facts::frame::Frame;
use facts::live::LiveSet;
use machine::answer::Answer;
use second::desk::{Ask, Say};
use second::facts::{Guess, Kind, Shape};
use second::fault::{Fault, Layer};
use second::machine::Told;
use second::routine::{Routine, Row};
use second::value::Value;
use std::alloc::{AllocError, Global};
use workspace::events::{Call, Reply};
use workspace::refusal::{LoadFault, Refusal};
use workspace::shown::Facts;

/// The row of an instruction.
pub fn row_of(instr: Instr) -> Row {
    let Word { op, drops, arg } = Word::from(instr);
    Row {
        operation: op,
        drops,
        argument: arg,
    }
}

/// The instruction of a row, if the machine has it.
fn instr_of(row: Row) -> Option<Instr> {
    let Row {
        operation,
        drops,
        argument,
    } = row;
    Instr::try_from(Word {
        op: operation,
        drops,
        arg: argument,
    })
    .ok()
}

/// The routine of a unit.
pub fn routine_of(heap: Global, unit: &Unit) -> Result<Routine, AllocError> {
    Ok(Routine {
        locals: unit.locals,
        rows: unit
            .instructions()
            .iter()
            .map(|instr| row_of(*instr))
            .collect(heap)?,
    })
}

/// Why a file is not loaded.
pub fn fault_of_load(fault: LoadFault) -> Fault {
    let (layer, reason) = match fault {
        LoadFault::AttemptOpen => (None, 0),
        LoadFault::File(_) => (Some(Layer::File), 0),
        LoadFault::Unit(_) => (Some(Layer::Unit), 0),
        LoadFault::Verifier(fault) => (Some(Layer::Verifier), fault.reason.number()),
    };
    Fault {
        layer,
        number: fault.number(),
        place: fault.place(),
        reason,
    }
}

/// Why any other call is refused.
pub fn fault_of(refusal: Refusal) -> Fault {
    Fault::plain(refusal.number())
}

/// The answer of a run, with the outputs at the front of its buffer.
pub fn told_of(heap: Global, answer: &Answer, buffer: &[i32]) -> Result<Told, AllocError> {
    Ok(Told {
        ending: answer.ending.number(),
        place: answer.place,
        steps: answer.steps,
        used: answer.used,
        outputs: front(buffer, answer.written).to_vec(heap)?,
    })
}

/// The first so many entries, or all where there are fewer.
pub fn front<T>(entries: &[T], count: usize) -> &[T] {
    entries.get(..count).unwrap_or(entries)
}

/// A cell of a frame that the second side has too.
pub trait Shared: Cell {
    type Counterpart: Drop;

    fn counterpart(self) -> Self::Counterpart;
}

impl Shared for TypeCell {
    type Counterpart = Kind;

    fn counterpart(self) -> Kind {
        match self {
            TypeCell::Num => Kind::Number,
            TypeCell::Flag => Kind::Truth,
            TypeCell::Unusable => Kind::Unusable,
        }
    }
}

impl Shared for ConstCell {
    type Counterpart = Guess;

    fn counterpart(self) -> Guess {
        match self {
            ConstCell::Num(number) => Guess::Exactly(Value::Number(number)),
            ConstCell::Flag(flag) => Guess::Exactly(Value::Truth(flag)),
            ConstCell::Varies => Guess::Anything,
        }
    }
}

/// The shape of a frame.
pub fn shape_of<C: Shared>(
    heap: Global,
    frame: &Frame<C>,
) -> Result<Shape<C::Counterpart>, AllocError> {
    match frame {
        Frame::Unreached => Ok(Shape::Nowhere),
        Frame::Clash => Ok(Shape::Mixed),
        Frame::At(cells) => Ok(Shape::At {
            stack: front(cells.stack(), cells.height())
                .iter()
                .map(|cell| cell.counterpart())
                .collect(heap)?,
            locals: cells
                .locals()
                .iter()
                .map(|cell| cell.counterpart())
                .collect(heap)?,
        }),
    }
}

/// A set of live locals as bits.
pub fn bits_of(live: LiveSet) -> u16 {
    let mut bits = 0;
    for local in 0..16u8 {
        if live.contains(local) {
            bits |= 1 << local;
        }
    }
    bits
}

/// The facts at a place.
fn facts_of(heap: Global, shown: &Facts) -> Result<Say, AllocError> {
    Ok(Say::Facts {
        kinds: shape_of(heap, &shown.types)?,
        guesses: shape_of(heap, &shown.constants)?,
        live: bits_of(shown.live),
    })
}

/// What a call gives back, but for the rest of a buffer.
pub fn say_of(heap: Global, reply: &Reply) -> Result<Say, AllocError> {
    match reply {
        Reply::Loaded => Ok(Say::Loaded),
        Reply::Opened(depth) => Ok(Say::Opened(*depth)),
        Reply::Changed => Ok(Say::Changed),
        Reply::Tidied(changes) => Ok(Say::Tidied(*changes)),
        Reply::Kept => Ok(Say::Kept),
        Reply::Abandoned => Ok(Say::Abandoned),
        Reply::Ran {
            answer,
            outputs,
            ..
        } => Ok(Say::Ran(told_of(heap, answer, outputs)?)),
        Reply::Written { length, bytes, .. } => {
            Ok(Say::Wrote(front(bytes, *length).to_vec(heap)?))
        }
        Reply::Facts(shown) => facts_of(heap, shown),
        Reply::TakeCounts(_) => Ok(Say::Takes),
        Reply::Unit(unit) => Ok(Say::Unit(routine_of(heap, unit)?)),
        Reply::NotLoaded(fault) => Ok(Say::Refused(fault_of_load(*fault))),
        Reply::Refused(refusal)
        | Reply::Returned { refusal, .. }
        | Reply::NotRun { refusal, .. }
        | Reply::NotWritten { refusal, .. } => Ok(Say::Refused(fault_of(*refusal))),
    }
}

/// Whether the call left what it was lent and had no cause to write: a buffer past what was written, and the token of a refused call.
pub fn leaves_the_rest(call: &Call, reply: &Reply) -> bool {
    match reply {
        Reply::Ran {
            answer,
            outputs,
            ..
        } => is_blank_from(outputs, answer.written),
        Reply::NotRun { outputs, .. } => is_blank_from(outputs, 0),
        Reply::Written { length, bytes, .. } => is_blank_from(bytes, *length),
        Reply::NotWritten { bytes, .. } => is_blank_from(bytes, 0),
        Reply::Returned { depth, .. } => handed(call) == Some(*depth),
        _ => true,
    }
}

/// The depth of the token that a call may spend.
fn handed(call: &Call) -> Option<u8> {
    match call {
        Call::Keep { depth } | Call::Abandon { depth } => Some(*depth),
        _ => None,
    }
}

/// Whether all entries from an index on are zero.
fn is_blank_from<T: PartialEq + Default + Drop>(entries: &[T], index: usize) -> bool {
    let blank = T::default();
    entries.iter().skip(index).all(|entry| *entry == blank)
}

/// The call that asks the library for the same; none where the machine has not the instruction.
pub fn call_of(ask: &Ask) -> Option<Call<'_>> {
    Some(match ask {
        Ask::Load(file) => Call::Load(file.as_slice()),
        Ask::Open => Call::Open,
        Ask::Propose { depth, place, row } => Call::Propose {
            depth: *depth,
            place: *place,
            instr: instr_of(*row)?,
        },
        Ask::Tidy { depth } => Call::Tidy { depth: *depth },
        Ask::Keep { depth } => Call::Keep { depth: *depth },
        Ask::Abandon { depth } => Call::Abandon { depth: *depth },
        Ask::Run {
            inputs,
            room,
            budget,
        } => Call::Run {
            inputs: inputs.as_slice(),
            room: *room,
            budget: *budget,
        },
        Ask::WriteOut { room } => Call::WriteOut { room: *room },
        Ask::Facts { place } => Call::FactsAt(*place),
        Ask::Takes => Call::TakeCounts,
        Ask::Unit => Call::Unit,
    })
}
