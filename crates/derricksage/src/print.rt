//! How units and runs are printed.
ghost use Rattle.std.specs.Prelude.{◌<◌};

use crate::answer::Answer;
use crate::known::Known;
use bytecode::fault::ReadFault;
use bytecode::instr::Instr;
use bytecode::jump::target;
use bytecode::unit::Unit;
use bytecode::word::Word;
use facts::live::LiveSet;
use listings::mnemonic::{MNEMONICS, Mnemonic, Operands};
use machine::answer::Answer as RunAnswer;
use rewrite::yields::lowest_rule;
use std::fmt;
use workspace::events::Reply;
use workspace::refusal::{LoadFault, Refusal};
use workspace::shown::Facts;

/// A unit as a listing, with what is known at each place.
#[derive(Clone, Copy)]
pub struct UnitListing<'a> {
    pub unit: &'a Unit,
    pub known: &'a Known,
}

/// An instruction as a line of a listing of `len` instructions.
#[derive(Clone, Copy)]
struct Line {
    place: usize,
    instr: Instr,
    len: usize,
}

/// An instruction as it is written, without its place.
#[derive(Clone, Copy)]
struct InstrText {
    instr: Instr,
}

/// What is known at a place, and the rule that applies there with what it makes of the instruction, as lines of comments.
#[derive(Clone, Copy)]
struct Remarks<'a> {
    known: &'a Known,
    place: usize,
    instr: Instr,
    ghost inside: { place < 128 },
}

/// How a run ended, and the outputs that it wrote.
#[derive(Clone, Copy)]
pub struct RunLine<'a> {
    pub answer: &'a RunAnswer,
    pub outputs: &'a [i32],
}

/// A unit as a listing.
#[derive(Clone, Copy)]
struct Code<'a>(&'a Unit);

/// Bytes as hex digits.
#[derive(Clone, Copy)]
struct Bytes<'a>(&'a [u8]);

/// The facts at a place.
#[derive(Clone, Copy)]
struct FactLines<'a>(&'a Facts);

/// What a replayed call gives back, with as much of a buffer as it wrote.
#[derive(Clone, Copy)]
pub struct Shown<'a>(pub &'a Reply);

/// Why a file is not loaded.
#[derive(Clone, Copy)]
pub struct NotLoaded(pub LoadFault);

/// Why a call is refused.
#[derive(Clone, Copy)]
pub struct Refused(pub Refusal);

impl fmt::Display for UnitListing<'_> {
    fn fmt<W: fmt::Write>(&self, f: &mut fmt::Formatter<W>) -> fmt::Result {
        let unit = self.unit;
        writeln!(f, "locals {}", unit.locals)?;
        for (place, &instr) in unit.instructions().iter().enumerate() {
            let line = Line {
                place,
                instr,
                len: unit.len,
            };
            let remarks = Remarks {
                known: self.known,
                place,
                instr,
            };
            writeln!(f, "{line}")?;
            write!(f, "{remarks}")?;
        }
        Ok(())
    }
}

impl fmt::Display for InstrText {
    fn fmt<W: fmt::Write>(&self, f: &mut fmt::Formatter<W>) -> fmt::Result {
        let Word { op, drops, arg } = Word::from(self.instr);
        let Mnemonic { name, operands } = MNEMONICS[usize::from(op)];
        f.write_str(name)?;
        match operands {
            Operands::None => Ok(()),
            Operands::DropsAndArgument => write!(f, " {drops} {arg}"),
            Operands::Local | Operands::Displacement => write!(f, " {arg}"),
        }
    }
}

impl fmt::Display for Line {
    fn fmt<W: fmt::Write>(&self, f: &mut fmt::Formatter<W>) -> fmt::Result {
        let text = InstrText { instr: self.instr };
        write!(f, "{}: {text}", self.place)?;
        let Word { op, arg, .. } = Word::from(self.instr);
        let to = match MNEMONICS[usize::from(op)].operands {
            Operands::Displacement => target(self.place, arg, self.len),
            _ => None,
        };
        match to {
            Some(to) => write!(f, " ; to {to}"),
            None => Ok(()),
        }
    }
}

impl fmt::Display for Remarks<'_> {
    fn fmt<W: fmt::Write>(&self, f: &mut fmt::Formatter<W>) -> fmt::Result {
        let Known {
            types,
            constants,
            live,
        } = self.known;
        let live = live[self.place];
        writeln!(f, ";  types {}", types[self.place])?;
        writeln!(f, ";  constants {}", constants[self.place])?;
        if live.same(LiveSet::new()) {
            writeln!(f, ";  live")?;
        } else {
            writeln!(f, ";  live {live}")?;
        }
        match lowest_rule(self.instr, &constants[self.place], live) {
            Some((rule, instr)) => {
                let text = InstrText { instr };
                writeln!(f, ";  rule {} {text}", rule.number())
            }
            None => Ok(()),
        }
    }
}

impl fmt::Display for RunLine<'_> {
    fn fmt<W: fmt::Write>(&self, f: &mut fmt::Formatter<W>) -> fmt::Result {
        let RunAnswer {
            ending,
            place,
            steps,
            used,
            ..
        } = *self.answer;
        write!(
            f,
            "{ending} place {place} steps {steps} inputs {used} outputs"
        )?;
        for output in self.outputs {
            write!(f, " {output}")?;
        }
        Ok(())
    }
}

impl fmt::Display for NotLoaded {
    fn fmt<W: fmt::Write>(&self, f: &mut fmt::Formatter<W>) -> fmt::Result {
        match self.0 {
            LoadFault::AttemptOpen => write!(f, "refused {} place 0", self.0.number()),
            LoadFault::File(fault) => write!(f, "{}", ReadFault::File(fault)),
            LoadFault::Unit(fault) => write!(f, "{}", ReadFault::Unit(fault)),
            LoadFault::Verifier(fault) => write!(f, "{fault}"),
        }
    }
}

impl fmt::Display for Refused {
    fn fmt<W: fmt::Write>(&self, f: &mut fmt::Formatter<W>) -> fmt::Result {
        write!(f, "refused {} place 0", self.0.number())
    }
}

/// The instructions of a unit, a line each, and no line end after the last.
impl fmt::Display for Code<'_> {
    fn fmt<W: fmt::Write>(&self, f: &mut fmt::Formatter<W>) -> fmt::Result {
        let unit = self.0;
        write!(f, "locals {}", unit.locals)?;
        for (place, &instr) in unit.instructions().iter().enumerate() {
            let line = Line {
                place,
                instr,
                len: unit.len,
            };
            write!(f, "\n{line}")?;
        }
        Ok(())
    }
}

/// Each byte with a space before it.
impl fmt::Display for Bytes<'_> {
    fn fmt<W: fmt::Write>(&self, f: &mut fmt::Formatter<W>) -> fmt::Result {
        for byte in self.0 {
            write!(f, " {byte:02x}")?;
        }
        Ok(())
    }
}

/// What is known before a place, and the locals that are live after it, as three lines.
impl fmt::Display for FactLines<'_> {
    fn fmt<W: fmt::Write>(&self, f: &mut fmt::Formatter<W>) -> fmt::Result {
        let Facts {
            types,
            constants,
            live,
        } = self.0;
        write!(f, "types {types}\nconstants {constants}\nlive")?;
        if !live.same(LiveSet::new()) {
            write!(f, " {live}")?;
        }
        Ok(())
    }
}

impl fmt::Display for Answer<'_> {
    fn fmt<W: fmt::Write>(&self, f: &mut fmt::Formatter<W>) -> fmt::Result {
        match self {
            Answer::Workspace(side) => write!(f, "workspace {side}"),
            Answer::Policy(name) => write!(f, "policy {name}"),
            Answer::Bytes(count) => write!(f, "{count} bytes"),
            Answer::Loaded => f.write_str("loaded"),
            Answer::Opened(depth) => write!(f, "opened {depth}"),
            Answer::Changed => f.write_str("changed"),
            Answer::Tidied(count) => write!(f, "tidied {count}"),
            Answer::Kept => f.write_str("kept"),
            Answer::Abandoned => f.write_str("abandoned"),
            Answer::Ran { answer, outputs } => {
                let outputs = outputs.as_slice();
                write!(f, "{}", RunLine { answer, outputs })
            }
            Answer::Wrote(bytes) => write!(f, "wrote {}:{}", bytes.len(), Bytes(bytes.as_slice())),
            Answer::Facts(facts) => write!(f, "{}", FactLines(facts)),
            Answer::Takes(counts) => write!(
                f,
                "takes {} {} {}",
                counts.types, counts.constants, counts.lives
            ),
            Answer::List(unit) => write!(f, "{}", Code(unit)),
        }
    }
}

impl fmt::Display for Shown<'_> {
    fn fmt<W: fmt::Write>(&self, f: &mut fmt::Formatter<W>) -> fmt::Result {
        match self.0 {
            Reply::Loaded => write!(f, "{}", Answer::Loaded),
            Reply::Opened(depth) => write!(f, "{}", Answer::Opened(*depth)),
            Reply::Changed => write!(f, "{}", Answer::Changed),
            Reply::Tidied(count) => write!(f, "{}", Answer::Tidied(*count)),
            Reply::Kept => write!(f, "{}", Answer::Kept),
            Reply::Abandoned => write!(f, "{}", Answer::Abandoned),
            Reply::Ran {
                answer,
                outputs,
                ..
            } => {
                let outputs = &outputs[..answer.written.min(128)];
                write!(f, "{}", RunLine { answer, outputs })
            }
            Reply::Written { length, bytes, .. } => {
                write!(f, "wrote {length}:{}", Bytes(&bytes[..(*length).min(774)]))
            }
            Reply::Facts(facts) => write!(f, "{}", FactLines(facts)),
            Reply::TakeCounts(counts) => write!(f, "{}", Answer::Takes(*counts)),
            Reply::Unit(unit) => write!(f, "{}", Code(unit)),
            Reply::NotLoaded(fault) => write!(f, "{}", NotLoaded(*fault)),
            Reply::Refused(refusal)
            | Reply::Returned { refusal, .. }
            | Reply::NotRun { refusal, .. }
            | Reply::NotWritten { refusal, .. } => write!(f, "{}", Refused(*refusal)),
        }
    }
}
