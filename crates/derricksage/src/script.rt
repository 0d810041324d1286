//! A script: a call a line, and lines that say what the calls are given.
use bytecode::instr::Instr;
use listings::fault::LineFault;
use listings::listing;
use listings::listing::{file_of, number, spelled, words_of};
use std::alloc::{AllocError, Global};
use tokens::pick::PickName;
use tokens::side::Side;

// As in a listing `heap` goes from call to call.

/// What begins a comment.
const COMMENT_MARK: char = '#';

/// What a line asks for.
#[derive(Drop)]
pub enum Step<'t> {
    /// The later calls go to this workspace.
    Workspace(Side),
    /// The later calls use this policy.
    Policy(PickName),
    /// These bytes are at hand.
    Bytes(Vec<u8>),
    /// The bytes of the file of this name are at hand.
    File(&'t str),
    Change(Change),
    Look(Look),
    /// Nothing: the line of this number, counted from 1, is none of a script.
    Bad(usize),
}

/// A call that may change the workspace. A token is named by its depth.
#[derive(Clone, Copy)]
pub enum Change {
    /// The bytes at hand are loaded.
    Load,
    Open,
    Propose {
        depth: u8,
        place: usize,
        instr: Instr,
    },
    Tidy(u8),
    Keep(u8),
    Abandon(u8),
}

/// A call that leaves the workspace as it is.
#[derive(Drop)]
pub enum Look {
    Run {
        budget: u32,
        room: usize,
        inputs: Vec<i32>,
    },
    /// Into a buffer of so many bytes.
    Write(usize),
    /// At a place.
    Facts(usize),
    Takes,
    List,
}

/// A command line, and what it asks for.
#[derive(Drop)]
pub struct Entry<'t> {
    /// Counted from 1.
    pub line: usize,
    pub text: &'t str,
    pub step: Step<'t>,
}

/// Why a line is none of a script.
#[derive(Drop)]
enum StepFault {
    NoStep,
    Memory(AllocError),
}

impl From<LineFault> for StepFault {
    fn from(fault: LineFault) -> StepFault {
        if matches!(&fault, LineFault::Memory(_)) {
            StepFault::Memory(AllocError)
        } else {
            StepFault::NoStep
        }
    }
}

impl From<AllocError> for StepFault {
    fn from(error: AllocError) -> StepFault {
        StepFault::Memory(error)
    }
}

/// The lines of a listing that stands in the script.
#[derive(Drop)]
struct Block<'t> {
    /// The line before the listing.
    line: usize,
    text: &'t str,
    listing: String,
}

/// The command lines of a script.
pub fn parse(heap: Global, text: &str) -> Result<Vec<Entry<'_>>, AllocError> {
    let mut entries = Vec::new(heap);
    let mut open = None;
    for (line, text) in (1usize..).zip(text.lines().map(before_comment)) {
        open = match (open, text) {
            (None, "") => None,
            (None, "unit") => Some(Block {
                line,
                text,
                listing: String::new(heap),
            }),
            (None, text) => {
                let step = match step_of(heap, text) {
                    Ok(step) => step,
                    Err(fault) => bad(fault, line)?,
                };
                entries.push(Entry { line, text, step })?;
                None
            }
            (Some(block), "end") => {
                entries.push(whole(heap, block)?)?;
                None
            }
            (Some(mut block), text) => {
                writeln!(block.listing, "{text}")?;
                Some(block)
            }
        };
    }
    // A listing without its end.
    if let Some(Block { line, text, .. }) = open {
        let step = Step::Bad(line);
        entries.push(Entry { line, text, step })?;
    }
    Ok(entries)
}

/// The part of a line that its comment leaves, without the white space around it.
fn before_comment(line: &str) -> &str {
    line.split_once(COMMENT_MARK)
        .map_or(line, |(code, _)| code)
        .trim_ascii()
}

/// A line that asks for nothing; only want of memory is an error.
fn bad<'t>(fault: StepFault, line: usize) -> Result<Step<'t>, AllocError> {
    match fault {
        StepFault::NoStep => Ok(Step::Bad(line)),
        StepFault::Memory(error) => Err(error),
    }
}

/// The bytes that a whole listing says.
fn whole(heap: Global, block: Block<'_>) -> Result<Entry<'_>, AllocError> {
    let Block {
        line,
        text,
        listing,
    } = block;
    let step = match listing::parse(heap, listing.as_str()) {
        Ok(listing) => Step::Bytes(file_of(heap, &listing)?),
        Err(fault) => bad(
            StepFault::from(fault.fault),
            line.saturating_add(fault.line),
        )?,
    };
    Ok(Entry { line, text, step })
}

/// What a line asks for.
fn step_of(heap: Global, text: &str) -> Result<Step<'_>, StepFault> {
    let words = words_of(heap, text)?;
    let [name, operands @ ..] = words.as_slice() else {
        return Err(StepFault::NoStep);
    };
    match (*name, operands) {
        ("workspace", [side]) => Ok(Step::Workspace(Side::of(side).ok_or(StepFault::NoStep)?)),
        ("policy", [name]) => Ok(Step::Policy(PickName::of(name).ok_or(StepFault::NoStep)?)),
        ("bytes", digits) => Ok(Step::Bytes(bytes_of(heap, digits)?)),
        ("file", [name]) => Ok(Step::File(name)),
        ("run" | "write" | "facts" | "takes" | "list", operands) => {
            Ok(Step::Look(look_of(heap, name, operands)?))
        }
        (name, operands) => Ok(Step::Change(change_of(heap, name, operands)?)),
    }
}

/// The call that leaves the workspace as it is.
fn look_of(heap: Global, name: &str, operands: &[&str]) -> Result<Look, StepFault> {
    match (name, operands) {
        ("run", [budget, room, inputs @ ..]) => Ok(Look::Run {
            budget: number(heap, budget)?,
            room: number(heap, room)?,
            inputs: inputs
                .iter()
                .map(|input| number(heap, input))
                .try_collect(heap)?,
        }),
        ("write", [room]) => Ok(Look::Write(number(heap, room)?)),
        ("facts", [place]) => Ok(Look::Facts(number(heap, place)?)),
        ("takes", []) => Ok(Look::Takes),
        ("list", []) => Ok(Look::List),
        _ => Err(StepFault::NoStep),
    }
}

/// The call that may change the workspace.
fn change_of(heap: Global, name: &str, operands: &[&str]) -> Result<Change, StepFault> {
    match (name, operands) {
        ("load", []) => Ok(Change::Load),
        ("open", []) => Ok(Change::Open),
        ("propose", [depth, place, instr @ ..]) => Ok(Change::Propose {
            depth: number(heap, depth)?,
            place: number(heap, place)?,
            instr: Instr::try_from(spelled(heap, instr)?).map_err(|_| StepFault::NoStep)?,
        }),
        ("tidy", [depth]) => Ok(Change::Tidy(number(heap, depth)?)),
        ("keep", [depth]) => Ok(Change::Keep(number(heap, depth)?)),
        ("abandon", [depth]) => Ok(Change::Abandon(number(heap, depth)?)),
        _ => Err(StepFault::NoStep),
    }
}

/// The bytes of two hex digits each, in words of any length.
fn bytes_of(heap: Global, words: &[&str]) -> Result<Vec<u8>, StepFault> {
    let mut bytes = Vec::new(heap);
    let mut high = None;
    for letter in words.iter().flat_map(|word| word.chars()) {
        let digit = digit(letter).ok_or(StepFault::NoStep)?;
        high = match high {
            None => Some(digit),
            Some(high) => {
                bytes.push(high << 4 | digit).map_err(AllocError::from)?;
                None
            }
        };
    }
    match high {
        None => Ok(bytes),
        Some(_) => Err(StepFault::NoStep),
    }
}

/// The number of a hex digit.
fn digit(letter: char) -> Option<u8> {
    letter.to_digit(16).map(|digit| digit as u8)
}
