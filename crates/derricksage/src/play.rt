//! Plays a script: makes its calls, and prints each line with its answer.
use crate::answer::Answer;
use crate::denied::Denied;
use crate::error::Error;
use crate::script;
use crate::script::{Change, Entry, Look, Step};
use crate::source::{name_of, read_bytes, read_text};
use std::alloc::Global;
use std::rt::Files;
use tokens::pick::{PickName, Picks};
use tokens::side::Side;
use tokens::spend::Spend;
use tokens::table::Table;
use workspace::workspace::Workspace;

/// What the next call of a script is given.
#[derive(Drop)]
struct Hand {
    side: Side,
    picks: Picks,
    bytes: Vec<u8>,
}

/// Plays the script of this name, or that on standard input.
pub fn play<'a>(
    rt: &(impl Files + Input + Print + AllocGlobal),
    file: Option<&'a str>,
) -> Result<(), Error<'a>> {
    let text = read_text(rt, file)?;
    play_text(rt, name_of(file), text.as_str())
}

/// Plays the script `name`, which has this text.
fn play_text<'a>(
    rt: &(impl Files + Print + AllocGlobal),
    name: &'a str,
    text: &str,
) -> Result<(), Error<'a>> {
    let entries = script::parse(rt.alloc(), text)?;
    let mut hand = Hand {
        side: Side::Zero,
        picks: PickName::FirstIn.policies(),
        bytes: Vec::new(rt.alloc()),
    };
    let mut table = Table::new(rt.alloc());
    let played = play_all(rt, name, entries.as_slice(), &mut table, &mut hand);
    table.clear(&mut hand.picks);
    played
}

/// Plays the lines, and then abandons each unspent token, the latest first, in the workspace that answered it.
fn play_all<'a>(
    rt: &(impl Files + Print + AllocGlobal),
    name: &'a str,
    entries: &[Entry<'_>],
    table: &mut Table,
    hand: &mut Hand,
) -> Result<(), Error<'a>> {
    for entry in entries {
        println!(rt; "> {}", entry.text)?;
        play_line(rt, name, entry, table, hand)?;
    }
    for index in (0..table.unspent()).rev() {
        if let Some(depth) = table.depth_at(index) {
            println!(rt; "> abandon {depth}")?;
            match table.abandon_at(index, &mut hand.picks) {
                Ok(()) => println!(rt; "{}", Answer::Abandoned)?,
                // Its attempt was ended with another token.
                Err(_) => println!(rt; "unspent token")?,
            }
        }
    }
    Ok(())
}

/// Does what a line asks for, and prints the answer.
fn play_line<'a>(
    rt: &(impl Files + Print + AllocGlobal),
    name: &'a str,
    entry: &Entry<'_>,
    table: &mut Table,
    hand: &mut Hand,
) -> Result<(), Error<'a>> {
    if let Step::File(file) = entry.step {
        hand.bytes = read_bytes(rt, name, entry.line, file)?;
    }
    match answer(rt.alloc(), &entry.step, table, hand) {
        Ok(answer) => println!(rt; "{answer}")?,
        Err(Denied::Memory(error)) => return Err(Error::Memory(error)),
        Err(denied) => println!(rt; "{denied}")?,
    }
    Ok(())
}

/// What a line answers.
fn answer<'t>(
    heap: Global,
    step: &Step<'_>,
    table: &'t mut Table,
    hand: &mut Hand,
) -> Result<Answer<'t>, Denied> {
    match step {
        Step::Workspace(side) => {
            hand.side = *side;
            Ok(Answer::Workspace(*side))
        }
        Step::Policy(name) => {
            hand.picks = name.policies();
            Ok(Answer::Policy(*name))
        }
        Step::Bytes(bytes) => {
            hand.bytes = bytes.clone()?;
            Ok(Answer::Bytes(bytes.len()))
        }
        // They were read before.
        Step::File(_) => Ok(Answer::Bytes(hand.bytes.len())),
        Step::Change(call) => change(*call, table, hand),
        Step::Look(call) => look(heap, call, table.space(hand.side)),
        Step::Bad(line) => Err(Denied::BadLine(*line)),
    }
}

/// What a call answers that may change the workspace.
fn change(call: Change, table: &mut Table, hand: &mut Hand) -> Result<Answer<'static>, Denied> {
    let Hand { side, picks, bytes } = hand;
    let side = *side;
    match call {
        Change::Load => {
            table.load(side, bytes.as_slice(), picks)?;
            Ok(Answer::Loaded)
        }
        Change::Open => Ok(Answer::Opened(table.open(side)?)),
        Change::Propose {
            depth,
            place,
            instr,
        } => {
            table.propose(side, depth, place, instr, picks)?;
            Ok(Answer::Changed)
        }
        Change::Tidy(depth) => Ok(Answer::Tidied(table.tidy(side, depth, picks)?)),
        Change::Keep(depth) => {
            table.spend(side, depth, Spend::Keep, picks)?;
            Ok(Answer::Kept)
        }
        Change::Abandon(depth) => {
            table.spend(side, depth, Spend::Abandon, picks)?;
            Ok(Answer::Abandoned)
        }
    }
}

/// What a call answers that leaves the workspace as it is.
fn look<'t>(heap: Global, call: &Look, space: &'t Workspace) -> Result<Answer<'t>, Denied> {
    match call {
        Look::Run {
            budget,
            room,
            inputs,
        } => {
            let mut outputs = vec![in heap; 0i32; *room]?;
            let answer = space.run(inputs.as_slice(), outputs.as_mut_slice(), *budget)?;
            outputs.truncate(answer.written);
            Ok(Answer::Ran { answer, outputs })
        }
        Look::Write(room) => {
            let mut bytes = vec![in heap; 0u8; *room]?;
            let length = space.write_out(bytes.as_mut_slice())?;
            bytes.truncate(length);
            Ok(Answer::Wrote(bytes))
        }
        Look::Facts(place) => Ok(Answer::Facts(space.facts_at(*place)?)),
        Look::Takes => Ok(Answer::Takes(space.take_counts()?)),
        Look::List => Ok(Answer::List(space.unit()?)),
    }
}
