//! Looks for traces of abandoned attempts: replays a script's calls, and replays them without each attempt that they abandon.
ghost use Rattle.std.specs.Prelude.{◌≡◌, ◌<◌, length, vec_len, IfOk, IfSome};

use crate::error::Error;
use crate::print::Shown;
use crate::script;
use crate::script::{Change, Entry, Look, Step};
use crate::source::{name_of, read_bytes, read_text};
use bytecode::fault::TooShort;
use std::alloc::{AllocError, Global};
use std::rt::Files;
use tokens::pick::PickName;
use workspace::events::{Call, Reply};
use workspace::workspace::replay::replay;

/// A call of a script and its line.
#[derive(Clone, Copy)]
struct Placed<'a> {
    line: usize,
    call: Call<'a>,
}

/// An abandoned attempt: where its open and its abandon stand among the calls.
#[derive(Clone, Copy)]
struct Cut {
    first: usize,
    last: usize,
}

/// Traces the script of this name, or that on standard input.
pub fn trace<'a>(
    rt: &(impl Files + Input + Print + AllocGlobal),
    file: Option<&'a str>,
) -> Result<(), Error<'a>> {
    let text = read_text(rt, file)?;
    trace_text(rt, name_of(file), text.as_str())
}

/// Traces the script `name`, which has this text.
fn trace_text<'a>(
    rt: &(impl Files + Print + AllocGlobal),
    name: &'a str,
    text: &str,
) -> Result<(), Error<'a>> {
    let entries = script::parse(rt.alloc(), text)?;
    let hands = hands(rt, name, entries.as_slice())?;
    let calls = calls(rt.alloc(), entries.as_slice(), hands.as_slice())?;
    print_traces(rt, calls.as_slice())?;
    Ok(())
}

/// The bytes that the lines put at hand, one after the other.
fn hands<'a>(
    rt: &(impl Files + AllocGlobal),
    name: &'a str,
    entries: &[Entry<'_>],
) -> Result<Vec<Vec<u8>>, Error<'a>> {
    let mut hands = Vec::new(rt.alloc());
    for entry in entries {
        match &entry.step {
            Step::Bytes(bytes) => hands.push(bytes.clone()?)?,
            Step::File(file) => hands.push(read_bytes(rt, name, entry.line, file)?)?,
            _ => {}
        }
    }
    Ok(hands)
}

/// The calls of a script, with the bytes that are at hand at each, none at first.
fn calls<'s>(
    heap: Global,
    entries: &'s [Entry<'_>],
    hands: &'s [Vec<u8>],
) -> Result<Vec<Placed<'s>>, AllocError> {
    let mut calls = Vec::new(heap);
    let mut hands = hands.iter();
    let mut hand: &[u8] = &[];
    for entry in entries {
        let line = entry.line;
        match &entry.step {
            Step::Bytes(_) | Step::File(_) => hand = hands
                .next()
                .map_or(hand, |next| next.as_slice()),
            Step::Change(change) => calls.push(Placed {
                line,
                call: changing(*change, hand),
            })?,
            Step::Look(look) => calls.push(Placed {
                line,
                call: looking(look),
            })?,
            _ => {}
        }
    }
    Ok(calls)
}

fn changing(change: Change, hand: &[u8]) -> Call<'_> {
    match change {
        Change::Load => Call::Load(hand),
        Change::Open => Call::Open,
        Change::Propose {
            depth,
            place,
            instr,
        } => Call::Propose {
            depth,
            place,
            instr,
        },
        Change::Tidy(depth) => Call::Tidy { depth },
        Change::Keep(depth) => Call::Keep { depth },
        Change::Abandon(depth) => Call::Abandon { depth },
    }
}

fn looking(look: &Look) -> Call<'_> {
    match look {
        Look::Run {
            budget,
            room,
            inputs,
        } => Call::Run {
            inputs: inputs.as_slice(),
            room: *room,
            budget: *budget,
        },
        Look::Write(room) => Call::WriteOut { room: *room },
        Look::Facts(place) => Call::FactsAt(*place),
        Look::Takes => Call::TakeCounts,
        Look::List => Call::Unit,
    }
}

/// What the calls answer on a new workspace, under a policy.
fn replies(heap: Global, calls: &[Placed<'_>], policy: PickName) -> Result<Vec<Reply>, AllocError>
    ensures { IfOk result (λ replies. vec_len replies ≡ length calls.now) }
{
    let calls: Vec<Call<'_>> = calls.iter().map(|placed| placed.call).collect(heap)?;
    let mut replies = vec![in heap; Reply::Changed; calls.len()]?;
    match replay(
        calls.as_slice(),
        &mut policy.policies(),
        replies.as_mut_slice(),
    ) {
        Ok(()) => Ok(replies),
        Err(TooShort) => unreachable!(),
    }
}

/// Prints for each abandoned attempt whether the later answers are alike without it.
fn print_traces<'a>(
    rt: &(impl Print + AllocGlobal),
    calls: &[Placed<'_>],
) -> Result<(), Error<'a>> {
    let replies = replies(rt.alloc(), calls, PickName::FirstIn)?;
    println!(rt; "{} calls", calls.len())?;
    for (last, placed) in calls.iter().enumerate() {
        if let Some(first) = opening(placed.call, &replies.as_slice()[..=last]) {
            print_trace(rt, calls, replies.as_slice(), Cut { first, last })?;
        }
    }
    Ok(())
}

/// Where the attempt was opened that the last of these replies says is abandoned, if that call is an accepted abandon.
fn opening(call: Call<'_>, replies: &[Reply]) -> Option<usize>
    ensures { IfSome result (λ first. first < length replies.now) }
{
    let (Call::Abandon { depth }, Some(Reply::Abandoned)) = (call, replies.last()) else {
        return None;
    };
    replies.iter().rposition(|reply| matches!(reply, Reply::Opened(opened) if *opened == depth))
}

/// Prints whether the later answers are alike where the calls of `cut` are not made, under the other policy.
fn print_trace<'a>(
    rt: &(impl Print + AllocGlobal),
    calls: &[Placed<'_>],
    replies: &[Reply],
    cut: Cut,
) -> Result<(), Error<'a>>
    requires { (cut.first < length calls.now) × (cut.last < length calls.now) }
{
    let others = without(rt.alloc(), calls, cut)?;
    let others = self::replies(rt.alloc(), others.as_slice(), PickName::FirstIn.other())?;
    print!(rt;
        "without lines {} to {}: ",
        calls[cut.first].line, calls[cut.last].line
    )?;
    for ((placed, reply), other) in calls
        .iter()
        .zip(replies.iter())
        .skip(cut.last + 1)
        .zip(others.iter().skip(cut.first))
    {
        if !are_alike(rt.alloc(), reply, other)? {
            println!(rt; "line {} answers otherwise", placed.line)?;
            return Ok(());
        }
    }
    println!(rt; "{} later answers, all alike", calls.len() - cut.last - 1)?;
    Ok(())
}

/// The calls but those of `cut`.
fn without<'s>(
    heap: Global,
    calls: &[Placed<'s>],
    cut: Cut,
) -> Result<Vec<Placed<'s>>, AllocError> {
    calls
        .iter()
        .enumerate()
        .filter(|(index, _)| *index < cut.first || cut.last < *index)
        .map(|(_, placed)| *placed)
        .collect(heap)
}

/// Whether two replies are printed alike, take counts aside.
fn are_alike(heap: Global, reply: &Reply, other: &Reply) -> Result<bool, AllocError> {
    if let (Reply::TakeCounts(_), Reply::TakeCounts(_)) = (reply, other) {
        return Ok(true);
    }
    let reply = format!(in heap; "{}", Shown(reply))?;
    let other = format!(in heap; "{}", Shown(other))?;
    Ok(reply.as_str() == other.as_str())
}
