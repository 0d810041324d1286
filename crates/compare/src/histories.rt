//! Compares what the two sides say to the same list of calls, and what the library says where an abandoned attempt is cut out of it.
use crate::sides::{call_of, front, leaves_the_rest, say_of};
use crate::tally::Tally;
use bytecode::fault::TooShort;
use draws::random::Random;
use generate::calls as asks_about;
use picks::pick::{Picks, any_policies};
use second::desk::{Ask, Desk, Say};
use std::alloc::{AllocError, Global};
use workspace::events::{Call, Reply};
use workspace::workspace::replay::replay;

/// An abandoned attempt: where its open and its abandon stand among the calls.
#[derive(Clone, Copy)]
struct Cut {
    first: usize,
    last: usize,
}

impl Cut {
    fn leaves(self, index: usize) -> bool {
        index < self.first || self.last < index
    }
}

/// Compares a list of calls about a file.
pub fn compare_history(
    heap: Global,
    random: &mut Random,
    file: &[u8],
    tally: &mut Tally,
) -> Result<(), AllocError> {
    let asks = list_of_calls(heap, random, file)?;
    let asks = asks.as_slice();
    let says = library_says(heap, asks, &mut any_policies(random), tally)?;
    let says = says.as_slice();
    tally.counts.history();
    compare_with_desk(heap, asks, says, tally)?;
    for last in 0..asks.len() {
        if let Some(first) = opening(asks, says, last) {
            let cut = Cut { first, last };
            compare_cut(heap, asks, says, cut, &mut any_policies(random), tally)?;
        }
    }
    Ok(())
}

/// The calls that the library can be asked, and at the end for the held unit.
fn list_of_calls(heap: Global, random: &mut Random, file: &[u8]) -> Result<Vec<Ask>, AllocError> {
    let mut asks = asks_about(heap, random, file)?;
    asks.retain(|ask| call_of(ask).is_some());
    asks.push(Ask::Unit)?;
    Ok(asks)
}

/// What the library answers to the calls on a new workspace.
fn library_says(
    heap: Global,
    asks: &[Ask],
    picks: &mut Picks,
    tally: &mut Tally,
) -> Result<Vec<Say>, AllocError> {
    let calls: Vec<Call<'_>> = asks.iter().filter_map(call_of).collect(heap)?;
    let replies = replies(heap, calls.as_slice(), picks)?;
    let mut says = Vec::new(heap);
    for (index, (call, reply)) in calls.iter().zip(replies.iter()).enumerate() {
        tally.compare(
            heap,
            format_args!("whether call {index} of {asks:?} keeps what it was lent"),
            &leaves_the_rest(call, reply),
            &true,
        )?;
        says.push(say_of(heap, reply)?)?;
    }
    Ok(says)
}

fn replies(heap: Global, calls: &[Call<'_>], picks: &mut Picks) -> Result<Vec<Reply>, AllocError> {
    let mut replies = vec![in heap; Reply::Changed; calls.len()]?;
    match replay(calls, picks, replies.as_mut_slice()) {
        Ok(()) => Ok(replies),
        Err(TooShort) => unreachable!(),
    }
}

/// Compares the answers with those of the second side's workspace, up to the first that differs.
fn compare_with_desk(
    heap: Global,
    asks: &[Ask],
    says: &[Say],
    tally: &mut Tally,
) -> Result<(), AllocError> {
    let mut desk = Desk::new(heap);
    for (index, (ask, say)) in asks.iter().zip(says.iter()).enumerate() {
        let other = desk.ask(heap, ask)?;
        tally.counts.call(ask, say);
        if *say != other {
            let made = front(asks, index.saturating_add(1));
            return tally.compare(heap, format_args!("the last call of {made:?}"), say, &other);
        }
    }
    Ok(())
}

/// Where the attempt was opened that the call at `last` abandons, if it is an accepted abandon.
fn opening(asks: &[Ask], says: &[Say], last: usize) -> Option<usize> {
    let (Some(Ask::Abandon { depth }), Some(Say::Abandoned)) = (asks.get(last), says.get(last))
    else {
        return None;
    };
    says.iter().take(last).rposition(|say| matches!(say, Say::Opened(opened) if opened == depth))
}

/// Compares the answers that are left where an attempt is cut out with those to the shorter list, up to the first that differs.
fn compare_cut(
    heap: Global,
    asks: &[Ask],
    says: &[Say],
    cut: Cut,
    picks: &mut Picks,
    tally: &mut Tally,
) -> Result<(), AllocError> {
    let shorter = without(heap, asks, cut)?;
    let others = library_says(heap, shorter.as_slice(), picks, tally)?;
    tally.counts.cut();
    let left = says
        .iter()
        .enumerate()
        .filter(|(index, _)| cut.leaves(*index));
    for ((index, say), other) in left.zip(others.iter()) {
        if say != other {
            let Cut { first, last } = cut;
            let made = front(asks, index.saturating_add(1));
            return tally.compare(
                heap,
                format_args!("without calls {first} to {last}, the last call of {made:?}"),
                other,
                say,
            );
        }
    }
    Ok(())
}

/// The calls but those of an attempt.
fn without(heap: Global, asks: &[Ask], cut: Cut) -> Result<Vec<Ask>, AllocError> {
    let mut left = Vec::new(heap);
    for (index, ask) in asks.iter().enumerate() {
        if cut.leaves(index) {
            left.push(ask.clone()?)?;
        }
    }
    Ok(left)
}
