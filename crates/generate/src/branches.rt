//! Statements with branches: each is opened, has other statements in it, and is closed.
use crate::draft::{Draft, Outer, Stores};
use crate::rows::{flag, local, number, plain, with_argument};
use crate::state::State;
use draws::random::Random;
use second::facts::Kind;
use second::operation::{DJMP, DUP, EQ, JF, JMP, LOAD, LT, NOT, POP, STORE, SUB, TALLEST};
use std::alloc::AllocError;

/// How many rows bring the stack to a height, at most.
const SETTLE: usize = 2;

/// How many rows push a condition, at most.
const CONDITION: usize = 4;

/// How many rows jump.
const JUMP: usize = 1;

/// How many rows are kept to close a branch.
const TO_MEET: usize = JUMP + SETTLE;

/// How many rows are kept to close a loop that counts a local down.
const TO_COUNT_LOCAL: usize = SETTLE + 8 + JUMP;

/// How many rows are kept to close a loop that counts the top down.
const TO_COUNT_TOP: usize = SETTLE + 6 + JUMP;

/// How many rows are kept to leave a loop at its head, and to go back there.
const TO_TEST_FIRST: usize = JUMP + SETTLE + JUMP;

/// How many rows are kept to close a loop by a condition at its end.
const TO_TEST_LAST: usize = SETTLE + CONDITION + JUMP;

/// How many rows are kept to close a loop that always goes on.
const TO_GO_ON: usize = SETTLE + JUMP;

/// How high the stack may be where a loop begins, so that the counting has room on it.
const HIGHEST_HEAD: usize = 5;

/// In what the stack is made like that of a state.
#[derive(Clone, Copy, PartialEq, Eq)]
enum Alike {
    InHeight,
    /// In height, and in the kinds that are known.
    InKinds,
}

/// How a loop goes back to its head.
#[derive(Clone, Copy)]
pub enum Back {
    /// Until a local is counted down.
    Local(u8),
    /// Until the top is counted down.
    Top,
    /// A condition at the head leaves it, by the jump at `exit`.
    While { exit: usize, after: State },
    /// A condition at the end goes on.
    Until,
    Always,
}

/// The part of a statement that is being written.
#[derive(Clone, Copy)]
pub enum Part {
    /// What is done where the flag at the branch is true.
    Then {
        branch: usize,
        before: State,
    },
    /// What is done where it is false. The jump at `leave` goes from the end of the other part behind this one.
    Else {
        leave: Option<usize>,
        then: State,
        before: State,
    },
    Loop {
        head: usize,
        before: State,
        back: Back,
    },
}

/// A statement that is not closed.
#[derive(Clone, Copy)]
pub struct Open {
    part: Part,
    outer: Outer,
}

/// Opens a branch on a flag.
pub fn open_if(draft: &mut Draft, random: &mut Random) -> Result<Option<Open>, AllocError> {
    if draft.room() <= TO_MEET + CONDITION {
        return Ok(None);
    }
    let outer = draft.enter(TO_MEET);
    draft.push_flag(random)?;
    let Some(branch) = branch_on_flag(draft)? else {
        draft.leave(&outer);
        return Ok(None);
    };
    let before = draft.state;
    draft.bounds = outer.bounds.around(before.height);
    let part = Part::Then { branch, before };
    Ok(Some(Open { part, outer }))
}

/// Branches on the top, where it is a flag that may be taken.
fn branch_on_flag(draft: &mut Draft) -> Result<Option<usize>, AllocError> {
    let may_take = draft.state.height > draft.bounds.floor;
    if !may_take || draft.state.below_top(0) != Some(Kind::Truth) {
        return Ok(None);
    }
    draft.branch(JF).map(Some)
}

/// Opens a loop.
pub fn open_loop(draft: &mut Draft, random: &mut Random) -> Result<Option<Open>, AllocError> {
    if draft.state.height > HIGHEST_HEAD {
        return Ok(None);
    }
    let room = draft.room();
    let outer = draft.enter(0);
    let opened = match random.below(10) {
        0..3 if room > TO_COUNT_LOCAL + 2 => open_counted(draft, random, &outer)?,
        3..5 if room > TO_COUNT_TOP + 1 => Some(open_counted_on_top(draft, random, &outer)?),
        5..7 if room > TO_TEST_FIRST + CONDITION => open_while(draft, random, &outer)?,
        7..9 if room > TO_TEST_LAST => {
            draft.keep_rows(&outer, TO_TEST_LAST);
            Some(open_plain(draft, random, &outer, Back::Until))
        }
        9 if room > TO_GO_ON => {
            draft.keep_rows(&outer, TO_GO_ON);
            Some(open_plain(draft, random, &outer, Back::Always))
        }
        _ => None,
    };
    if opened.is_none() {
        draft.leave(&outer);
    }
    Ok(opened)
}

/// How many turns a loop makes: few mostly.
fn turns(random: &mut Random) -> i32 {
    if random.chance(90) {
        random.below(5) as i32 + 1
    } else {
        random.number()
    }
}

fn open_counted(
    draft: &mut Draft,
    random: &mut Random,
    outer: &Outer,
) -> Result<Option<Open>, AllocError> {
    draft.keep_rows(outer, TO_COUNT_LOCAL);
    let counter = local(random, draft.locals);
    let store = with_argument(STORE, i32::from(counter));
    if !draft.add(number(0, turns(random)))? || !draft.add(store)? {
        return Ok(None);
    }
    draft.bounds.set_stores(usize::from(counter), Stores::Never);
    Ok(Some(open_plain(draft, random, outer, Back::Local(counter))))
}

fn open_counted_on_top(
    draft: &mut Draft,
    random: &mut Random,
    outer: &Outer,
) -> Result<Open, AllocError> {
    draft.keep_rows(outer, TO_COUNT_TOP);
    draft.add_kept(number(0, turns(random)))?;
    draft.bounds.floor = draft.state.height;
    Ok(open_plain(draft, random, outer, Back::Top))
}

fn open_while(
    draft: &mut Draft,
    random: &mut Random,
    outer: &Outer,
) -> Result<Option<Open>, AllocError> {
    draft.keep_rows(outer, TO_TEST_FIRST);
    let Open { part, .. } = open_plain(draft, random, outer, Back::Until);
    let Part::Loop { head, before, .. } = part else {
        return Ok(None);
    };
    draft.push_open_flag(random)?;
    let Some(exit) = branch_on_flag(draft)? else {
        return Ok(None);
    };
    let after = draft.state;
    let back = Back::While { exit, after };
    let part = Part::Loop { head, before, back };
    Ok(Some(Open {
        part,
        outer: *outer,
    }))
}

/// Opens a loop whose head is here.
fn open_plain(draft: &mut Draft, random: &mut Random, outer: &Outer, back: Back) -> Open {
    forget(draft, random);
    draft.bounds = draft.bounds.around(draft.state.height);
    let head = draft.place();
    let before = draft.state;
    Open {
        part: Part::Loop { head, before, back },
        outer: *outer,
    }
}

/// Forgets some kinds at the head of a loop, and has the loop keep the others.
fn forget(draft: &mut Draft, random: &mut Random) {
    for local in 0..usize::from(draft.locals) {
        if draft.bounds.stores(local) != Stores::Any {
            continue;
        }
        if random.chance(30) {
            draft.state.set_local(local, Kind::Unusable);
        } else if draft.state.local(local) != Kind::Unusable {
            draft.bounds.set_stores(local, Stores::SameKind);
        }
    }
    let top = draft.state.height.saturating_sub(1);
    if top >= draft.bounds.floor && random.chance(30) {
        draft.state.set_cell(top, Kind::Unusable);
    }
}

/// Closes the part that is being written; a branch may go on with another.
pub fn close(
    draft: &mut Draft,
    random: &mut Random,
    open: Open,
) -> Result<Option<Open>, AllocError> {
    let Open { part, outer } = open;
    match part {
        Part::Then { branch, before } if draft.room() > JUMP + SETTLE && random.chance(65) => {
            let part = turn_to_else(draft, random, branch, before)?;
            draft.keep_rows(&outer, SETTLE);
            return Ok(Some(Open { part, outer }));
        }
        Part::Then { branch, before } => meet(draft, random, Some(branch), &before, &before)?,
        Part::Else {
            leave,
            then,
            before,
        } => meet(draft, random, leave, &then, &before)?,
        Part::Loop { head, before, back } => {
            close_loop(draft, random, &outer, head, &before, back)?;
        }
    }
    draft.leave(&outer);
    Ok(None)
}

/// Ends the first part of a branch, and begins the second.
fn turn_to_else(
    draft: &mut Draft,
    random: &mut Random,
    branch: usize,
    before: State,
) -> Result<Part, AllocError> {
    let leave = if draft.state.reached {
        let operation = settle_for_jump(draft, random, &before, Alike::InHeight)?;
        Some(draft.branch(operation)?)
    } else {
        None
    };
    let then = draft.state;
    draft.lead_here(branch);
    draft.state = before;
    Ok(Part::Else {
        leave,
        then,
        before,
    })
}

/// Ends a branch where the other way, by the jump at `from` and with `other` known, comes too.
fn meet(
    draft: &mut Draft,
    random: &mut Random,
    from: Option<usize>,
    other: &State,
    before: &State,
) -> Result<(), AllocError> {
    if draft.state.reached {
        settle(draft, random, before, Alike::InHeight)?;
    }
    if let Some(from) = from {
        draft.lead_here(from);
    }
    draft.state = draft.state.joined(other);
    Ok(())
}

/// Goes back to the head of a loop.
fn close_loop(
    draft: &mut Draft,
    random: &mut Random,
    outer: &Outer,
    head: usize,
    before: &State,
    back: Back,
) -> Result<(), AllocError> {
    if draft.state.reached {
        match back {
            Back::Local(counter) => {
                settle(draft, random, before, Alike::InKinds)?;
                count_down(draft, random, counter)?;
                draft.jump_back(JF, head)?;
            }
            Back::Top => {
                settle(draft, random, before, Alike::InKinds)?;
                count_down_top(draft)?;
                draft.jump_back(JF, head)?;
                draft.add_kept(plain(POP))?;
            }
            Back::Until => {
                settle(draft, random, before, Alike::InKinds)?;
                condition(draft, random, outer)?;
                draft.jump_back(JF, head)?;
            }
            Back::While { .. } | Back::Always => {
                let operation = settle_for_jump(draft, random, before, Alike::InKinds)?;
                draft.jump_back(operation, head)?;
                draft.state.reached = false;
            }
        }
    }
    if let Back::While { exit, after } = back {
        draft.lead_here(exit);
        draft.state = after;
    }
    Ok(())
}

/// Pushes the flag that the loop goes on by, above what is there.
fn condition(draft: &mut Draft, random: &mut Random, outer: &Outer) -> Result<(), AllocError> {
    draft.bounds.floor = draft.state.height;
    draft.bounds.ceiling = TALLEST;
    draft.keep_rows(outer, JUMP);
    draft.push_open_flag(random)
}

/// Counts a local down, and pushes whether the loop is done.
fn count_down(draft: &mut Draft, random: &mut Random, counter: u8) -> Result<(), AllocError> {
    let counter = i32::from(counter);
    draft.add_kept(with_argument(LOAD, counter))?;
    draft.add_kept(number(0, 1))?;
    draft.add_kept(plain(SUB))?;
    draft.add_kept(with_argument(STORE, counter))?;
    if random.chance(50) {
        draft.add_kept(with_argument(LOAD, counter))?;
        draft.add_kept(number(0, 1))?;
        return draft.add_kept(plain(LT));
    }
    draft.add_kept(number(0, 0))?;
    draft.add_kept(with_argument(LOAD, counter))?;
    draft.add_kept(plain(LT))?;
    draft.add_kept(plain(NOT))
}

/// Counts the top down, and pushes whether the loop is done.
fn count_down_top(draft: &mut Draft) -> Result<(), AllocError> {
    draft.add_kept(number(0, 1))?;
    draft.add_kept(plain(SUB))?;
    draft.add_kept(plain(DUP))?;
    draft.add_kept(number(0, 0))?;
    draft.add_kept(plain(EQ))
}

/// Brings the stack to the height of a state, or one above it, with two rows at most, and answers the jump that then comes to that height.
fn settle_for_jump(
    draft: &mut Draft,
    random: &mut Random,
    to: &State,
    alike: Alike,
) -> Result<u8, AllocError> {
    let above = draft.state.height.checked_sub(to.height);
    if above == Some(1) && fits(draft, to, alike) {
        return Ok(DJMP);
    }
    settle(draft, random, to, alike)?;
    Ok(JMP)
}

/// Whether what lies at the top of a state is of its kind.
fn fits(draft: &Draft, to: &State, alike: Alike) -> bool {
    let top = to.height.saturating_sub(1);
    match to.cell(top) {
        Some(kind) if alike == Alike::InKinds && kind != Kind::Unusable => draft.state.cell(top)
            == Some(kind),
        _ => draft.state.height >= to.height,
    }
}

/// Brings the stack to the height of a state, and to its kinds where they must be the same. The bounds see to it that two rows do.
fn settle(
    draft: &mut Draft,
    random: &mut Random,
    to: &State,
    alike: Alike,
) -> Result<(), AllocError> {
    let goal = to.height;
    if fits(draft, to, alike) {
        for _ in goal..draft.state.height {
            draft.add_kept(plain(POP))?;
        }
        return Ok(());
    }
    let top = goal.saturating_sub(1);
    if draft.state.height > goal.saturating_add(1) {
        draft.add_kept(plain(POP))?;
    }
    let drops = u8::try_from(draft.state.height.saturating_sub(top)).unwrap_or(2);
    let row = match to.cell(top) {
        Some(Kind::Truth) => flag(drops, random.chance(50)),
        Some(Kind::Unusable) if random.chance(50) => flag(drops, random.chance(50)),
        _ => number(drops, random.number()),
    };
    draft.add_kept(row)
}
