//! Calls made one after the other on a workspace of their own.
ghost use Rattle.std.specs.Prelude.{◌≡◌, ◌≤◌, ◌<◌, pos, IfOk, MatchResult, map, length, drop};
ghost use Rattle.workspace.specs.Calls.{load, opens, propose, tidy, keep, abandon, run, write_out, facts_at, take_counts, unit_now};
ghost use Rattle.workspace.specs.Does.{Does};
ghost use Rattle.workspace.specs.Histories.{calls_of, KeptPromise};
ghost use Rattle.workspace.specs.Policies.{EmptyOrSame};
ghost use Rattle.workspace.specs.Replay.{blank, asked, told, history};
ghost use Rattle.workspace.specs.Stored.{model_of};

#[cfg(test)]
mod tests;

use super::{Attempt, Workspace};
use crate::events::{Call, Reply};
use crate::policies::Policies;
use bytecode::fault::TooShort;
use bytecode::instr::Instr;
use dataflow::policy::Policy;

/// Makes the calls of a list one after the other on a new workspace, and writes what each gives back.
pub fn replay<T: Policy, C: Policy, L: Policy>(
    calls: &[Call],
    policies: &mut Policies<T, C, L>,
    replies: &mut [Reply],
) -> Result<(), TooShort>
    ensures room { MatchResult result
        (λ done. length calls.now ≤ length replies.old)
        (λ refusal. (length replies.old < length calls.now) × (replies.new ≡ replies.old) × (policies.new ≡ policies.old)) }
    ensures made { IfOk result (λ done. calls_of (history calls.now replies.new) ≡ map asked calls.now) }
    ensures rest { drop (length calls.now) replies.new ≡ drop (length calls.now) replies.old }
    ensures promise { IfOk result (λ done. KeptPromise (history calls.now replies.new)) }
    ensures policies { EmptyOrSame T.pending C.pending L.pending policies.old policies.new }
{
    if replies.len() < calls.len() {
        return Err(TooShort);
    }
    let mut workspace = Workspace::new();
    for (i, call) in calls.iter().enumerate() {
        enter(&mut workspace, call, policies, &mut replies[i]);
    }
    Ok(())
}

/// Makes one call, and writes what it gives back.
fn enter<T: Policy, C: Policy, L: Policy>(
    workspace: &mut Workspace,
    call: &Call,
    policies: &mut Policies<T, C, L>,
    reply: &mut Reply,
)
    ensures does { Does (asked call.now) (model_of workspace.old) (told reply.new) (model_of workspace.new) }
    ensures policies { EmptyOrSame T.pending C.pending L.pending policies.old policies.new }
{
    *reply = perform(workspace, call, policies);
}

/// Makes one call.
fn perform<T: Policy, C: Policy, L: Policy>(
    workspace: &mut Workspace,
    call: &Call,
    policies: &mut Policies<T, C, L>,
) -> Reply
    ensures does { Does (asked call.now) (model_of workspace.old) (told result) (model_of workspace.new) }
    ensures policies { EmptyOrSame T.pending C.pending L.pending policies.old policies.new }
{
    match call {
        Call::Load(file) => load(workspace, file, policies),
        Call::Open => open(workspace),
        Call::Propose {
            depth,
            place,
            instr,
        } => propose(workspace, *depth, *place, *instr, policies),
        Call::Tidy { depth } => tidy(workspace, *depth, policies),
        Call::Keep { depth } => keep(workspace, *depth),
        Call::Abandon { depth } => abandon(workspace, *depth, policies),
        Call::Run {
            inputs,
            room,
            budget,
        } => run(workspace, inputs, *room, *budget),
        Call::WriteOut { room } => write_out(workspace, *room),
        Call::FactsAt(place) => facts_at(workspace, *place),
        Call::TakeCounts => take_counts(workspace),
        Call::Unit => unit(workspace),
    }
}

fn load<T: Policy, C: Policy, L: Policy>(
    workspace: &mut Workspace,
    file: &[u8],
    policies: &mut Policies<T, C, L>,
) -> Reply
    ensures does { Does (load file.now) (model_of workspace.old) (told result) (model_of workspace.new) }
    ensures policies { EmptyOrSame T.pending C.pending L.pending policies.old policies.new }
{
    match workspace.load(file, policies) {
        Ok(()) => Reply::Loaded,
        Err(fault) => Reply::NotLoaded(fault),
    }
}

fn open(workspace: &mut Workspace) -> Reply
    ensures { Does opens (model_of workspace.old) (told result) (model_of workspace.new) }
{
    match workspace.open() {
        Ok(Attempt { depth }) => Reply::Opened(depth),
        Err(refusal) => Reply::Refused(refusal),
    }
}

fn propose<T: Policy, C: Policy, L: Policy>(
    workspace: &mut Workspace,
    depth: u8,
    place: usize,
    instr: Instr,
    policies: &mut Policies<T, C, L>,
) -> Reply
    ensures does { Does (propose depth place instr) (model_of workspace.old) (told result) (model_of workspace.new) }
    ensures policies { EmptyOrSame T.pending C.pending L.pending policies.old policies.new }
{
    let attempt = Attempt { depth };
    let result = workspace.propose(&attempt, place, instr, policies);
    let Attempt { depth: _ } = attempt;
    match result {
        Ok(()) => Reply::Changed,
        Err(refusal) => Reply::Refused(refusal),
    }
}

fn tidy<T: Policy, C: Policy, L: Policy>(
    workspace: &mut Workspace,
    depth: u8,
    policies: &mut Policies<T, C, L>,
) -> Reply
    ensures does { Does (tidy depth) (model_of workspace.old) (told result) (model_of workspace.new) }
    ensures policies { EmptyOrSame T.pending C.pending L.pending policies.old policies.new }
{
    let attempt = Attempt { depth };
    let result = workspace.tidy(&attempt, policies);
    let Attempt { depth: _ } = attempt;
    match result {
        Ok(made) => Reply::Tidied(made),
        Err(refusal) => Reply::Refused(refusal),
    }
}

fn keep(workspace: &mut Workspace, depth: u8) -> Reply
    ensures { Does (keep depth) (model_of workspace.old) (told result) (model_of workspace.new) }
{
    match workspace.keep(Attempt { depth }) {
        Ok(()) => Reply::Kept,
        Err((refusal, Attempt { depth })) => Reply::Returned { refusal, depth },
    }
}

fn abandon<T: Policy, C: Policy, L: Policy>(
    workspace: &mut Workspace,
    depth: u8,
    policies: &mut Policies<T, C, L>,
) -> Reply
    ensures does { Does (abandon depth) (model_of workspace.old) (told result) (model_of workspace.new) }
    ensures policies { EmptyOrSame T.pending C.pending L.pending policies.old policies.new }
{
    match workspace.abandon(Attempt { depth }, policies) {
        Ok(()) => Reply::Abandoned,
        Err((refusal, Attempt { depth })) => Reply::Returned { refusal, depth },
    }
}

fn run(workspace: &Workspace, inputs: &[i32], room: usize, budget: u32) -> Reply
    ensures { Does (run inputs.now (blank 128 (pos 0) room) budget) (model_of workspace.now) (told result) (model_of workspace.now) }
{
    let mut outputs = [0; 128];
    let room = room.min(128);
    match workspace.run(inputs, &mut outputs[..room], budget) {
        Ok(answer) => Reply::Ran {
            answer,
            room,
            outputs,
        },
        Err(refusal) => Reply::NotRun {
            refusal,
            room,
            outputs,
        },
    }
}

fn write_out(workspace: &Workspace, room: usize) -> Reply
    ensures { Does (write_out (blank 774 0 room)) (model_of workspace.now) (told result) (model_of workspace.now) }
{
    let mut bytes = [0; 774];
    let room = room.min(774);
    match workspace.write_out(&mut bytes[..room]) {
        Ok(length) => Reply::Written {
            length,
            room,
            bytes,
        },
        Err(refusal) => Reply::NotWritten {
            refusal,
            room,
            bytes,
        },
    }
}

fn facts_at(workspace: &Workspace, place: usize) -> Reply
    ensures { Does (facts_at place) (model_of workspace.now) (told result) (model_of workspace.now) }
{
    match workspace.facts_at(place) {
        Ok(facts) => Reply::Facts(facts),
        Err(refusal) => Reply::Refused(refusal),
    }
}

fn take_counts(workspace: &Workspace) -> Reply
    ensures { Does take_counts (model_of workspace.now) (told result) (model_of workspace.now) }
{
    match workspace.take_counts() {
        Ok(takes) => Reply::TakeCounts(takes),
        Err(refusal) => Reply::Refused(refusal),
    }
}

fn unit(workspace: &Workspace) -> Reply
    ensures { Does unit_now (model_of workspace.now) (told result) (model_of workspace.now) }
{
    match workspace.unit() {
        Ok(unit) => Reply::Unit(*unit),
        Err(refusal) => Reply::Refused(refusal),
    }
}
