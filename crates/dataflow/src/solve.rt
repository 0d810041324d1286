//! The solver, one text for every analysis and every pick policy.
ghost use Rattle.std.specs.Prelude.{◌≡◌, ◌≢◌, ℕ, ◌<◌, ◌≤◌, false, length, IsTrue, MatchResult, slice_index_or, slice_set};
ghost use Rattle.dataflow.specs.Takes.{at, Spreads, Seeded, AllPending, Carries, SamePast, AllValid, Solved};

use crate::analysis::Analysis;
use crate::fault::SliceTooShort;
use crate::policy::Policy;

/// Writes the least solution into the first entries of `facts`, and answers how many takes it took.
pub fn solve<A: Analysis, P: Policy>(
    code: &A::Code,
    policy: &mut P,
    facts: &mut [A::Fact],
) -> Result<usize, SliceTooShort>
    ensures { MatchResult result
        (λ count. Solved (A.valid code.now) (A.meaning code.now)
        facts.old facts.new (P.pending policy.new) count)
        (λ _. (length facts.old < (A.meaning code.now).nodes)
        × (facts.new ≡ facts.old)
        × (policy.new ≡ policy.old)) }
{
    if facts.len() < A::nodes(code) {
        return Err(SliceTooShort);
    }
    start::<A, P>(code, policy, facts);
    let mut takes = 0;
    while let Some(node) = policy.take() {
        spread::<A, P>(code, policy, facts, node);
        takes += 1;
    }
    Ok(takes)
}

/// Writes the seeds and makes every node pending, in rising order.
fn start<A: Analysis, P: Policy>(code: &A::Code, policy: &mut P, facts: &mut [A::Fact])
    requires { (A.meaning code.now).nodes ≤ length facts.old }
    ensures seeded { Seeded (A.meaning code.now) (at (A.meaning code.now) facts.new) }
    ensures pending { AllPending (A.meaning code.now) (P.pending policy.new) }
    ensures past { SamePast (A.meaning code.now) facts.old facts.new }
{
    // Apart from the policy's work, seeds that are alike are written many at a time.
    for node in 0..A::nodes(code) {
        facts[node] = A::seed(code, node);
    }
    policy.fill(A::nodes(code));
}

/// Carries the fact that `node` has along each edge out of it.
#[inline(always)]
fn spread<A: Analysis, P: Policy>(
    code: &A::Code,
    policy: &mut P,
    facts: &mut [A::Fact],
    node: usize,
)
    requires room { (A.meaning code.now).nodes ≤ length facts.old }
    requires node { node < (A.meaning code.now).nodes }
    requires valid { AllValid (A.valid code.now) (A.meaning code.now) facts.old }
    ensures spread { Spreads (A.meaning code.now) node
        (at (A.meaning code.now) facts.old) (P.pending policy.old)
        (at (A.meaning code.now) facts.new) (P.pending policy.new) }
    ensures past { SamePast (A.meaning code.now) facts.old facts.new }
{
    let Some(edge) = A::first_edge(code, node) else {
        return;
    };
    match A::next_edge(code, edge) {
        // Most nodes have one edge, and then the fact is not needed any more.
        None => carry_out::<A, P>(code, policy, facts, edge),
        Some(_) => spread_copy::<A, P>(code, policy, facts, node),
    }
}

/// As `spread`, with a copy of the fact: an edge back to the node may change it before the others are followed.
fn spread_copy<A: Analysis, P: Policy>(
    code: &A::Code,
    policy: &mut P,
    facts: &mut [A::Fact],
    node: usize,
)
    requires room { (A.meaning code.now).nodes ≤ length facts.old }
    requires node { node < (A.meaning code.now).nodes }
    requires valid { AllValid (A.valid code.now) (A.meaning code.now) facts.old }
    ensures spread { Spreads (A.meaning code.now) node
        (at (A.meaning code.now) facts.old) (P.pending policy.old)
        (at (A.meaning code.now) facts.new) (P.pending policy.new) }
    ensures past { SamePast (A.meaning code.now) facts.old facts.new }
{
    let fact = facts[node];
    let mut out = A::first_edge(code, node);
    while let Some(edge) = out {
        carry_along::<A, P>(code, policy, facts, edge, &fact);
        out = A::next_edge(code, edge);
    }
}

/// Joins what `edge` carries of `fact` into the node that it goes to, which is pending if that
/// changed its fact.
#[inline(always)]
fn carry_along<A: Analysis, P: Policy>(
    code: &A::Code,
    policy: &mut P,
    facts: &mut [A::Fact],
    edge: usize,
    fact: &A::Fact,
)
    requires room { (A.meaning code.now).nodes ≤ length facts.old }
    requires edge { edge < (A.meaning code.now).edges }
    requires fact { A.valid code.now fact.now }
    requires valid { AllValid (A.valid code.now) (A.meaning code.now) facts.old }
    ensures { Carries (A.meaning code.now) edge fact.now
        facts.old (P.pending policy.old)
        facts.new (P.pending policy.new) }
{
    let to = A::edge(code, edge).1;
    if join_carried::<A>(code, edge, fact, &mut facts[to]) {
        policy.add(to);
    }
}

/// As `carry_along`, of the fact at the node that `edge` comes from.
#[inline(always)]
fn carry_copy<A: Analysis, P: Policy>(
    code: &A::Code,
    policy: &mut P,
    facts: &mut [A::Fact],
    edge: usize,
)
    requires room { (A.meaning code.now).nodes ≤ length facts.old }
    requires edge { edge < (A.meaning code.now).edges }
    requires valid { AllValid (A.valid code.now) (A.meaning code.now) facts.old }
    ensures { Carries (A.meaning code.now) edge (at (A.meaning code.now) facts.old ((A.meaning code.now).from edge))
        facts.old (P.pending policy.old)
        facts.new (P.pending policy.new) }
{
    let fact = facts[A::edge(code, edge).0];
    carry_along::<A, P>(code, policy, facts, edge, &fact);
}

/// As `carry_copy`, and faster where the node that `edge` goes to has the least fact.
#[inline(always)]
fn carry_out<A: Analysis, P: Policy>(
    code: &A::Code,
    policy: &mut P,
    facts: &mut [A::Fact],
    edge: usize,
)
    requires room { (A.meaning code.now).nodes ≤ length facts.old }
    requires edge { edge < (A.meaning code.now).edges }
    requires valid { AllValid (A.valid code.now) (A.meaning code.now) facts.old }
    ensures { Carries (A.meaning code.now) edge (at (A.meaning code.now) facts.old ((A.meaning code.now).from edge))
        facts.old (P.pending policy.old)
        facts.new (P.pending policy.new) }
{
    let (from, to) = A::edge(code, edge);
    if !A::is_least(code, &facts[to]) {
        return carry_copy::<A, P>(code, policy, facts, edge);
    }
    if A::carries_least(code, edge, &facts[from]) {
        return;
    }
    // The least fact is neutral in a join, so what is carried is made in its place.
    copy_fact(facts, from, to);
    A::carry(code, edge, &mut facts[to]);
    if !A::is_least(code, &facts[to]) {
        policy.add(to);
    }
}

/// Copies the fact at one node to another.
// Upwards, which is the common case, it is one move of memory; a fact that is assigned goes by way of a local.
fn copy_fact<F: Copy>(facts: &mut [F], from: usize, to: usize)
    requires from { from < length facts.old }
    requires to { to < length facts.old }
    ensures { (least : F) → facts.new ≡ slice_set facts.old to (slice_index_or facts.old from least) }
{
    if from < to {
        let (low, high) = facts.split_at_mut(to);
        high[..1].copy_from_slice(&low[from..from + 1]);
    } else {
        facts[to] = facts[from];
    }
}

/// Joins what `edge` carries of `fact` into another fact, and answers whether that changed it.
#[inline(always)]
fn join_carried<A: Analysis>(
    code: &A::Code,
    edge: usize,
    fact: &A::Fact,
    into: &mut A::Fact,
) -> bool
    requires edge { edge < (A.meaning code.now).edges }
    requires valid { (A.valid code.now fact.now) × (A.valid code.now into.old) }
    ensures joined { into.new ≡ (A.meaning code.now).join into.old ((A.meaning code.now).carry edge fact.now) }
    ensures changed { IsTrue result → into.new ≢ into.old }
    ensures same { result ≡ false → into.new ≡ into.old }
{
    // The least fact is neutral in a join, so what is carried need not be made aside.
    if A::is_least(code, into) {
        *into = *fact;
        A::carry(code, edge, into);
        return !A::is_least(code, into);
    }
    join_copy::<A>(code, edge, fact, into)
}

/// As `join_carried`, of any fact.
// A function of its own: a local of this size is cleared wherever its function is entered.
#[inline(always)]
fn join_copy<A: Analysis>(code: &A::Code, edge: usize, fact: &A::Fact, into: &mut A::Fact) -> bool
    requires edge { edge < (A.meaning code.now).edges }
    requires valid { (A.valid code.now fact.now) × (A.valid code.now into.old) }
    ensures joined { into.new ≡ (A.meaning code.now).join into.old ((A.meaning code.now).carry edge fact.now) }
    ensures changed { IsTrue result → into.new ≢ into.old }
    ensures same { result ≡ false → into.new ≡ into.old }
{
    let mut carried = *fact;
    A::carry(code, edge, &mut carried);
    A::join(code, into, &carried)
}
