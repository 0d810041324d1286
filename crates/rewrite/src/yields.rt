//! What the rules make of an instruction.
ghost use Rattle.std.specs.Prelude.{◌≡◌, ℕ, ◌↔◌, MatchOption, IsTrue};
ghost use Rattle.bytecode.specs.declared.instr.Instr.{Instr};
ghost use Rattle.rewrite.specs.declared.rule.Rule.TheVariants as R;
ghost use Rattle.rewrite.specs.declared.rule.Rule.{Rule as TheRule};
ghost use Rattle.rewrite.specs.Rules.{Folds, Yields};
ghost use Rattle.rewrite.specs.Choices.{InRange, Yielded, NoRule, LowestRule};

use crate::rule::Rule;
use bytecode::instr::Instr;
use facts::cell::ConstCell;
use facts::constants::top_after;
use facts::frame::Frame;
use facts::live::LiveSet;

/// An instruction that no run comes to, other than HALT, becomes HALT.
fn unreached(instr: Instr, known: &Frame<ConstCell>) -> Option<Instr>
    ensures { (live : ℕ) → Yielded R.Unreached instr known.now live result }
{
    match known {
        Frame::Unreached if instr != Instr::Halt => Some(Instr::Halt),
        _ => None,
    }
}

/// How many values an instruction takes that a literal may replace; none where it is no such instruction.
fn folds(instr: Instr) -> Option<u8>
    ensures { MatchOption result ((k : ℕ) → Folds instr k → ⊥) (Folds instr) }
{
    match instr {
        Instr::Load(_) | Instr::Dup => Some(0),
        Instr::Not => Some(1),
        Instr::Add | Instr::Sub | Instr::Mul | Instr::Div | Instr::Eq | Instr::Lt => Some(2),
        _ => None,
    }
}

/// LOAD, DUP, NOT, ADD, SUB, MUL, DIV, EQ and LT become a literal where their result is known.
fn literal(instr: Instr, known: &Frame<ConstCell>) -> Option<Instr>
    ensures { (live : ℕ) → Yielded R.Literal instr known.now live result }
{
    let drops = folds(instr)?;
    match top_after(instr, known)? {
        ConstCell::Num(value) => Some(Instr::Lit { drops, value }),
        ConstCell::Flag(value) => Some(Instr::LitFlag { drops, value }),
        ConstCell::Varies => None,
    }
}

/// JF becomes POP on a flag that is known to be true, and DJMP on one that is known to be false.
fn branch(instr: Instr, known: &Frame<ConstCell>) -> Option<Instr>
    ensures { (live : ℕ) → Yielded R.Branch instr known.now live result }
{
    match (instr, known.top()) {
        (Instr::Jf(_), Some(ConstCell::Flag(true))) => Some(Instr::Pop),
        (Instr::Jf(by), Some(ConstCell::Flag(false))) => Some(Instr::DropJmp(by)),
        _ => None,
    }
}

/// STORE becomes POP where its local is not live after it.
fn dead_store(instr: Instr, known: &Frame<ConstCell>, live: LiveSet) -> Option<Instr>
    ensures { Yielded R.DeadStore instr known.now live result }
{
    match instr {
        Instr::Store(local) if !live.contains(local) => Some(Instr::Pop),
        _ => None,
    }
}

/// What the rule makes of the instruction, before which `known` is known and after which `live` is live; none where it yields nothing.
#[inline(always)]
pub fn yielded(rule: Rule, instr: Instr, known: &Frame<ConstCell>, live: LiveSet) -> Option<Instr>
    ensures { Yielded rule instr known.now live result }
{
    match rule {
        Rule::Unreached => unreached(instr, known),
        Rule::Literal => literal(instr, known),
        Rule::Branch => branch(instr, known),
        Rule::DeadStore => dead_store(instr, known, live),
    }
}

/// The lowest rule that yields something, and what it makes of the instruction; none where no rule yields anything.
pub fn lowest_rule(instr: Instr, known: &Frame<ConstCell>, live: LiveSet) -> Option<(Rule, Instr)>
    ensures { MatchOption result (NoRule instr known.now live) (λ found. LowestRule instr known.now live found.0 found.1 × InRange found.1) }
{
    for rule in Rule::ALL {
        if let Some(new) = yielded(rule, instr, known, live) {
            return Some((rule, new));
        }
    }
    None
}

/// Whether the rule makes `new` of the instruction.
fn makes(rule: Rule, instr: Instr, known: &Frame<ConstCell>, live: LiveSet, new: Instr) -> bool
    ensures decides { IsTrue result ↔ Yields rule instr known.now live new }
    ensures in_range { IsTrue result → InRange new }
{
    match yielded(rule, instr, known, live) {
        Some(made) => made == new,
        None => false,
    }
}

/// Whether some rule makes `new` of the instruction.
pub fn some_rule_yields(instr: Instr, known: &Frame<ConstCell>, live: LiveSet, new: Instr) -> bool
    ensures decides { IsTrue result ↔ ((r : TheRule) × Yields r instr known.now live new) }
    ensures in_range { IsTrue result → InRange new }
{
    for rule in Rule::ALL {
        if makes(rule, instr, known, live, new) {
            return true;
        }
    }
    false
}
