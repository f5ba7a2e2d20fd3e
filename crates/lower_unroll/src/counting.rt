//! Loops of which is known how often they turn.

ghost use Rattle.std.specs.Prelude.{◌≡◌, ◌+◌, ◌*◌, ◌%◌, ◌<◌, ◌≤◌, ◌^◌, ℕ, true, length, slice_index, nat_lt, IfSome};
ghost use Rattle.lower_machine.specs.Machine.{Machine, Running, worth, truth, after};
ghost use Rattle.lower_unroll.specs.Turns.{sets_others, with_register, turns};

use ktree::{BinaryOp, CompareOp};
use lower_machine::{Code, Register, Term, Test, is_local};

/// How many turns are written out at most.
const MOST_TURNS: u64 = 256;

/// How many parts of terms they may have in all.
const MOST_PARTS: u64 = 4096;

/// A loop that does nothing but to set registers other than its variable, which begins with a number and grows by a step from turn to turn.
#[derive(Clone, Copy)]
pub struct Counted<'c> {
    pub variable: Register,
    pub first: u64,
    pub by: u64,
    pub turns: u64,
    pub body: &'c Code,
}

// The number that a term is.
fn number_of(term: &Term) -> Option<u64>
    ensures { IfSome result (λ n. (m : Machine) → worth term.now m ≡ n) }
{
    match term {
        Term::Number(word) => Some(word.number),
        _ => None,
    }
}

// The register that code sets to a number.
fn start_of(code: &Code) -> Option<(Register, u64)>
    ensures { IfSome result (λ p. (r : Running) → after code.now r ≡ with_register p.0.at p.1 r) }
{
    match code {
        Code::Set(register, term) => {
            let first = number_of(term)?;
            Some((*register, first))
        }
        _ => None,
    }
}

// Whether a comparison is one by less.
fn is_less(op: CompareOp) -> bool
    ensures { result ≡ true → op ≡ CompareOp.Less }
{
    match op {
        CompareOp::Less => true,
        _ => false,
    }
}

// The number below which a register has to be where a test holds.
fn limit_of(test: &Test, register: Register) -> Option<u64>
    ensures { IfSome result (λ n. (m : Machine)
        → truth test.now m ≡ nat_lt (slice_index m.registers register.at) n) }
{
    let Test::Compare(op, a, b) = test else {
        return None;
    };
    if !is_less(*op) || !is_local(a, register) {
        return None;
    }
    number_of(b)
}

// Whether an operator adds.
fn is_plus(op: BinaryOp) -> bool
    ensures { result ≡ true → op ≡ BinaryOp.Plus }
{
    match op {
        BinaryOp::Plus => true,
        _ => false,
    }
}

// The number that a term adds to a register.
fn added_by(term: &Term, register: Register) -> Option<u64>
    ensures { IfSome result (λ n. (m : Machine)
        → worth term.now m ≡ (slice_index m.registers register.at + n) % 2 ^ 64) }
{
    let Term::Binary(op, a, b) = term else {
        return None;
    };
    if !is_plus(*op) || !is_local(a, register) {
        return None;
    }
    number_of(b)
}

// The number that code adds to a register, where it does nothing else.
fn step_of(code: &Code, register: Register) -> Option<u64>
    ensures { IfSome result (λ n. (r : Running) → after code.now r ≡ with_register register.at
        ((slice_index r.machine.registers register.at + n) % 2 ^ 64) r) }
{
    match code {
        Code::Set(other, term) => {
            if other.at != register.at {
                return None;
            }
            added_by(term, register)
        }
        _ => None,
    }
}

// How often a variable that begins so and grows so is below a limit, at most 256 times.
fn turns_below(first: u64, limit: u64, by: u64) -> Option<u64>
    ensures few { IfSome result (λ n. n ≤ 256) }
    ensures fits { IfSome result (λ n. first + n * by < 2 ^ 64) }
    ensures below { IfSome result (λ n. (k : ℕ) → k < n → first + k * by < limit) }
    ensures ends { IfSome result (λ n. limit ≤ first + n * by) }
{
    if by == 0 {
        return None;
    }
    let apart = limit.saturating_sub(first);
    let rest = if apart % by == 0 { 0 } else { 1 };
    let turns = apart / by + rest;
    if turns > MOST_TURNS {
        return None;
    }
    let length = turns.checked_mul(by)?;
    let _end = first.checked_add(length)?;
    Some(turns)
}

// How many parts a term has.
#[cycle(parts)]
fn parts_of_term(term: &Term) -> u64 {
    match term {
        Term::Number(_word) => 1,
        Term::Local(_register) => 1,
        Term::Element(a) => parts_of_term(a).saturating_add(1),
        Term::Unary(_op, a) => parts_of_term(a).saturating_add(1),
        Term::Binary(_op, a, b) => parts_of_term(a).saturating_add(parts_of_term(b)),
        Term::Conditional(c, a, b) => parts_of_test(c)
            .saturating_add(parts_of_term(a))
            .saturating_add(parts_of_term(b)),
    }
}

// How many parts a test has.
#[cycle(parts)]
fn parts_of_test(test: &Test) -> u64 {
    match test {
        Test::Compare(_op, a, b) => parts_of_term(a).saturating_add(parts_of_term(b)),
        Test::Not(c) => parts_of_test(c).saturating_add(1),
        Test::LogicalAnd(c, d) => parts_of_test(c).saturating_add(parts_of_test(d)),
        Test::LogicalOr(c, d) => parts_of_test(c).saturating_add(parts_of_test(d)),
    }
}

// How many parts the terms of code have that does nothing but to set registers other than this one.
fn parts_of(code: &Code, register: Register) -> Option<u64>
    ensures { IfSome result (λ n. sets_others register.at code.now ≡ true) }
{
    match code {
        Code::Nothing => Some(0),
        Code::Set(other, term) => {
            if other.at == register.at {
                return None;
            }
            Some(parts_of_term(term))
        }
        Code::Then(a, b) => {
            let a = parts_of(a, register)?;
            let b = parts_of(b, register)?;
            Some(a.saturating_add(b))
        }
        Code::If(c, a, b) => {
            let a = parts_of(a, register)?;
            let b = parts_of(b, register)?;
            Some(parts_of_test(c).saturating_add(a).saturating_add(b))
        }
        _ => None,
    }
}

// Whether so many turns of a body are to be written out, which does nothing but to set registers other than this one.
fn is_short(body: &Code, register: Register, turns: u64) -> bool
    ensures { result ≡ true → sets_others register.at body.now ≡ true }
{
    match parts_of(body, register) {
        Some(parts) => parts.saturating_mul(turns) <= MOST_PARTS,
        None => false,
    }
}

// The loop whose variable begins so.
fn counted_from(variable: Register, first: u64, rest: &Code) -> Option<Counted<'_>>
    ensures variable { IfSome result (λ c. (c.variable ≡ variable) × (c.first ≡ first)) }
    ensures body { IfSome result (λ c. sets_others variable.at c.body.now ≡ true) }
    ensures few { IfSome result (λ c. c.turns ≤ 256) }
    ensures fits { IfSome result (λ c. first + c.turns * c.by < 2 ^ 64) }
    ensures goes { IfSome result (λ c. (r : Running)
        → variable.at < length r.machine.registers
        → after rest.now (with_register variable.at first r)
        ≡ turns c.body.now variable.at first c.by c.turns r) }
{
    let Code::Loop(test, body, step) = rest else {
        return None;
    };
    let limit = limit_of(test, variable)?;
    let by = step_of(step, variable)?;
    let turns = turns_below(first, limit, by)?;
    if !is_short(body, variable, turns) {
        return None;
    }
    Some(Counted {
        variable,
        first,
        by,
        turns,
        body,
    })
}

/// The loop that two pieces of code are, one behind the other, where they are one whose turns are to be written out (C11 6.8.5).
pub fn counted_of<'c>(start: &Code, rest: &'c Code) -> Option<Counted<'c>>
    ensures body { IfSome result (λ c. sets_others c.variable.at c.body.now ≡ true) }
    ensures few { IfSome result (λ c. c.turns ≤ 256) }
    ensures fits { IfSome result (λ c. c.first + c.turns * c.by < 2 ^ 64) }
    ensures goes { IfSome result (λ c. (r : Running)
        → c.variable.at < length r.machine.registers
        → after rest.now (after start.now r)
        ≡ turns c.body.now c.variable.at c.first c.by c.turns r) }
{
    let (variable, first) = start_of(start)?;
    counted_from(variable, first, rest)
}
