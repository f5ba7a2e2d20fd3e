//! Copies of code in which a register's number is known.

ghost use Rattle.std.specs.Prelude.{◌≡◌, ◌<◌, true, length, slice_index, IfOk};
ghost use Rattle.lower_machine.specs.Machine.{Machine, Running, worth, truth, after};
ghost use Rattle.lower_unroll.specs.Turns.{sets_others, knowing, with_register};

use lower_machine::{
    Code, Register, Term, Test, beside, binary, both, branch, comparison, conditional, either,
    element, negation, number, then, unary,
};
use std::alloc::{AllocError, Global};

/// A register, and the number that it holds.
#[derive(Clone, Copy)]
pub struct Known {
    pub register: Register,
    pub value: u64,
}

// What a register holds.
fn local(register: Register, known: Known) -> Term
    ensures { (m : Machine) → known.register.at < length m.registers
        → worth result m
        ≡ slice_index (knowing known.register.at known.value m).registers register.at }
{
    if register.at == known.register.at {
        return number(known.value);
    }
    Term::Local(register)
}

// A term with the number in place of the register.
#[cycle(copy)]
fn copy_term(alloc: Global, term: &Term, known: Known) -> Result<Term, AllocError>
    ensures { IfOk result (λ t. (m : Machine) → known.register.at < length m.registers
        → worth t m ≡ worth term.now (knowing known.register.at known.value m)) }
{
    match term {
        Term::Number(word) => Ok(number(word.number)),
        Term::Local(register) => Ok(local(*register, known)),
        Term::Element(a) => {
            let a = copy_term(alloc, a, known)?;
            element(alloc, a)
        }
        Term::Unary(op, a) => {
            let a = copy_term(alloc, a, known)?;
            unary(alloc, *op, a)
        }
        Term::Binary(op, a, b) => {
            let a = copy_term(alloc, a, known)?;
            let (a, b) = beside(a, copy_term(alloc, b, known))?;
            binary(alloc, *op, a, b)
        }
        Term::Conditional(c, a, b) => {
            let c = copy_test(alloc, c, known)?;
            let (c, a) = beside(c, copy_term(alloc, a, known))?;
            let (front, b) = beside((c, a), copy_term(alloc, b, known))?;
            conditional(alloc, front.0, front.1, b)
        }
    }
}

// A test with the number in place of the register.
#[cycle(copy)]
fn copy_test(alloc: Global, test: &Test, known: Known) -> Result<Test, AllocError>
    ensures { IfOk result (λ t. (m : Machine) → known.register.at < length m.registers
        → truth t m ≡ truth test.now (knowing known.register.at known.value m)) }
{
    match test {
        Test::Compare(op, a, b) => {
            let a = copy_term(alloc, a, known)?;
            let (a, b) = beside(a, copy_term(alloc, b, known))?;
            comparison(alloc, *op, a, b)
        }
        Test::Not(c) => {
            let c = copy_test(alloc, c, known)?;
            negation(alloc, c)
        }
        Test::LogicalAnd(c, d) => {
            let c = copy_test(alloc, c, known)?;
            let (c, d) = beside(c, copy_test(alloc, d, known))?;
            both(alloc, c, d)
        }
        Test::LogicalOr(c, d) => {
            let c = copy_test(alloc, c, known)?;
            let (c, d) = beside(c, copy_test(alloc, d, known))?;
            either(alloc, c, d)
        }
    }
}

/// Code that sets other registers alone, with the number in place of the register: it leaves what the code leaves where the register holds the
/// number, but for the register, which stays.
///
/// # Errors
///
/// Where memory runs out.
pub fn copy_code(alloc: Global, code: &Code, known: Known) -> Result<Code, AllocError>
    requires { sets_others known.register.at code.now ≡ true }
    ensures { IfOk result (λ t. (r : Running) → known.register.at < length r.machine.registers
        → after t r ≡ with_register known.register.at
        (slice_index r.machine.registers known.register.at)
        (after code.now (with_register known.register.at known.value r))) }
{
    match code {
        Code::Set(register, term) => {
            let term = copy_term(alloc, term, known)?;
            Ok(Code::Set(*register, term))
        }
        Code::Then(a, b) => {
            let a = copy_code(alloc, a, known)?;
            let (a, b) = beside(a, copy_code(alloc, b, known))?;
            then(alloc, a, b)
        }
        Code::If(c, a, b) => {
            let c = copy_test(alloc, c, known)?;
            let (c, a) = beside(c, copy_code(alloc, a, known))?;
            let (front, b) = beside((c, a), copy_code(alloc, b, known))?;
            branch(alloc, front.0, front.1, b)
        }
        Code::Nothing => Ok(Code::Nothing),
        Code::Save(_place, _term) => Ok(Code::Nothing),
        Code::Loop(_test, _body, _step) => Ok(Code::Nothing),
        Code::Print(_pieces) => Ok(Code::Nothing),
    }
}
