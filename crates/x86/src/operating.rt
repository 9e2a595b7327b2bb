//! Operators on words, with the flags that they leave.

ghost use Rattle.x86_state.specs.State.{word, goes_on, does};
ghost use Rattle.x86.specs.Operating.{done, turned_round, shifted_by, extended, with_quotient, divided_by, divided_unsigned_by};
ghost use Rattle.x86.specs.Runs.{Steps, HasNext};

use crate::moving::give;
use crate::outcome::Outcome;
use crate::running::Running;
use x86_state::{divide, divide_unsigned, flags_after, operate, shift, sign, turn};
use x86_syntax::{Operator, Register, Shifting, Turning};

pub(crate) fn do_with(run: &mut Running, op: Operator, target: Register, word: u32) -> Outcome
    requires { HasNext run.old }
    ensures { Steps (λ s. goes_on (done op target word s)) run.old result run.new }
{
    let made = operate(op, run.registers.word(target), word);
    run.flags = flags_after(op, made);
    give(run, target, made)
}

pub(crate) fn do_to(run: &mut Running, op: Operator, target: Register, source: Register) -> Outcome
    requires { HasNext run.old }
    ensures { Steps (λ s. goes_on (done op target (word source s) s)) run.old result run.new }
{
    let word = run.registers.word(source);
    do_with(run, op, target, word)
}

pub(crate) fn turn_round(run: &mut Running, op: Turning, target: Register) -> Outcome
    requires { HasNext run.old }
    ensures { Steps (λ s. goes_on (turned_round op target s)) run.old result run.new }
{
    let made = turn(op, run.registers.word(target));
    match op {
        Turning::Neg => {
            run.flags = None;
            give(run, target, made)
        }
        Turning::Not => give(run, target, made),
    }
}

pub(crate) fn shift_by(run: &mut Running, op: Shifting, target: Register, count: u32) -> Outcome
    requires { HasNext run.old }
    ensures { Steps (λ s. does (shifted_by op target count s)) run.old result run.new }
{
    match shift(op, run.registers.word(target), count) {
        None => Outcome::Stuck,
        Some(made) => {
            run.flags = None;
            give(run, target, made)
        }
    }
}

pub(crate) fn shift_by_ecx(run: &mut Running, op: Shifting, target: Register) -> Outcome
    requires { HasNext run.old }
    ensures { Steps (λ s. does (shifted_by op target (word Register.Ecx s) s)) run.old result run.new }
{
    let count = run.registers.word(Register::Ecx);
    shift_by(run, op, target, count)
}

/// Fills edx with the sign of eax.
pub(crate) fn extend(run: &mut Running) -> Outcome
    requires { HasNext run.old }
    ensures { Steps (λ s. goes_on (extended s)) run.old result run.new }
{
    let made = sign(run.registers.word(Register::Eax));
    give(run, Register::Edx, made)
}

/// The quotient goes to eax, the rest to edx.
fn give_both(run: &mut Running, quotient: u32, rest: u32) -> Outcome
    requires { HasNext run.old }
    ensures { Steps (λ s. goes_on (with_quotient s (quotient, rest))) run.old result run.new }
{
    run.flags = None;
    run.registers.put(Register::Eax, quotient);
    give(run, Register::Edx, rest)
}

pub(crate) fn divide_by(run: &mut Running, divisor: Register) -> Outcome
    requires { HasNext run.old }
    ensures { Steps (λ s. does (divided_by divisor s)) run.old result run.new }
{
    let high = run.registers.word(Register::Edx);
    let low = run.registers.word(Register::Eax);
    match divide(high, low, run.registers.word(divisor)) {
        None => Outcome::Stuck,
        Some((quotient, rest)) => give_both(run, quotient, rest),
    }
}

pub(crate) fn divide_unsigned_by(run: &mut Running, divisor: Register) -> Outcome
    requires { HasNext run.old }
    ensures { Steps (λ s. does (divided_unsigned_by divisor s)) run.old result run.new }
{
    let high = run.registers.word(Register::Edx);
    let low = run.registers.word(Register::Eax);
    match divide_unsigned(high, low, run.registers.word(divisor)) {
        None => Outcome::Stuck,
        Some((quotient, rest)) => give_both(run, quotient, rest),
    }
}
