//! What instructions make of words, and when conditions hold.

ghost use Rattle.std.specs.Prelude.{◌≡◌};
ghost use Rattle.x86_state.specs.Tables.{operated, flags_of, turned, shifted, sign_of, divided, divided_unsigned, condition_table};

use ints::{Op, eval_m};
use x86_syntax::{Condition, Operator, Shifting, Turning};

#[tactic(auto, using(ints::proofs::Wrapping::wrapped_products), unfolding(crate::specs::Tables::operated))]
pub fn operate(op: Operator, x: u32, y: u32) -> u32
    ensures { result ≡ operated op x y }
{
    match op {
        Operator::Add => x.wrapping_add(y),
        Operator::Sub => x.wrapping_sub(y),
        Operator::Mul => x.wrapping_mul(y),
        Operator::And => x & y,
        Operator::Or => x | y,
        Operator::Xor => x ^ y,
    }
}

/// The words that the flags tell of, behind an operator with this result.
#[tactic(auto, unfolding(crate::specs::Tables::flags_of))]
pub fn flags_after(op: Operator, result_word: u32) -> Option<(u32, u32)>
    ensures { result ≡ flags_of op result_word }
{
    match op {
        Operator::Add | Operator::Sub | Operator::Mul => None,
        Operator::And | Operator::Or | Operator::Xor => Some((result_word, 0)),
    }
}

#[tactic(auto, unfolding(crate::specs::Tables::turned))]
pub fn turn(op: Turning, x: u32) -> u32
    ensures { result ≡ turned op x }
{
    match op {
        Turning::Neg => x.wrapping_neg(),
        Turning::Not => !x,
    }
}

/// Gives nothing from a count of 32 on.
#[tactic(auto, unfolding(ints::specs::Codes::argument_count_of))]
pub fn shift(op: Shifting, x: u32, count: u32) -> Option<u32>
    ensures { result ≡ shifted op x count }
{
    match op {
        Shifting::Shl => eval_m(Op::ShlU, &[x, count]),
        Shifting::Shr => eval_m(Op::ShrU, &[x, count]),
        Shifting::Sar => eval_m(Op::ShrS, &[x, count]),
    }
}

/// 32 copies of the sign bit.
pub fn sign(x: u32) -> u32
    ensures { result ≡ sign_of x }
{
    if x < 1 << 31 { 0 } else { u32::MAX }
}

/// The quotient and the rest, where the halves are those of an `int` and the processor does not fault.
#[tactic(auto, unfolding(ints::specs::Codes::argument_count_of))]
pub fn divide(high: u32, low: u32, divisor: u32) -> Option<(u32, u32)>
    ensures { result ≡ divided high low divisor }
{
    if high != sign(low) {
        return None;
    }
    let quotient = eval_m(Op::DivS, &[low, divisor]);
    let rest = eval_m(Op::ModS, &[low, divisor]);
    quotient.zip(rest)
}

/// The same, all read as unsigned.
#[tactic(auto, unfolding(ints::specs::Codes::argument_count_of))]
pub fn divide_unsigned(high: u32, low: u32, divisor: u32) -> Option<(u32, u32)>
    ensures { result ≡ divided_unsigned high low divisor }
{
    if high != 0 {
        return None;
    }
    let quotient = eval_m(Op::DivU, &[low, divisor]);
    let rest = eval_m(Op::ModU, &[low, divisor]);
    quotient.zip(rest)
}

/// Whether the condition holds where these were compared.
#[tactic(auto, unfolding(crate::specs::Tables::condition_table))]
pub fn holds(condition: Condition, x: u32, y: u32) -> bool
    ensures { result ≡ condition_table condition x y }
{
    match condition {
        Condition::Equal => x == y,
        Condition::NotEqual => x != y,
        Condition::Less => x.cast_signed() < y.cast_signed(),
        Condition::LessOrEqual => x.cast_signed() <= y.cast_signed(),
        Condition::Below => x < y,
        Condition::BelowOrEqual => x <= y,
        Condition::AboveOrEqual => x >= y,
    }
}
