//! The order of equations: that of their written bytes, read as numbers.

ghost use Rattle.std.specs.Prelude.{◌≡◌, ◌+◌, ◌<◌, ◌^◌};
ghost use Rattle.cse_check_rules.specs.Order.{arguments_rank, right_rank};
ghost use Rattle.cse_check_rules.specs.Order.{rank as rank_of};

use crate::equation::{Equation, RightSide};
use rtl_acts::Arguments;

fn rank_of_arguments(arguments: &Arguments) -> u64
    ensures value { result ≡ arguments_rank arguments.now }
    ensures small { result < 2 ^ 32 }
{
    match *arguments {
        Arguments::One(first) => u64::from(first) * 65_536,
        Arguments::Two(first, second) => u64::from(first) * 65_536 + u64::from(second),
    }
}

fn rank_of_right(right: &RightSide) -> u64
    ensures value { result ≡ right_rank right.now }
    ensures small { result < 2 ^ 42 }
{
    match right {
        RightSide::Operation { op, arguments } => {
            u64::from(op.code()) * 4_294_967_296 + rank_of_arguments(arguments)
        }
        RightSide::Cell { global, index } => {
            1_099_511_627_776 + u64::from(*global) * 16_777_216 + u64::from(*index) * 256
        }
        RightSide::Copy { source } => 2_199_023_255_552 + u64::from(*source) * 16_777_216,
    }
}

/// The place of the equation among all: its written bytes, and zeros behind them, as a number of
/// eight bytes.
pub fn rank(equation: &Equation) -> u64
    ensures value { result ≡ rank_of equation.now }
    ensures small { result + 1 < 2 ^ 64 }
{
    u64::from(equation.register) * 281_474_976_710_656 + rank_of_right(&equation.right)
}
