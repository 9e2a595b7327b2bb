//! Tests.

ghost use Rattle.machine.specs.Fits.{TestFits};
ghost use Rattle.linear_faults_run.specs.Doing.{Asks};

use crate::words::read;
use ints::eval_cond;
use machine::{Arguments, Test};

/// Whether a test holds, if its words are defined.
pub fn ask(test: Test, registers: &[Option<u32>]) -> Option<bool>
    requires { TestFits test }
    ensures { Asks result test registers.now }
{
    match test.arguments {
        Arguments::One(first) => {
            let x = read(registers, usize::from(first))?;
            Some(eval_cond(test.condition, &[x]))
        }
        Arguments::Two(first, second) => {
            let x = read(registers, usize::from(first))?;
            let y = read(registers, usize::from(second))?;
            Some(eval_cond(test.condition, &[x, y]))
        }
    }
}
