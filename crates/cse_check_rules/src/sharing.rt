ghost use Rattle.std.specs.Prelude.{◌≡◌};
ghost use Rattle.cse_check_rules.specs.Equations.{shared_by, shared};
ghost use Rattle.cse_check_rules.specs.Ranges.{ActStaysInRange, StaysInRange};

use crate::equation::{Equation, RightSide};
use rtl_acts::{Act, Register};
use rtl_passes_filled::Instruction;

fn share_act(act: &Act, register: Register) -> Option<(Equation, Act)>
    ensures value { result ≡ shared_by act.now register }
    ensures fits { ActStaysInRange register act.now result }
{
    match *act {
        Act::Operate {
            op,
            target,
            arguments,
        } => Some((
            Equation {
                register,
                right: RightSide::Operation { op, arguments },
            },
            Act::Move {
                target,
                source: register,
            },
        )),
        Act::Load {
            target,
            global,
            index,
        } => Some((
            Equation {
                register,
                right: RightSide::Cell { global, index },
            },
            Act::Move {
                target,
                source: register,
            },
        )),
        Act::Move { target, source } => Some((
            Equation {
                register: source,
                right: RightSide::Copy { source: register },
            },
            Act::Move {
                target,
                source: register,
            },
        )),
        _ => None,
    }
}

/// The move from this register that the instruction can be made, and the equation which allows that,
/// if its act is an operator, a load or a move; takes no memory.
pub fn share(instruction: &Instruction, register: Register) -> Option<(Equation, Instruction)>
    ensures value { result ≡ shared instruction.now register }
    ensures fits { StaysInRange register instruction.now result }
{
    match instruction {
        Instruction::Do { act, successor } => {
            let (equation, act) = share_act(act, register)?;
            Some((
                equation,
                Instruction::Do {
                    act,
                    successor: *successor,
                },
            ))
        }
        _ => None,
    }
}
