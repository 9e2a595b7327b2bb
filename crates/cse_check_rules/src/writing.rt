//! Writers of equations: each appends the text.

ghost use Rattle.std.specs.Prelude.{◌∷◌};
ghost use Rattle.lang_base.specs.Texts.{Appends};
ghost use Rattle.cse_check_rules.specs.Order.{right_code, right_body, equation_text};

use crate::equation::{Equation, RightSide};
use lang_base::{NoMemory, push_byte, push_u16};
use rtl_acts::push_arguments;

fn push_right(out: &mut Vec<u8>, right: &RightSide) -> Result<(), NoMemory>
    ensures { Appends result (right_code right.now ∷ right_body right.now) out.old.items out.new.items }
{
    match right {
        RightSide::Operation { op, arguments } => {
            push_byte(out, 0)?;
            push_byte(out, op.code())?;
            push_arguments(out, arguments)
        }
        RightSide::Cell { global, index } => {
            push_byte(out, 1)?;
            push_u16(out, *global)?;
            push_u16(out, *index)
        }
        RightSide::Copy { source } => {
            push_byte(out, 2)?;
            push_u16(out, *source)
        }
    }
}

/// Writes the equation at the end of `out`; where memory runs out, a beginning of it is written.
pub fn push_equation(out: &mut Vec<u8>, equation: &Equation) -> Result<(), NoMemory>
    ensures { Appends result (equation_text equation.now) out.old.items out.new.items }
{
    push_u16(out, equation.register)?;
    push_right(out, &equation.right)
}
