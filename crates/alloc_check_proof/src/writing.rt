//! How an equation is written.

ghost use Rattle.lang_base.specs.Texts.{Appends};
ghost use Rattle.alloc_check_proof.specs.Text.{equation_text};

use alloc_check_rules::Equation;
use lang_base::{NoMemory, push_u16};
use locations::Location;
use rtl_language::WriteOne;

/// Writes the equation at the end of `out`; where memory runs out, a beginning of it is written.
pub fn push_equation(out: &mut Vec<u8>, equation: &Equation) -> Result<(), NoMemory>
    ensures { Appends result (equation_text equation.now) out.old.items out.new.items }
{
    push_u16(out, equation.register)?;
    Location::push(out, &equation.location)
}
