//! A whole function, laid out.

ghost use Rattle.std.specs.Prelude.{◌≡◌, ◌<◌, ◌^◌, length, IfOk};
ghost use Rattle.machine.specs.Fits.{AreDistinct};
ghost use Rattle.linearize_check_proof.specs.Rules.{laid_out};

use crate::layout::lay_out;
use lang_base::{NoMemory, Row};
use std::alloc::Global;

/// The function of Linear whose code is the blocks laid out in the order. Its labels are the listed
/// nodes, so none may be listed twice.
pub fn lay_out_function(
    alloc: Global,
    input: &ltl::Function,
    order: &[u16],
) -> Result<linearize_check_proof::Function, NoMemory>
    requires few { length order.now < 2 ^ 16 }
    requires distinct { AreDistinct order.now }
    ensures { IfOk result (λ output. output ≡ laid_out input.now order.now) }
{
    let parameters = Vec::from_slice(alloc, input.parameters().as_slice())?;
    let code = lay_out(alloc, input.blocks().as_slice(), order)?;
    Ok(linearize_check_proof::Function::new(
        Row::from_vec(parameters),
        input.slots(),
        Row::from_vec(code),
    ))
}
