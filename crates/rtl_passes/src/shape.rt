//! Whether two functions differ in their instructions alone.

ghost use Rattle.std.specs.Prelude.{◌≡◌, ◌↔◌, IsTrue};
ghost use Rattle.rtl_passes.specs.Shape.{HasSameShape};

use rtl_language::{Function, Register};

/// Whether the parameters, registers, entries and numbers of nodes are the same.
pub fn has_same_shape(input: &Function, output: &Function) -> bool
    ensures { IsTrue result ↔ HasSameShape input.now output.now }
{
    are_same(
        output.parameters().as_slice(),
        input.parameters().as_slice(),
    ) && output.registers() == input.registers()
        && output.entry() == input.entry()
        && output.nodes().len() == input.nodes().len()
}

fn are_same(parameters: &[Register], others: &[Register]) -> bool
    ensures { IsTrue result ↔ (parameters.now ≡ others.now) }
{
    parameters == others
}
