ghost use Rattle.std.specs.Prelude.{◌≡◌, ◌↔◌, IsTrue};

use rtl_language::Instruction;

/// Whether two instructions are one.
pub fn is_same(first: &Instruction, second: &Instruction) -> bool
    ensures { IsTrue result ↔ (first.now ≡ second.now) }
{
    first == second
}
