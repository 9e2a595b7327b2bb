ghost use Rattle.std.specs.Prelude.{◌≡◌, ◌↔◌, IsTrue};

use crate::equation::Equation;

/// Whether two equations are one.
pub fn is_same(first: Equation, second: Equation) -> bool
    ensures { IsTrue result ↔ (first ≡ second) }
{
    first == second
}
