ghost use Rattle.std.specs.Prelude.{◌≡◌, ◌<◌, length};
ghost use Rattle.farm_nodes_turn_passes.specs.Numbers.{function_of};
ghost use Rattle.farm_nodes_turn_function.specs.Turns.{OfFunction};

use lang_base::{Named, Row};

/// The function whose room this is.
pub fn function_in<F>(functions: &Row<Named<F>>, room: u16) -> &F
    requires { function_of room < length functions.now }
    ensures { OfFunction functions.now (function_of room) (λ function. result.now ≡ function) }
{
    let functions = functions.as_slice();
    let named = &functions[usize::from(room / 4)];
    &named.function
}
