ghost use Rattle.std.specs.Prelude.{◌≡◌, ◌<◌, length, slice_get, Some, IfOk};
ghost use Rattle.std.specs.List.{AllByRecursion};
ghost use Rattle.std.specs.String.{string_bytes};
ghost use Rattle.c_lexer_lexemes.specs.Lexemes.{IsName};
ghost use Rattle.linker.specs.Chains.{names_of};

use farm_nodes_source::text_of;
use lang_base::{Named, NoMemory};
use std::alloc::Global;

/// The name of the function of this number.
pub(crate) fn name_of<F>(
    alloc: Global,
    functions: &[Named<F>],
    number: usize,
) -> Result<String, NoMemory>
    requires number { number < length functions.now }
    requires names { AllByRecursion (λ f. IsName f.name) functions.now }
    ensures { IfOk result (λ name. slice_get (names_of functions.now) number ≡ Some (string_bytes name)) }
{
    match functions[number].name.copied(alloc) {
        Ok(name) => Ok(text_of(name.into_vec())),
        Err(fault) => Err(fault),
    }
}
