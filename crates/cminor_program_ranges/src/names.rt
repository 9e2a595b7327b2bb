//! Whether the functions of a program have C names.

ghost use Rattle.std.specs.Prelude.{◌↔◌, All, IsTrue};
ghost use Rattle.c_lexer_lexemes.specs.Lexemes.{IsName};

use c_program::Function;
use lang::is_name;

/// Whether each of these functions has a C name.
pub(crate) fn have_names(functions: &[Function]) -> bool
    ensures { IsTrue result ↔ All (λ f. IsName f.name) functions.now }
{
    for function in functions {
        if !is_name(function.name.as_slice()) {
            return false;
        }
    }
    true
}
