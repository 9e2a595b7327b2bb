//! Whether the end of a body is reached.

ghost use Rattle.std.specs.Prelude.{◌≡◌};
ghost use Rattle.cminor_syntax.specs.Views.{statement_tree};
ghost use Rattle.rtlgen_definition.specs.Gen.{ends_with_value};

use cminor_syntax::Statement;

/// Whether the last statement, within sequences too, is a `return` of a value. It calls itself at most as often
/// as the statement is high.
pub fn ends_with_value(statement: &Statement) -> bool
    ensures { result ≡ ends_with_value (statement_tree statement.now) }
{
    match statement {
        Statement::Return(value) => value.is_some(),
        Statement::Sequence(all) => {
            match all.as_slice().last() {
                Some(last) => ends_with_value(last),
                None => false,
            }
        }
        _ => false,
    }
}
