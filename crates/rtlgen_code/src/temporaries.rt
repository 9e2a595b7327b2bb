//! How many temporaries there are.

ghost use Rattle.std.specs.Prelude.{◌≡◌, ◌<◌, map};
ghost use Rattle.cminor_syntax.specs.Views.{expression_tree};
ghost use Rattle.rtlgen_definition.specs.Gen.{needs, operands_need};

use cminor_syntax::Expression;

/// Those of an operand, its own with them.
pub fn needs(expression: &Expression) -> u16
    requires { needs (expression_tree expression.now) < 65536 }
    ensures { result ≡ needs (expression_tree expression.now) }
{
    match expression {
        Expression::Constant(_) | Expression::Variable(_) => 1,
        Expression::Load(_, index) => needs(index),
        Expression::Unary(_, argument) => needs(argument),
        Expression::Binary(_, left, right) => needs(left).max(needs(right) + 1),
        Expression::Choice(condition, then, other) => {
            needs(condition).max(needs(then).max(needs(other)))
        }
    }
}

/// Those of arguments, each behind those of the ones before it. It calls itself once for each argument.
pub fn operands_need(arguments: &[Expression]) -> u16
    requires { operands_need (map expression_tree arguments.now) < 65536 }
    ensures { result ≡ operands_need (map expression_tree arguments.now) }
{
    match arguments {
        [] => 0,
        [first, rest @ ..] => needs(first).max(operands_need(rest) + 1),
    }
}
