//! The checker of expressions. It calls itself no deeper than the tree is high.

ghost use Rattle.std.specs.Prelude.{◌≡◌, [], IfOk, IfErr};
ghost use Rattle.c_syntax.specs.Views.{expression_tree};
ghost use Rattle.c_program.specs.Views.{term_tree};
ghost use Rattle.c_checker_rules.specs.Told.{Tells};
ghost use Rattle.c_checker_rules.specs.Types.{type_of};
ghost use Rattle.c_checker_rules.specs.Terms.{term_of};
ghost use Rattle.c_checker_rules.specs.Expressions.{expression_faults};
ghost use Rattle.c_checker_terms.specs.Checked.{Checks};

use crate::names::variable;
use crate::parts::{binary_of, cast_of, conditional_of, element_of, unary_of};
use crate::typed::Typed;
use c_checker_rules::{CheckError, Meaning};
use c_checker_scopes::Scopes;
use c_program::Term;
use c_syntax::Expression;
use std::alloc::Global;

/// The term that an expression stands for, and its type; or the first fault in it.
pub fn check_expression(
    alloc: Global,
    scope: &Scopes<Meaning>,
    expression: &Expression,
) -> Result<Typed, CheckError>
    ensures ok { IfOk result (λ t. expression_faults scope.now (expression_tree expression.now) ≡ []) }
    ensures kind { IfOk result (λ t. t.kind ≡ type_of scope.now (expression_tree expression.now)) }
    ensures term { IfOk result (λ t. term_tree t.term ≡ term_of scope.now (expression_tree expression.now)) }
    ensures err { IfErr result (λ e. Tells e (expression_faults scope.now (expression_tree expression.now))) }
{
    checked(alloc, scope, expression)
}

/// The same by one clause. What its parts gave goes as it is to functions outside of the cycle.
fn checked(
    alloc: Global,
    scope: &Scopes<Meaning>,
    expression: &Expression,
) -> Result<Typed, CheckError>
    ensures { Checks scope.now (expression_tree expression.now) result }
{
    match expression {
        Expression::Constant(constant) => Ok(Typed {
            term: Term::Constant(constant.value),
            kind: constant.kind,
        }),
        Expression::Variable(name) => variable(alloc, scope, name),
        Expression::Element(name, index) => {
            let index = checked(alloc, scope, index);
            element_of(alloc, scope, name, index)
        }
        Expression::Parenthesis(inner) => checked(alloc, scope, inner),
        Expression::Cast(kind, operand) => cast_of(*kind, checked(alloc, scope, operand)),
        Expression::Unary(operator, operand) => {
            let operand = checked(alloc, scope, operand);
            unary_of(alloc, *operator, operand)
        }
        Expression::Binary(operator, left, right) => {
            let left = checked(alloc, scope, left);
            let right = checked(alloc, scope, right);
            binary_of(alloc, *operator, left, right)
        }
        Expression::Conditional(condition, left, right) => {
            let condition = checked(alloc, scope, condition);
            let left = checked(alloc, scope, left);
            let right = checked(alloc, scope, right);
            conditional_of(alloc, condition, left, right)
        }
    }
}
