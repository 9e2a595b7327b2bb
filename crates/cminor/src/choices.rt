//! Expressions put together from their parts.

ghost use Rattle.std.specs.Prelude.{◌≡◌, IfOk};
ghost use Rattle.cminor_syntax.specs.Views.{expression_tree};
ghost use Rattle.cminor_lowering.specs.Terms.{truth_of};
ghost use Rattle.cminor.specs.Parts.{choice_tree};

use cminor_syntax::Expression;
use lang_base::NoMemory;
use lang_helpers::beside;
use std::alloc::Global;

/// An expression in a box.
pub(crate) fn boxed(alloc: Global, inner: Expression) -> Result<Box<Expression>, NoMemory>
    ensures { IfOk result (λ b. expression_tree b.value ≡ expression_tree inner) }
{
    Ok(Box::new(alloc, inner)?)
}

/// A condition, the value where it is not 0, and the value where it is.
pub fn choice(
    alloc: Global,
    condition: Expression,
    then: Expression,
    other: Expression,
) -> Result<Expression, NoMemory>
    ensures { IfOk result (λ e. expression_tree e ≡ choice_tree condition then other) }
{
    let (values, condition) = beside((then, other), boxed(alloc, condition))?;
    let (then, other) = values;
    let (parts, then) = beside((condition, other), boxed(alloc, then))?;
    let (condition, other) = parts;
    let (parts, other) = beside((condition, then), boxed(alloc, other))?;
    let (condition, then) = parts;
    Ok(Expression::Choice(condition, then, other))
}

/// 1 where the expression gives a word that is not 0, and else 0.
pub(crate) fn truth(alloc: Global, expression: Expression) -> Result<Expression, NoMemory>
    ensures { IfOk result (λ e. expression_tree e ≡ truth_of (expression_tree expression)) }
{
    choice(
        alloc,
        expression,
        Expression::Constant(1),
        Expression::Constant(0),
    )
}
