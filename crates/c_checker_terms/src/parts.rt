//! What the check of an expression answers, given what the checks of its parts answered: the first of
//! their faults is told.

ghost use Rattle.c_checker_terms.specs.Checked.{ChecksElement, ChecksCast, ChecksUnary, ChecksBinary, ChecksConditional};

use crate::names::array;
use crate::typed::{Typed, binary, conditional, unary};
use c_checker_rules::{CheckError, Meaning};
use c_checker_scopes::Scopes;
use c_program::Term;
use c_syntax::{BinaryOperator, Identifier, IntegerType, UnaryOperator};
use lang_helpers::{both, ok};
use std::alloc::Global;

/// A cell of an array. A fault of the name comes before one of the index.
pub(crate) fn element_of(
    alloc: Global,
    scope: &Scopes<Meaning>,
    name: &Identifier,
    index: Result<Typed, CheckError>,
) -> Result<Typed, CheckError>
    ensures { ChecksElement scope.now name.now index result }
{
    let ((number, kind), index) = ok!(both(array(scope, name), index));
    let term = Term::Cell(number, Box::new(alloc, index.term)?);
    Ok(Typed { term, kind })
}

/// A cast: the term stays as it is.
pub(crate) fn cast_of(
    kind: IntegerType,
    operand: Result<Typed, CheckError>,
) -> Result<Typed, CheckError>
    ensures { ChecksCast kind operand result }
{
    let Typed { term, .. } = ok!(operand);
    Ok(Typed { term, kind })
}

/// An operator on one operand.
pub(crate) fn unary_of(
    alloc: Global,
    operator: UnaryOperator,
    operand: Result<Typed, CheckError>,
) -> Result<Typed, CheckError>
    ensures { ChecksUnary operator operand result }
{
    Ok(unary(alloc, operator, ok!(operand))?)
}

/// An operator on two operands.
pub(crate) fn binary_of(
    alloc: Global,
    operator: BinaryOperator,
    left: Result<Typed, CheckError>,
    right: Result<Typed, CheckError>,
) -> Result<Typed, CheckError>
    ensures { ChecksBinary operator left right result }
{
    let (left, right) = ok!(both(left, right));
    Ok(binary(alloc, operator, left, right)?)
}

/// `?:`.
pub(crate) fn conditional_of(
    alloc: Global,
    condition: Result<Typed, CheckError>,
    left: Result<Typed, CheckError>,
    right: Result<Typed, CheckError>,
) -> Result<Typed, CheckError>
    ensures { ChecksConditional condition left right result }
{
    let ((condition, left), right) = both(both(condition, left), right)?;
    Ok(conditional(alloc, condition, left, right)?)
}
