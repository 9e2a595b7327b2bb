//! Expressions whose heights are known, so that no height is measured twice.

ghost use Rattle.std.specs.Prelude.{◌≡◌, ◌≤◌, IfOk, IfErr};
ghost use Rattle.c_syntax.specs.Trees.{Number, Variable, Element, Parenthesis, Cast, Unary};
ghost use Rattle.c_syntax.specs.Views.{expression_tree};
ghost use Rattle.c_syntax.specs.Heights.{expression_height};
ghost use Rattle.c_reader_expressions.specs.Making.{IsBinary, IsChoice};

use crate::boxing::boxes;
use c_reader_tokens::Fault;
use c_syntax::{BinaryOperator, Constant, Expression, Identifier, IntegerType, UnaryOperator};
use lang_helpers::beside;
use std::alloc::Global;

/// An expression and its height.
#[derive(Drop)]
pub struct Measured {
    pub expression: Expression,
    pub height: u16,
    ghost measured: { height ≡ expression_height (expression_tree expression) },
}

impl Measured {
    pub fn constant(value: Constant) -> Measured
        ensures { expression_tree result.expression ≡ Number value }
    {
        Measured {
            expression: Expression::Constant(value),
            height: 1,
        }
    }

    pub fn variable(name: Identifier) -> Measured
        ensures { expression_tree result.expression ≡ Variable name }
    {
        Measured {
            expression: Expression::Variable(name),
            height: 1,
        }
    }

    pub fn element(alloc: Global, array: Identifier, index: Measured) -> Result<Measured, Fault>
        requires { index.height ≤ 255 }
        ensures ok { IfOk result (λ made. expression_tree made.expression ≡ Element array (expression_tree index.expression)) }
        ensures err { IfErr result (λ e. e ≡ Fault.NoMemory) }
    {
        Ok(Measured {
            height: 1 + index.height.max(1),
            expression: Expression::Element(array, Box::new(alloc, index.expression)?),
        })
    }

    pub fn parenthesis(alloc: Global, inner: Measured) -> Result<Measured, Fault>
        requires { inner.height ≤ 255 }
        ensures ok { IfOk result (λ made. expression_tree made.expression ≡ Parenthesis (expression_tree inner.expression)) }
        ensures err { IfErr result (λ e. e ≡ Fault.NoMemory) }
    {
        Ok(Measured {
            height: 1 + inner.height,
            expression: Expression::Parenthesis(Box::new(alloc, inner.expression)?),
        })
    }

    pub fn cast(alloc: Global, kind: IntegerType, inner: Measured) -> Result<Measured, Fault>
        requires { inner.height ≤ 255 }
        ensures ok { IfOk result (λ made. expression_tree made.expression ≡ Cast kind (expression_tree inner.expression)) }
        ensures err { IfErr result (λ e. e ≡ Fault.NoMemory) }
    {
        Ok(Measured {
            height: 1 + inner.height,
            expression: Expression::Cast(kind, Box::new(alloc, inner.expression)?),
        })
    }

    pub fn unary(alloc: Global, operator: UnaryOperator, inner: Measured) -> Result<Measured, Fault>
        requires { inner.height ≤ 255 }
        ensures ok { IfOk result (λ made. expression_tree made.expression ≡ Unary operator (expression_tree inner.expression)) }
        ensures err { IfErr result (λ e. e ≡ Fault.NoMemory) }
    {
        Ok(Measured {
            height: 1 + inner.height,
            expression: Expression::Unary(operator, Box::new(alloc, inner.expression)?),
        })
    }

    pub fn binary(
        alloc: Global,
        operator: BinaryOperator,
        left: Measured,
        right: Measured,
    ) -> Result<Measured, Fault>
        requires left { left.height ≤ 255 }
        requires right { right.height ≤ 255 }
        ensures ok { IfOk result (λ made. IsBinary made.expression operator left.expression right.expression) }
        ensures err { IfErr result (λ e. e ≡ Fault.NoMemory) }
    {
        let height = 1 + left.height.max(right.height);
        let (left, right) = boxes(alloc, left.expression, right.expression)?;
        Ok(Measured {
            expression: Expression::Binary(operator, left, right),
            height,
        })
    }

    pub fn conditional(
        alloc: Global,
        condition: Measured,
        then: Measured,
        other: Measured,
    ) -> Result<Measured, Fault>
        requires condition { condition.height ≤ 255 }
        requires then { then.height ≤ 255 }
        requires other { other.height ≤ 255 }
        ensures ok { IfOk result (λ made. IsChoice made.expression condition.expression then.expression other.expression) }
        ensures err { IfErr result (λ e. e ≡ Fault.NoMemory) }
    {
        let height = 1 + condition.height.max(then.height.max(other.height));
        let both = boxes(alloc, condition.expression, then.expression);
        let (other, (condition, then)) = beside(other.expression, both)?;
        let other = Box::new(alloc, other)?;
        Ok(Measured {
            expression: Expression::Conditional(condition, then, other),
            height,
        })
    }
}
