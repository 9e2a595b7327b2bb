//! Expressions. Braces in what is told show the tree.

use c_reader_expressions::expression;
use c_reader_tokens::Fault;
use c_syntax::{BinaryOperator, Expression, Token, UnaryOperator};
use std::alloc::Global;
use worked_row_files::{fine, numbered, owned, some};

/// What stands in front of an operand; those that no row has are told as one.
fn unary_text(operator: UnaryOperator) -> &'static str {
    match operator {
        UnaryOperator::Minus => "-",
        UnaryOperator::Plus => "+",
        _ => "~",
    }
}

/// What stands between operands; those that no row has are told as one.
fn binary_text(operator: BinaryOperator) -> &'static str {
    match operator {
        BinaryOperator::Add => "+",
        BinaryOperator::Subtract => "-",
        BinaryOperator::Multiply => "*",
        _ => "/",
    }
}

/// A text between two others.
fn around(alloc: Global, front: &str, inner: Option<String>, end: &str) -> Option<String> {
    let inner = some!(inner);
    format!(in alloc; "{front}{inner}{end}").ok()
}

/// Two texts with this one between.
fn between(
    alloc: Global,
    left: Option<String>,
    middle: &str,
    right: Option<String>,
) -> Option<String> {
    let (left, right) = (some!(left), some!(right));
    format!(in alloc; "{left}{middle}{right}").ok()
}

fn name_shown(alloc: Global, name: &[u8]) -> Option<String> {
    let mut out = String::new(alloc);
    for letter in name {
        fine!(out.push(char::from(*letter)));
    }
    Some(out)
}

/// The tree of an expression. Its parts are handed on as they are, made or not, since each exit here would be one for every form.
fn show(alloc: Global, shown: &Expression) -> Option<String> {
    match shown {
        Expression::Constant(constant) => numbered(alloc, "", u64::from(constant.value)),
        Expression::Variable(name) => name_shown(alloc, name.name.as_slice()),
        Expression::Element(array, index) => {
            let front = numbered(alloc, "cell at ", array.offset as u64);
            around(
                alloc,
                "",
                between(alloc, front, " [", show(alloc, index)),
                "]",
            )
        }
        Expression::Parenthesis(inner) => around(alloc, "(", show(alloc, inner), ")"),
        Expression::Cast(_, inner) => around(alloc, "{cast ", show(alloc, inner), "}"),
        Expression::Unary(operator, inner) => {
            let operand = around(alloc, unary_text(*operator), show(alloc, inner), "");
            around(alloc, "{", operand, "}")
        }
        Expression::Binary(operator, left, right) => {
            let (left, right) = (show(alloc, left), show(alloc, right));
            around(
                alloc,
                "{",
                between(alloc, left, binary_text(*operator), right),
                "}",
            )
        }
        Expression::Conditional(condition, then, other) => {
            let condition = between(alloc, show(alloc, condition), "?", show(alloc, then));
            let all = between(alloc, condition, ":", show(alloc, other));
            around(alloc, "{", all, "}")
        }
    }
}

/// What kind of fault it is, and the place of the token.
fn fault_told(alloc: Global, fault: Fault) -> Option<String> {
    match fault {
        Fault::Syntax(Some(place)) => numbered(alloc, "syntax ", place as u64),
        Fault::Syntax(None) => owned(alloc, "syntax"),
        Fault::TooDeep => owned(alloc, "deep"),
        _ => None,
    }
}

/// An expression, and how many tokens are left.
fn shown(alloc: Global, expression: &Expression, left: usize) -> Option<String> {
    let tree = some!(show(alloc, expression));
    format!(in alloc; "{tree} {left}").ok()
}

/// What is read of the tokens, and how many are left.
pub fn expression_told(alloc: Global, tokens: &[Token]) -> Option<String> {
    match expression(alloc, 200, 0, tokens) {
        Ok((found, rest)) => shown(alloc, &found, rest.len()),
        Err(fault) => fault_told(alloc, fault),
    }
}

/// Whether an expression is read.
pub fn height_told(alloc: Global, tokens: &[Token]) -> Option<String> {
    match expression(alloc, 200, 0, tokens) {
        Ok(_found) => owned(alloc, "read"),
        Err(fault) => fault_told(alloc, fault),
    }
}
