//! Which tokens stand behind those of the parts of a statement.

ghost use Rattle.std.specs.Prelude.{◌≡◌, map};
ghost use Rattle.c_syntax.specs.Views.{expression_tree, call_tree, value_tree};
ghost use Rattle.c_faults_tokens.specs.Tokens.{next, start, is_int, without_int, behind_type, behind_expression, behind_more, behind_commas, behind_call, behind_value};

use c_syntax::{Call, Expression, IntegerType, Keyword, Token, TokenKind, Value};

/// The tokens behind the first.
pub fn next(tokens: &[Token]) -> &[Token]
    ensures { result.now ≡ next tokens.now }
{
    match tokens {
        [_, rest @ ..] => rest,
        [] => tokens,
    }
}

/// Where the first token begins: 0 where there is none.
pub fn start(tokens: &[Token]) -> usize
    ensures { result ≡ start tokens.now }
{
    match tokens {
        [first, ..] => first.start,
        [] => 0,
    }
}

fn is_int(kind: &TokenKind) -> bool
    ensures { result ≡ is_int kind.now }
{
    match kind {
        TokenKind::Keyword(Keyword::Int) => true,
        _ => false,
    }
}

/// The tokens without a word `int` in front.
fn without_int(tokens: &[Token]) -> &[Token]
    ensures { result.now ≡ without_int tokens.now }
{
    match tokens {
        [first, rest @ ..] => { if is_int(&first.kind) { rest } else { tokens } }
        [] => tokens,
    }
}

/// The tokens behind those of a type: `unsigned` may be written `unsigned int`.
pub fn behind_type(kind: IntegerType, tokens: &[Token]) -> &[Token]
    ensures { result.now ≡ behind_type kind tokens.now }
{
    let rest = next(tokens);
    match kind {
        IntegerType::Int => rest,
        IntegerType::Unsigned => without_int(rest),
    }
}

/// The tokens behind those of an expression. What calls itself does so at most as often as the expression is high.
pub fn behind_expression<'a>(expression: &Expression, tokens: &'a [Token]) -> &'a [Token]
    ensures { result.now ≡ behind_expression (expression_tree expression.now) tokens.now }
{
    match expression {
        Expression::Constant(_) | Expression::Variable(_) => next(tokens),
        Expression::Element(_, index) => next(behind_expression(index, next(next(tokens)))),
        Expression::Parenthesis(inner) => next(behind_expression(inner, next(tokens))),
        Expression::Cast(kind, inner) => {
            behind_expression(inner, next(behind_type(*kind, next(tokens))))
        }
        Expression::Unary(_, operand) => behind_expression(operand, next(tokens)),
        Expression::Binary(_, first, second) => {
            behind_expression(second, next(behind_expression(first, tokens)))
        }
        Expression::Conditional(condition, then, other) => {
            let question = behind_expression(condition, tokens);
            let colon = behind_expression(then, next(question));
            behind_expression(other, next(colon))
        }
    }
}

/// The tokens behind expressions, each behind a comma.
fn behind_more<'a>(expressions: &[Expression], tokens: &'a [Token]) -> &'a [Token]
    ensures { result.now ≡ behind_more (map expression_tree expressions.now) tokens.now }
{
    let mut left = expressions;
    let mut rest = tokens;
    while let [first, more @ ..] = left {
        rest = behind_expression(first, next(rest));
        left = more;
    }
    rest
}

/// The tokens behind expressions with a comma between each two.
fn behind_commas<'a>(expressions: &[Expression], tokens: &'a [Token]) -> &'a [Token]
    ensures { result.now ≡ behind_commas (map expression_tree expressions.now) tokens.now }
{
    match expressions {
        [first, more @ ..] => behind_more(more, behind_expression(first, tokens)),
        [] => tokens,
    }
}

pub fn behind_call<'a>(call: &Call, tokens: &'a [Token]) -> &'a [Token]
    ensures { result.now ≡ behind_call (call_tree call.now) tokens.now }
{
    next(behind_commas(call.arguments.as_slice(), next(next(tokens))))
}

/// The tokens behind those of a value.
pub fn behind_value<'a>(value: &Value, tokens: &'a [Token]) -> &'a [Token]
    ensures { result.now ≡ behind_value (value_tree value.now) tokens.now }
{
    match value {
        Value::Expression(expression) => behind_expression(expression, tokens),
        Value::Call(call) => behind_call(call, tokens),
    }
}
