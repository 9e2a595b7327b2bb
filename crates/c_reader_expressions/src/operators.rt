//! Which operators the signs stand for, and how an expression goes on.

ghost use Rattle.std.specs.Prelude.{◌≡◌, ◌≤◌, Err};
ghost use Rattle.c_syntax.specs.Trees.{ExpressionTree};
ghost use Rattle.c_syntax.specs.Signs.{unary_sign, binary_sign, binding};
ghost use Rattle.c_reader_tokens.specs.Reading.{deep};
ghost use Rattle.c_reader_expression_laws.specs.Operators.{unary_of, binary_of, begins_operand, next_at, next};

use c_reader_expression_laws::Next;
use c_reader_tokens::{Fault, misfit};
use c_syntax::{BinaryOperator, Punctuator, Token, TokenKind, UnaryOperator};

/// The unary operator that a sign stands for, if any.
pub fn unary_operator(sign: Punctuator) -> Option<UnaryOperator>
    ensures { result ≡ unary_of sign }
{
    match sign {
        Punctuator::Minus => Some(UnaryOperator::Minus),
        Punctuator::Plus => Some(UnaryOperator::Plus),
        Punctuator::Tilde => Some(UnaryOperator::Complement),
        Punctuator::Exclamation => Some(UnaryOperator::Not),
        _ => None,
    }
}

/// The sign of a unary operator.
pub fn unary_sign(operator: UnaryOperator) -> Punctuator
    ensures { result ≡ unary_sign operator }
{
    match operator {
        UnaryOperator::Minus => Punctuator::Minus,
        UnaryOperator::Plus => Punctuator::Plus,
        UnaryOperator::Complement => Punctuator::Tilde,
        UnaryOperator::Not => Punctuator::Exclamation,
    }
}

/// The binary operator that a sign stands for, if any.
pub fn binary_operator(sign: Punctuator) -> Option<BinaryOperator>
    ensures { result ≡ binary_of sign }
{
    match sign {
        Punctuator::OrOr => Some(BinaryOperator::LogicalOr),
        Punctuator::AndAnd => Some(BinaryOperator::LogicalAnd),
        Punctuator::Or => Some(BinaryOperator::Or),
        Punctuator::Caret => Some(BinaryOperator::Xor),
        Punctuator::And => Some(BinaryOperator::And),
        Punctuator::Equal => Some(BinaryOperator::Equal),
        Punctuator::NotEqual => Some(BinaryOperator::NotEqual),
        Punctuator::Less => Some(BinaryOperator::Less),
        Punctuator::Greater => Some(BinaryOperator::Greater),
        Punctuator::LessEqual => Some(BinaryOperator::LessEqual),
        Punctuator::GreaterEqual => Some(BinaryOperator::GreaterEqual),
        Punctuator::ShiftLeft => Some(BinaryOperator::ShiftLeft),
        Punctuator::ShiftRight => Some(BinaryOperator::ShiftRight),
        Punctuator::Plus => Some(BinaryOperator::Add),
        Punctuator::Minus => Some(BinaryOperator::Subtract),
        Punctuator::Star => Some(BinaryOperator::Multiply),
        Punctuator::Slash => Some(BinaryOperator::Divide),
        Punctuator::Percent => Some(BinaryOperator::Remainder),
        _ => None,
    }
}

/// The sign of a binary operator.
pub fn binary_sign(operator: BinaryOperator) -> Punctuator
    ensures { result ≡ binary_sign operator }
{
    match operator {
        BinaryOperator::LogicalOr => Punctuator::OrOr,
        BinaryOperator::LogicalAnd => Punctuator::AndAnd,
        BinaryOperator::Or => Punctuator::Or,
        BinaryOperator::Xor => Punctuator::Caret,
        BinaryOperator::And => Punctuator::And,
        BinaryOperator::Equal => Punctuator::Equal,
        BinaryOperator::NotEqual => Punctuator::NotEqual,
        BinaryOperator::Less => Punctuator::Less,
        BinaryOperator::Greater => Punctuator::Greater,
        BinaryOperator::LessEqual => Punctuator::LessEqual,
        BinaryOperator::GreaterEqual => Punctuator::GreaterEqual,
        BinaryOperator::ShiftLeft => Punctuator::ShiftLeft,
        BinaryOperator::ShiftRight => Punctuator::ShiftRight,
        BinaryOperator::Add => Punctuator::Plus,
        BinaryOperator::Subtract => Punctuator::Minus,
        BinaryOperator::Multiply => Punctuator::Star,
        BinaryOperator::Divide => Punctuator::Slash,
        BinaryOperator::Remainder => Punctuator::Percent,
    }
}

/// How strongly a binary operator binds, from 1, the weakest.
pub fn binding(operator: BinaryOperator) -> u8
    ensures value { result ≡ binding operator }
    ensures low { result ≤ 10 }
{
    match operator {
        BinaryOperator::LogicalOr => 1,
        BinaryOperator::LogicalAnd => 2,
        BinaryOperator::Or => 3,
        BinaryOperator::Xor => 4,
        BinaryOperator::And => 5,
        BinaryOperator::Equal | BinaryOperator::NotEqual => 6,
        BinaryOperator::Less
        | BinaryOperator::Greater
        | BinaryOperator::LessEqual
        | BinaryOperator::GreaterEqual => 7,
        BinaryOperator::ShiftLeft | BinaryOperator::ShiftRight => 8,
        BinaryOperator::Add | BinaryOperator::Subtract => 9,
        BinaryOperator::Multiply | BinaryOperator::Divide | BinaryOperator::Remainder => 10,
    }
}

/// How an expression of a level goes on with a token.
fn next_at(level: u8, kind: &TokenKind) -> Next
    ensures { result ≡ next_at level kind.now }
{
    let TokenKind::Punctuator(sign) = kind else {
        return Next::Stop;
    };
    if *sign == Punctuator::Question {
        return if level == 0 { Next::Choice } else { Next::Stop };
    }
    match binary_operator(*sign) {
        Some(operator) if level <= binding(operator) => Next::Operator(operator),
        _ => Next::Stop,
    }
}

/// How an expression of a level goes on.
#[tactic(auto, unfolding(c_reader_expression_laws::specs::Operators::next))]
pub fn next(level: u8, tokens: &[Token]) -> Next
    ensures { result ≡ next level tokens.now }
{
    match tokens {
        [] => Next::Stop,
        [token, _rest @ ..] => next_at(level, &token.kind),
    }
}

/// The fault where no fuel is left: too deep where the next token could begin an operand.
pub fn deep(tokens: &[Token]) -> Fault
    ensures { deep {A = ExpressionTree} begins_operand tokens.now ≡ Err result }
{
    match tokens {
        [token, _rest @ ..] if begins_operand(&token.kind) => Fault::TooDeep,
        _ => misfit(tokens),
    }
}

/// Whether an operand may begin with a token.
fn begins_operand(kind: &TokenKind) -> bool
    ensures { result ≡ begins_operand kind.now }
{
    match kind {
        TokenKind::Name(_) | TokenKind::Constant(_) => true,
        TokenKind::Keyword(_) => false,
        TokenKind::Punctuator(sign) => {
            *sign == Punctuator::LeftParenthesis || unary_operator(*sign).is_some()
        }
    }
}
