//! Readers of the signs that change an lvalue.

ghost use Rattle.std.specs.Prelude.{◌≡◌, IfOk, IfErr, Ok, Err};
ghost use Rattle.c_reader_tokens.specs.Assigning.{assign_of, step_of, of_sign, assign_operator, step_operator, is_step_next};

use crate::fault::Fault;
use crate::reading::misfit;
use c_syntax::{AssignOperator, Punctuator, Token, TokenKind};

/// The operator of a compound assignment that a sign stands for, if any.
fn assign_of(sign: Punctuator) -> Option<AssignOperator>
    ensures { result ≡ assign_of sign }
{
    match sign {
        Punctuator::StarAssign => Some(AssignOperator::Multiply),
        Punctuator::SlashAssign => Some(AssignOperator::Divide),
        Punctuator::PercentAssign => Some(AssignOperator::Remainder),
        Punctuator::PlusAssign => Some(AssignOperator::Add),
        Punctuator::MinusAssign => Some(AssignOperator::Subtract),
        Punctuator::ShiftLeftAssign => Some(AssignOperator::ShiftLeft),
        Punctuator::ShiftRightAssign => Some(AssignOperator::ShiftRight),
        Punctuator::AndAssign => Some(AssignOperator::And),
        Punctuator::CaretAssign => Some(AssignOperator::Xor),
        Punctuator::OrAssign => Some(AssignOperator::Or),
        _ => None,
    }
}

/// What `++` and `--` stand for.
fn step_of(sign: Punctuator) -> Option<AssignOperator>
    ensures { result ≡ step_of sign }
{
    match sign {
        Punctuator::Increment => Some(AssignOperator::Add),
        Punctuator::Decrement => Some(AssignOperator::Subtract),
        _ => None,
    }
}

/// The operator of the compound assignment that a token is, if any.
fn assign_at(kind: &TokenKind) -> Option<AssignOperator>
    ensures { result ≡ of_sign assign_of kind.now }
{
    match kind {
        TokenKind::Punctuator(sign) => assign_of(*sign),
        _ => None,
    }
}

/// The operator of the `++` or `--` that a token is, if any.
fn step_at(kind: &TokenKind) -> Option<AssignOperator>
    ensures { result ≡ of_sign step_of kind.now }
{
    match kind {
        TokenKind::Punctuator(sign) => step_of(*sign),
        _ => None,
    }
}

/// The sign of a compound assignment (C99 6.5.16.2).
#[tactic(auto, unfolding(crate::specs::Assigning::assign_operator))]
pub fn read_assign_operator(tokens: &[Token]) -> Result<(AssignOperator, &[Token]), Fault>
    ensures ok { IfOk result (λ r. assign_operator tokens.now ≡ Ok (r.0, r.1.now)) }
    ensures err { IfErr result (λ e. assign_operator tokens.now ≡ Err e) }
{
    if let [token, rest @ ..] = tokens {
        if let Some(operator) = assign_at(&token.kind) {
            return Ok((operator, rest));
        }
    }
    Err(misfit(tokens))
}

/// `++` or `--` (C99 6.5.2.4 and 6.5.3.1).
#[tactic(auto, unfolding(crate::specs::Assigning::step_operator))]
pub fn read_step_operator(tokens: &[Token]) -> Result<(AssignOperator, &[Token]), Fault>
    ensures ok { IfOk result (λ r. step_operator tokens.now ≡ Ok (r.0, r.1.now)) }
    ensures err { IfErr result (λ e. step_operator tokens.now ≡ Err e) }
{
    if let [token, rest @ ..] = tokens {
        if let Some(operator) = step_at(&token.kind) {
            return Ok((operator, rest));
        }
    }
    Err(misfit(tokens))
}

/// Whether `++` or `--` is next.
pub fn is_step_next(tokens: &[Token]) -> bool
    ensures { result ≡ is_step_next tokens.now }
{
    match tokens {
        [] => false,
        [token, _rest @ ..] => step_at(&token.kind).is_some(),
    }
}
