//! Which tokens stand behind those of a statement.

ghost use Rattle.std.specs.Prelude.{◌≡◌};
ghost use Rattle.c_syntax.specs.Views.{expression_tree, value_tree, lvalue_tree, change_tree, set_tree, local_tree, start_tree, statement_tree, statements_tree, optional_tree};
ghost use Rattle.c_faults_tokens.specs.Tokens.{is_step_sign, begins_with_step, behind_lvalue, behind_change, lvalue_tokens, sign_tokens, behind_head, behind_set, behind_condition, behind_step, behind_returned, behind_beginning, behind_local, behind_start, behind_statement, behind_statements};

use crate::behind::{behind_call, behind_expression, behind_type, behind_value, next};
use c_syntax::{
    Change, Expression, ForStart, Local, Lvalue, Punctuator, Set, Statement, Token, TokenKind,
    Value,
};

/// `++` or `--`.
fn is_step_sign(kind: &TokenKind) -> bool
    ensures { result ≡ is_step_sign kind.now }
{
    match kind {
        TokenKind::Punctuator(Punctuator::Increment | Punctuator::Decrement) => true,
        _ => false,
    }
}

/// Whether `++` or `--` stands here.
pub fn begins_with_step(tokens: &[Token]) -> bool
    ensures { result ≡ begins_with_step tokens.now }
{
    match tokens {
        [first, ..] => is_step_sign(&first.kind),
        [] => false,
    }
}

fn behind_lvalue<'a>(lvalue: &Lvalue, tokens: &'a [Token]) -> &'a [Token]
    ensures { result.now ≡ behind_lvalue (lvalue_tree lvalue.now) tokens.now }
{
    match lvalue {
        Lvalue::Variable(_) => next(tokens),
        Lvalue::Element(_, index) => next(behind_expression(index, next(next(tokens)))),
    }
}

/// The tokens of a change's lvalue.
pub fn lvalue_tokens(tokens: &[Token]) -> &[Token]
    ensures { result.now ≡ lvalue_tokens tokens.now }
{
    if begins_with_step(tokens) {
        next(tokens)
    } else {
        tokens
    }
}

/// The tokens from a change's sign on.
pub fn sign_tokens<'a>(lvalue: &Lvalue, tokens: &'a [Token]) -> &'a [Token]
    ensures { result.now ≡ sign_tokens (lvalue_tree lvalue.now) tokens.now }
{
    if begins_with_step(tokens) {
        tokens
    } else {
        behind_lvalue(lvalue, tokens)
    }
}

/// The tokens behind a change: `++t`, `t++`, or a sign between the lvalue and a value.
fn behind_change<'a>(change: &Change, tokens: &'a [Token]) -> &'a [Token]
    ensures { result.now ≡ behind_change (change_tree change.now) tokens.now }
{
    if begins_with_step(tokens) {
        return behind_lvalue(&change.lvalue, next(tokens));
    }
    let sign = behind_lvalue(&change.lvalue, tokens);
    if begins_with_step(sign) {
        next(sign)
    } else {
        behind_expression(&change.value, next(sign))
    }
}

fn behind_set<'a>(set: &Set, tokens: &'a [Token]) -> &'a [Token]
    ensures { result.now ≡ behind_set (set_tree set.now) tokens.now }
{
    match set {
        Set::Becomes(lvalue, value) => behind_expression(
            value,
            next(behind_lvalue(lvalue, tokens)),
        ),
        Set::Changes(change) => behind_change(change, tokens),
    }
}

/// The tokens behind the condition of a `for`, which may be missing.
pub fn behind_condition<'a>(condition: &Option<Expression>, tokens: &'a [Token]) -> &'a [Token]
    ensures { result.now ≡ behind_condition (optional_tree expression_tree condition.now) tokens.now }
{
    match condition {
        None => tokens,
        Some(expression) => behind_expression(expression, tokens),
    }
}

/// The tokens behind the step of a `for`, which may be missing.
pub fn behind_step<'a>(step: &Option<Set>, tokens: &'a [Token]) -> &'a [Token]
    ensures { result.now ≡ behind_step (optional_tree set_tree step.now) tokens.now }
{
    match step {
        None => tokens,
        Some(set) => behind_set(set, tokens),
    }
}

/// The tokens behind what is returned.
fn behind_returned<'a>(value: &Option<Value>, tokens: &'a [Token]) -> &'a [Token]
    ensures { result.now ≡ behind_returned (optional_tree value_tree value.now) tokens.now }
{
    match value {
        None => tokens,
        Some(value) => behind_value(value, tokens),
    }
}

/// The tokens behind the value of a local, which stands behind `=`.
fn behind_beginning<'a>(value: &Option<Value>, tokens: &'a [Token]) -> &'a [Token]
    ensures { result.now ≡ behind_beginning (optional_tree value_tree value.now) tokens.now }
{
    match value {
        None => tokens,
        Some(value) => behind_value(value, next(tokens)),
    }
}

fn behind_local<'a>(local: &Local, tokens: &'a [Token]) -> &'a [Token]
    ensures { result.now ≡ behind_local (local_tree local.now) tokens.now }
{
    next(behind_beginning(&local.value, next(behind_type(local.kind, tokens))))
}

/// The tokens behind how a `for` begins, with its semicolon.
pub fn behind_start<'a>(start: &ForStart, tokens: &'a [Token]) -> &'a [Token]
    ensures { result.now ≡ behind_start (start_tree start.now) tokens.now }
{
    match start {
        ForStart::Nothing => next(tokens),
        ForStart::Set(set) => next(behind_set(set, tokens)),
        ForStart::Local(kind, _, value) => {
            next(behind_expression(value, next(next(behind_type(*kind, tokens)))))
        }
    }
}

/// The tokens behind an expression in parentheses that a word stands before, and behind its closing one.
pub fn behind_head<'a>(condition: &Expression, tokens: &'a [Token]) -> &'a [Token]
    ensures { result.now ≡ behind_head (expression_tree condition.now) tokens.now }
{
    next(behind_expression(condition, next(next(tokens))))
}

/// The tokens behind a statement. What calls itself does so at most as often as the statement is high.
#[cycle(walking)]
#[tactic(auto, using(crate::proofs::Blocks::view_block))]
pub fn behind_statement<'a>(statement: &Statement, tokens: &'a [Token]) -> &'a [Token]
    ensures { result.now ≡ behind_statement (statement_tree statement.now) tokens.now }
{
    match statement {
        Statement::Empty => next(tokens),
        Statement::Local(local) => behind_local(local, tokens),
        Statement::Block(all) => next(behind_statements(all.as_slice(), next(tokens))),
        Statement::Call(call) => next(behind_call(call, tokens)),
        Statement::Assign(_, value) => next(behind_value(value, next(next(tokens)))),
        Statement::Store(_, index, value) => {
            let sign = next(behind_expression(index, next(next(tokens))));
            next(behind_expression(value, next(sign)))
        }
        Statement::Change(change) => next(behind_change(change, tokens)),
        Statement::If(condition, then) => behind_statement(then, behind_head(condition, tokens)),
        Statement::IfElse(condition, then, other) => {
            let word = behind_statement(then, behind_head(condition, tokens));
            behind_statement(other, next(word))
        }
        Statement::While(condition, body) => {
            behind_statement(body, behind_head(condition, tokens))
        }
        Statement::Do(body, condition) => {
            let word = behind_statement(body, next(tokens));
            next(behind_head(condition, word))
        }
        Statement::For(head, body) => {
            let condition = behind_start(&head.start, next(next(tokens)));
            let step = next(behind_condition(&head.condition, condition));
            behind_statement(body, next(behind_step(&head.step, step)))
        }
        Statement::Break(_) | Statement::Continue(_) => next(next(tokens)),
        Statement::Return(_, value) => next(behind_returned(value, next(tokens))),
    }
}

/// The tokens behind some statements.
#[cycle(walking)]
#[tactic(auto, using(crate::proofs::Lists::behind_one))]
pub fn behind_statements<'a>(statements: &[Statement], tokens: &'a [Token]) -> &'a [Token]
    ensures { result.now ≡ behind_statements (statements_tree statements.now) tokens.now }
{
    let mut rest = tokens;
    for statement in statements {
        rest = behind_statement(statement, rest);
    }
    rest
}
