//! Statements, a line each.

ghost use Rattle.std.specs.List.{flat_map};
ghost use Rattle.lang_base.specs.Texts.{Appends};
ghost use Rattle.cminor_syntax.specs.Trees as T;
ghost use Rattle.cminor_syntax.specs.Views.{expression_tree};
ghost use Rattle.text_cminor.specs.Shown.{shown_target, shown_statement, shown_key, shown_line, shown_one, shown_sequence, shown_store, shown_call, shown_condition, shown_return};

use crate::expression::{push_expression, push_expressions, push_returned};
use cminor_syntax::{Expression, Statement};
use lang_base::NoMemory;
use text_keys::{Key, Letter, Word, end_line, push_bytes, push_key, push_word};

/// The variable that gets a result, if there is one.
fn push_target(out: &mut Vec<u8>, target: Option<u16>) -> Result<(), NoMemory>
    ensures { Appends result (shown_target target) out.old.items out.new.items }
{
    match target {
        None => Ok(()),
        Some(variable) => {
            push_word(out, Word::Lettered(Letter::Variable, u64::from(variable)))?;
            push_key(out, Key::Is)
        }
    }
}

/// A line of one key.
fn push_key_line(out: &mut Vec<u8>, key: Key) -> Result<(), NoMemory>
    ensures { Appends result (shown_line (shown_key key)) out.old.items out.new.items }
{
    push_bytes(out, b" ")?;
    push_key(out, key)?;
    end_line(out)
}

fn push_assign(out: &mut Vec<u8>, variable: u16, value: &Expression) -> Result<(), NoMemory>
    ensures { Appends result (shown_statement (T.Assign variable (expression_tree value.now))) out.old.items out.new.items }
{
    push_bytes(out, b" ")?;
    push_target(out, Some(variable))?;
    push_expression(out, value)?;
    end_line(out)
}

fn push_store(
    out: &mut Vec<u8>,
    global: u16,
    index: &Expression,
    value: &Expression,
) -> Result<(), NoMemory>
    ensures { Appends result (shown_store global index.now value.now) out.old.items out.new.items }
{
    push_bytes(out, b" ")?;
    push_key(out, Key::Store)?;
    push_word(out, Word::Lettered(Letter::Global, u64::from(global)))?;
    push_expression(out, index)?;
    push_expression(out, value)?;
    end_line(out)
}

fn push_call(
    out: &mut Vec<u8>,
    callee: u8,
    target: Option<u16>,
    arguments: &[Expression],
) -> Result<(), NoMemory>
    ensures { Appends result (shown_call callee target arguments.now) out.old.items out.new.items }
{
    push_bytes(out, b" ")?;
    push_target(out, target)?;
    push_key(out, Key::Call)?;
    push_word(out, Word::Lettered(Letter::Function, u64::from(callee)))?;
    push_expressions(out, arguments)?;
    end_line(out)
}

fn push_put(out: &mut Vec<u8>, target: Option<u16>, value: &Expression) -> Result<(), NoMemory>
    ensures { Appends result (shown_statement (T.Put target (expression_tree value.now))) out.old.items out.new.items }
{
    push_bytes(out, b" ")?;
    push_target(out, target)?;
    push_key(out, Key::Put)?;
    push_expression(out, value)?;
    end_line(out)
}

/// The first line of a choice of statements.
fn push_condition(out: &mut Vec<u8>, condition: &Expression) -> Result<(), NoMemory>
    ensures { Appends result (shown_condition condition.now) out.old.items out.new.items }
{
    push_bytes(out, b" ")?;
    push_key(out, Key::If)?;
    push_expression(out, condition)?;
    end_line(out)
}

fn push_exit(out: &mut Vec<u8>, blocks: u16) -> Result<(), NoMemory>
    ensures { Appends result (shown_statement (T.Exit blocks)) out.old.items out.new.items }
{
    push_bytes(out, b" ")?;
    push_key(out, Key::Exit)?;
    push_word(out, Word::Number(u64::from(blocks)))?;
    end_line(out)
}

fn push_return(out: &mut Vec<u8>, value: &Option<Expression>) -> Result<(), NoMemory>
    ensures { Appends result (shown_return value.now) out.old.items out.new.items }
{
    push_bytes(out, b" ")?;
    push_key(out, Key::Return)?;
    push_returned(out, value)?;
    end_line(out)
}

/// Writes a statement, and the statements in it.
#[cycle(statement)]
pub(crate) fn push_statement(out: &mut Vec<u8>, statement: &Statement) -> Result<(), NoMemory>
    ensures { Appends result (shown_one statement.now) out.old.items out.new.items }
{
    match statement {
        Statement::Skip => push_key_line(out, Key::Skip),
        Statement::Assign(variable, value) => push_assign(out, *variable, value),
        Statement::Store(global, index, value) => push_store(out, *global, index, value),
        Statement::Call(callee, target, arguments) => {
            push_call(out, *callee, *target, arguments.as_slice())
        }
        Statement::Put(target, value) => push_put(out, *target, value),
        Statement::Sequence(statements) => {
            let statements = statements.as_slice();
            push_sequence(out, statements)
        }
        Statement::If(condition, then, other) => {
            push_condition(out, condition)?;
            push_statement(out, then)?;
            push_statement(out, other)
        }
        Statement::Loop(body) => {
            push_key_line(out, Key::Loop)?;
            push_statement(out, body)
        }
        Statement::Block(body) => {
            push_key_line(out, Key::Block)?;
            push_statement(out, body)
        }
        Statement::Exit(blocks) => push_exit(out, *blocks),
        Statement::Return(value) => push_return(out, value),
    }
}

/// Writes statements one after the other, and a line that ends them.
#[cycle(statement)]
fn push_sequence(out: &mut Vec<u8>, statements: &[Statement]) -> Result<(), NoMemory>
    ensures { Appends result (shown_sequence statements.now) out.old.items out.new.items }
{
    push_key_line(out, Key::Sequence)?;
    push_each(out, statements)?;
    push_key_line(out, Key::End)
}

/// Writes each statement.
#[cycle(statement)]
fn push_each(out: &mut Vec<u8>, statements: &[Statement]) -> Result<(), NoMemory>
    ensures { Appends result (flat_map shown_one statements.now) out.old.items out.new.items }
{
    for statement in statements {
        push_statement(out, statement)?;
    }
    Ok(())
}
