//! Expressions: an operator, a load and a choice stand in parentheses with their parts.

ghost use Rattle.std.specs.Prelude.{map, ◌++◌};
ghost use Rattle.std.specs.List.{flat_map};
ghost use Rattle.lang_base.specs.Texts.{Appends};
ghost use Rattle.cminor_syntax.specs.Views.{expression_tree, optional_tree};
ghost use Rattle.text_keys.specs.declared.key.Key.TheVariants.{Start, Load};
ghost use Rattle.text_cminor.specs.Shown.{shown_key, global_spaced, shown_expression, shown_value, shown_returned};

use cminor_syntax::Expression;
use lang_base::NoMemory;
use lang_helpers::{WriteOne, push_each};
use text_keys::{Key, Letter, Word, push_key, push_word};

/// Opens parentheses, and says what stands in them.
fn push_opening(out: &mut Vec<u8>, key: Key) -> Result<(), NoMemory>
    ensures { Appends result (shown_key Start ++ shown_key key) out.old.items out.new.items }
{
    push_key(out, Key::Start)?;
    push_key(out, key)
}

/// Opens a load: parentheses, and the global.
fn push_load(out: &mut Vec<u8>, number: u16) -> Result<(), NoMemory>
    ensures { Appends result (shown_key Start ++ (shown_key Load ++ global_spaced number)) out.old.items out.new.items }
{
    push_opening(out, Key::Load)?;
    push_word(out, Word::Lettered(Letter::Global, u64::from(number)))
}

/// Writes an expression.
pub(crate) fn push_expression(out: &mut Vec<u8>, expression: &Expression) -> Result<(), NoMemory>
    ensures { Appends result (shown_value expression.now) out.old.items out.new.items }
{
    match expression {
        Expression::Constant(word) => push_word(out, Word::Number(u64::from(*word))),
        Expression::Variable(variable) => {
            push_word(out, Word::Lettered(Letter::Variable, u64::from(*variable)))
        }
        Expression::Load(global, index) => {
            push_load(out, *global)?;
            push_expression(out, index)?;
            push_key(out, Key::Stop)
        }
        Expression::Unary(op, operand) => {
            push_opening(out, Key::Operator(*op))?;
            push_expression(out, operand)?;
            push_key(out, Key::Stop)
        }
        Expression::Binary(op, left, right) => {
            push_opening(out, Key::Operator(*op))?;
            push_expression(out, left)?;
            push_expression(out, right)?;
            push_key(out, Key::Stop)
        }
        Expression::Choice(condition, then, other) => {
            push_opening(out, Key::Choose)?;
            push_expression(out, condition)?;
            push_expression(out, then)?;
            push_expression(out, other)?;
            push_key(out, Key::Stop)
        }
    }
}

/// Writes expressions.
struct Expressions;

impl WriteOne for Expressions {
    ghost use Rattle.text_cminor.specs.Shown.{shown_value};

    type Item = Expression;

    ghost text = { shown_value };

    fn push(out: &mut Vec<u8>, item: &Expression) -> Result<(), NoMemory> {
        push_expression(out, item)
    }
}

/// Writes each expression.
#[tactic(auto, using(crate::proofs::Texts::expressions_map))]
pub(crate) fn push_expressions(
    out: &mut Vec<u8>,
    expressions: &[Expression],
) -> Result<(), NoMemory>
    ensures { Appends result (flat_map shown_expression (map expression_tree expressions.now)) out.old.items out.new.items }
{
    push_each::<Expressions>(out, expressions)
}

/// Writes an expression, where there is one.
pub(crate) fn push_returned(out: &mut Vec<u8>, value: &Option<Expression>) -> Result<(), NoMemory>
    ensures { Appends result (shown_returned (optional_tree expression_tree value.now)) out.old.items out.new.items }
{
    match value {
        None => Ok(()),
        Some(value) => push_expression(out, value),
    }
}
