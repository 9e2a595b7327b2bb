//! What a global begins with (C99 6.6 and 6.7.8).

ghost use Rattle.std.specs.Prelude.{◌≡◌, [], ◌∷◌};
ghost use Rattle.c_syntax.specs.Views.{expression_tree};
ghost use Rattle.c_program.specs.Values as V;
ghost use Rattle.c_program.specs.Views.{term_tree};
ghost use Rattle.c_checker_rules.specs.Globals as G;

use c_program::Term;
use c_syntax::Expression;
use ints::{Op, eval_c};

/// Whether a name stands in an expression.
pub fn has_name(expression: &Expression) -> bool
    ensures { result ≡ G.has_name (expression_tree expression.now) }
{
    match expression {
        Expression::Constant(_constant) => false,
        Expression::Variable(_name) => true,
        Expression::Element(_name, _index) => true,
        Expression::Parenthesis(inner) => has_name(inner),
        Expression::Cast(_kind, operand) => has_name(operand),
        Expression::Unary(_operator, operand) => has_name(operand),
        Expression::Binary(_operator, left, right) => has_name(left) || has_name(right),
        Expression::Conditional(condition, left, right) => {
            has_name(condition) || has_name(left) || has_name(right)
        }
    }
}

/// What C's table gives for one word; nothing for an operator on two.
#[tactic(auto, using(crate::proofs::Counts::one_only), unfolding(ints::specs::Codes::argument_count_of))]
fn on_one(operator: Op, operand: Option<u32>) -> Option<u32>
    ensures { result ≡ V.on_one operator operand }
{
    let operand = operand?;
    if operator.argument_count() != 1 {
        return None;
    }
    eval_c(operator, &[operand]).ok()
}

/// What C's table gives for two words; nothing for an operator on one.
#[tactic(auto, using(crate::proofs::Counts::two_only), unfolding(ints::specs::Codes::argument_count_of))]
fn on_two(operator: Op, left: Option<u32>, right: Option<u32>) -> Option<u32>
    ensures { result ≡ V.on_two operator left right }
{
    let left = left?;
    let right = right?;
    if operator.argument_count() != 2 {
        return None;
    }
    eval_c(operator, &[left, right]).ok()
}

/// `&&`.
fn both(left: Option<u32>, right: Option<u32>) -> Option<u32>
    ensures { result ≡ V.both left right }
{
    match left? {
        0 => Some(0),
        _ => Some(u32::from(right? != 0)),
    }
}

/// `||`.
fn either(left: Option<u32>, right: Option<u32>) -> Option<u32>
    ensures { result ≡ V.either left right }
{
    match left? {
        0 => Some(u32::from(right? != 0)),
        _ => Some(1),
    }
}

/// `?:`.
fn chosen(condition: Option<u32>, left: Option<u32>, right: Option<u32>) -> Option<u32>
    ensures { result ≡ V.chosen condition left right }
{
    match condition? {
        0 => right,
        _ => left,
    }
}

/// What a term is worth where nothing is declared. It calls itself no deeper than the term is high.
#[tactic(auto, using(crate::proofs::Counts::no_cells))]
pub fn constant_value(term: &Term) -> Option<u32>
    ensures { result ≡ V.value V.nothing_declared (term_tree term.now) }
{
    match term {
        Term::Constant(word) => Some(*word),
        Term::Local(_number) => None,
        Term::Cell(_number, _index) => None,
        Term::Unary(operator, operand) => on_one(*operator, constant_value(operand)),
        Term::Binary(operator, left, right) => {
            let left = constant_value(left);
            on_two(*operator, left, constant_value(right))
        }
        Term::Both(left, right) => both(constant_value(left), constant_value(right)),
        Term::Either(left, right) => either(constant_value(left), constant_value(right)),
        Term::Conditional(condition, left, right) => {
            let condition = constant_value(condition);
            chosen(condition, constant_value(left), constant_value(right))
        }
    }
}
