//! Terms lowered (Leroy 2009, section 3.1). What calls itself does so at most as often as a term is high.

ghost use Rattle.std.specs.Prelude.{◌≡◌, All, IfOk, map};
ghost use Rattle.c_program.specs.Views.{term_tree};
ghost use Rattle.cminor_syntax.specs.Fits.{ExpressionFits};
ghost use Rattle.cminor_syntax.specs.Views.{expression_tree};
ghost use Rattle.cminor_lowering.specs.Terms.{low_term, truth_of};

use crate::choices::{boxed, choice, truth};
use c_program::Term;
use cminor_syntax::Expression;
use lang_base::NoMemory;
use lang_helpers::beside;
use std::alloc::Global;

/// The expression that a term stands for, in a box.
#[cycle(lowering)]
fn lower_boxed(alloc: Global, term: &Term) -> Result<Box<Expression>, NoMemory>
    requires { ExpressionFits 65536 (low_term (term_tree term.now)) }
    ensures { IfOk result (λ b. expression_tree b.value ≡ low_term (term_tree term.now)) }
{
    boxed(alloc, lower_term(alloc, term)?)
}

/// The expression of whether a term gives a word that is not 0.
#[cycle(lowering)]
fn lower_truth(alloc: Global, term: &Term) -> Result<Expression, NoMemory>
    requires { ExpressionFits 65536 (low_term (term_tree term.now)) }
    ensures { IfOk result (λ e. expression_tree e ≡ truth_of (low_term (term_tree term.now))) }
{
    truth(alloc, lower_term(alloc, term)?)
}

/// The expression that a term stands for. Each number in it has space in its field.
#[cycle(lowering)]
pub fn lower_term(alloc: Global, term: &Term) -> Result<Expression, NoMemory>
    requires { ExpressionFits 65536 (low_term (term_tree term.now)) }
    ensures { IfOk result (λ e. expression_tree e ≡ low_term (term_tree term.now)) }
{
    match term {
        Term::Constant(word) => Ok(Expression::Constant(*word)),
        Term::Local(number) => Ok(Expression::Variable(*number as u16)),
        Term::Cell(global, index) => {
            Ok(Expression::Load(*global as u16, lower_boxed(alloc, index)?))
        }
        Term::Unary(op, operand) => { Ok(Expression::Unary(*op, lower_boxed(alloc, operand)?)) }
        Term::Binary(op, first, second) => {
            let first = lower_boxed(alloc, first)?;
            let (first, second) = beside(first, lower_boxed(alloc, second))?;
            Ok(Expression::Binary(*op, first, second))
        }
        Term::Both(first, second) => {
            let first = lower_term(alloc, first)?;
            let (first, second) = beside(first, lower_truth(alloc, second))?;
            choice(alloc, first, second, Expression::Constant(0))
        }
        Term::Either(first, second) => {
            let first = lower_term(alloc, first)?;
            let (first, second) = beside(first, lower_truth(alloc, second))?;
            choice(alloc, first, Expression::Constant(1), second)
        }
        Term::Conditional(condition, then, other) => {
            let condition = lower_term(alloc, condition)?;
            let (condition, then) = beside(condition, lower_term(alloc, then))?;
            let (parts, other) = beside((condition, then), lower_term(alloc, other))?;
            let (condition, then) = parts;
            choice(alloc, condition, then, other)
        }
    }
}

/// The expressions that some terms stand for.
pub fn lower_terms(alloc: Global, terms: &[Term]) -> Result<Vec<Expression>, NoMemory>
    requires { All (λ t. ExpressionFits 65536 (low_term (term_tree t))) terms.now }
    ensures { IfOk result (λ es. map expression_tree es.items ≡ map low_term (map term_tree terms.now)) }
{
    let mut lowered = Vec::new(alloc);
    for term in terms {
        lowered.push(lower_term(alloc, term)?)?;
    }
    Ok(lowered)
}
