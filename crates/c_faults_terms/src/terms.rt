//! The places of the parts of terms.

ghost use Rattle.std.specs.Prelude.{◌≡◌, OnOk};
ghost use Rattle.c_program.specs.Views.{term_tree};
ghost use Rattle.c_faults_terms.specs.Adding.{Adds, AddsTerm};
ghost use Rattle.c_faults_terms.specs.Terms.{same, part, first, second, third, is_turned};

use c_faults_tokens::{behind_expression, behind_type, next, start};
use c_program::Term;
use c_syntax::{BinaryOperator, Expression, Token, UnaryOperator};
use lang_base::NoMemory;

/// One place for each part of a term. What calls itself does so at most as often as the term is high.
pub fn add_same(places: &mut Vec<usize>, place: usize, term: &Term) -> Result<(), NoMemory>
    ensures { OnOk result (Adds places.old.items places.new.items (same place (term_tree term.now))) }
{
    places.push(place)?;
    match term {
        Term::Constant(_) | Term::Local(_) => Ok(()),
        Term::Cell(_, part) | Term::Unary(_, part) => add_same(places, place, part),
        Term::Binary(_, first, second) | Term::Both(first, second) | Term::Either(first, second) =>
            {
                add_same(places, place, first)?;
                add_same(places, place, second)
            }
        Term::Conditional(condition, then, other) => {
            add_same(places, place, condition)?;
            add_same(places, place, then)?;
            add_same(places, place, other)
        }
    }
}

/// The only part of a term, the term itself where it has none.
fn part(term: &Term) -> &Term
    ensures { term_tree result.now ≡ part (term_tree term.now) }
{
    match term {
        Term::Cell(_, part) | Term::Unary(_, part) => part,
        _ => term,
    }
}

/// The first part of a term, the term itself where it has none.
pub fn first(term: &Term) -> &Term
    ensures { term_tree result.now ≡ first (term_tree term.now) }
{
    match term {
        Term::Binary(_, first, _) | Term::Both(first, _) | Term::Either(first, _) => first,
        Term::Conditional(condition, _, _) => condition,
        _ => term,
    }
}

/// The second part of a term, the term itself where it has none.
pub fn second(term: &Term) -> &Term
    ensures { term_tree result.now ≡ second (term_tree term.now) }
{
    match term {
        Term::Binary(_, _, second) | Term::Both(_, second) | Term::Either(_, second) => second,
        Term::Conditional(_, then, _) => then,
        _ => term,
    }
}

/// The third part of a term, the term itself where it has none.
fn third(term: &Term) -> &Term
    ensures { term_tree result.now ≡ third (term_tree term.now) }
{
    match term {
        Term::Conditional(_, _, other) => other,
        _ => term,
    }
}

fn is_turned(operator: BinaryOperator) -> bool
    ensures { result ≡ is_turned operator }
{
    match operator {
        BinaryOperator::Greater | BinaryOperator::GreaterEqual => true,
        _ => false,
    }
}

/// The places of an expression's parts, which stands for this term. What calls itself does so at most as often as the
/// expression is high.
pub fn add_term(
    places: &mut Vec<usize>,
    expression: &Expression,
    term: &Term,
    tokens: &[Token],
) -> Result<(), NoMemory>
    ensures { OnOk result (AddsTerm places.old.items places.new.items expression.now term.now tokens.now) }
{
    match expression {
        Expression::Constant(_) | Expression::Variable(_) => add_same(places, start(tokens), term),
        Expression::Element(_, index) => {
            places.push(start(tokens))?;
            add_term(places, index, part(term), next(next(tokens)))
        }
        Expression::Parenthesis(inner) => add_term(places, inner, term, next(tokens)),
        Expression::Cast(kind, inner) => {
            add_term(places, inner, term, next(behind_type(*kind, next(tokens))))
        }
        Expression::Unary(UnaryOperator::Plus, operand) => {
            add_term(places, operand, term, next(tokens))
        }
        Expression::Unary(_, operand) => {
            places.push(start(tokens))?;
            add_term(places, operand, part(term), next(tokens))
        }
        Expression::Binary(operator, one, other) => {
            let sign = behind_expression(one, tokens);
            places.push(start(sign))?;
            if is_turned(*operator) {
                add_term(places, other, first(term), next(sign))?;
                add_term(places, one, second(term), tokens)
            } else {
                add_term(places, one, first(term), tokens)?;
                add_term(places, other, second(term), next(sign))
            }
        }
        Expression::Conditional(condition, then, other) => {
            let question = behind_expression(condition, tokens);
            let colon = behind_expression(then, next(question));
            places.push(start(question))?;
            add_term(places, condition, first(term), tokens)?;
            add_term(places, then, second(term), next(question))?;
            add_term(places, other, third(term), next(colon))
        }
    }
}
