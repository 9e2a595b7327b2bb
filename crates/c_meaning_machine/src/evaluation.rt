ghost use Rattle.std.specs.Prelude.{◌≡◌, IfSome};
ghost use Rattle.c_program.specs.Values.{value, truth};
ghost use Rattle.c_program.specs.Views.{term_tree};
ghost use Rattle.c_meaning_machine.specs.AtOnce.{IsWorth};
ghost use Rattle.c_meaning_machine.specs.Scopes.{variables_of};

use crate::operators::{on_one, on_two};
use crate::scope::Scope;
use c_program::Term;

/// What an expression is worth among these locals and globals: none where it goes wrong. An operator between
/// constants and locals is done here, where no call needs registers to be saved.
#[inline(always)]
pub fn evaluate(term: &Term, scope: &Scope) -> Option<u32>
    ensures { result ≡ value (variables_of scope.now) (term_tree term.now) }
{
    match term {
        Term::Constant(word) => Some(*word),
        Term::Local(number) => scope.local(*number),
        Term::Binary(op, first, second) => match leaf(first, scope) {
            Some(left) => {
                let left = left?;
                match leaf(second, scope) {
                    Some(right) => on_two(*op, left, right?),
                    None => evaluate_parts(term, scope),
                }
            }
            None => evaluate_parts(term, scope),
        },
        _ => evaluate_parts(term, scope),
    }
}

/// The same, of any expression by its parts.
#[inline(never)]
fn evaluate_parts(term: &Term, scope: &Scope) -> Option<u32>
    ensures { result ≡ value (variables_of scope.now) (term_tree term.now) }
{
    match term {
        Term::Constant(word) => Some(*word),
        Term::Local(number) => scope.local(*number),
        Term::Cell(global, index) => {
            let index = match leaf(index, scope) {
                Some(word) => word?,
                None => evaluate_parts(index, scope)?,
            };
            scope.cell(*global, index)
        }
        Term::Unary(op, operand) => on_one(*op, evaluate_parts(operand, scope)?),
        Term::Binary(op, first, second) => {
            let left = match leaf(first, scope) {
                Some(word) => word?,
                None => evaluate_parts(first, scope)?,
            };
            let right = match leaf(second, scope) {
                Some(word) => word?,
                None => evaluate_parts(second, scope)?,
            };
            on_two(*op, left, right)
        }
        Term::Both(first, second) => {
            if evaluate_parts(first, scope)? == 0 {
                return Some(0);
            }
            Some(truth(evaluate_parts(second, scope)?))
        }
        Term::Either(first, second) => {
            if evaluate_parts(first, scope)? != 0 {
                return Some(1);
            }
            Some(truth(evaluate_parts(second, scope)?))
        }
        Term::Conditional(condition, then, other) => {
            if evaluate_parts(condition, scope)? != 0 {
                evaluate_parts(then, scope)
            } else {
                evaluate_parts(other, scope)
            }
        }
    }
}

/// The same, of a constant or a local without a call.
#[inline(always)]
pub fn operand(term: &Term, scope: &Scope) -> Option<u32>
    ensures { result ≡ value (variables_of scope.now) (term_tree term.now) }
{
    match leaf(term, scope) {
        Some(word) => word,
        None => evaluate(term, scope),
    }
}

/// What a constant or a local is worth, without a call.
#[inline(always)]
fn leaf(term: &Term, scope: &Scope) -> Option<Option<u32>>
    ensures { IfSome result (IsWorth term.now scope.now) }
{
    match term {
        Term::Constant(word) => Some(Some(*word)),
        Term::Local(number) => Some(scope.local(*number)),
        _ => None,
    }
}

/// 1 for a word that is not 0.
fn truth(word: u32) -> u32
    ensures { result ≡ truth word }
{
    u32::from(word != 0)
}
