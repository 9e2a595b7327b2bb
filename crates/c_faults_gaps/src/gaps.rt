//! Which part of an expression has no value.

ghost use Rattle.std.specs.Prelude.{◌≡◌, [], ◌∷◌, map};
ghost use Rattle.c_program.specs.Values.{computed};
ghost use Rattle.c_program.specs.Views.{term_tree};
ghost use Rattle.c_faults.specs.Gaps.{unless_there, earlier, cell_gap, one_gap, two_gap, gap, first_gap};
ghost use Rattle.c_faults_gaps.specs.Found.{Worth};
ghost use Rattle.c_meaning_machine.specs.Scopes.{variables_of};

use crate::places::{behind, others, own};
use c_faults::{Cause, Gap};
use c_meaning_machine::{Scope, evaluate};
use c_program::Term;
use ints::{Op, eval_c};

/// A gap where there is no word.
fn unless_there(word: Option<u32>, cause: Cause, at: usize) -> Option<Gap>
    ensures { result ≡ unless_there word cause at }
{
    match word {
        Some(_) => None,
        None => Some(Gap { cause, place: at }),
    }
}

/// Of two gaps the one that stands first in the text.
fn earlier(first: Option<Gap>, second: Option<Gap>) -> Option<Gap>
    ensures { result ≡ earlier first second }
{
    match (first, second) {
        (Some(one), Some(other)) => {
            if one.place <= other.place {
                Some(one)
            } else {
                Some(other)
            }
        }
        (Some(one), None) => Some(one),
        (None, other) => other,
    }
}

/// A cell that is not there, where the index has a word.
pub(crate) fn cell_gap(at: usize, scope: &Scope, global: usize, index: Option<u32>) -> Option<Gap>
    ensures { result ≡ cell_gap at scope.now.globals.items global index }
{
    match index {
        None => None,
        Some(index) => unless_there(scope.cell(global, index), Cause::Past(global, index), at),
    }
}

/// What an operator gives of a word.
#[tactic(auto, unfolding(ints::specs::Codes::argument_count_of, ints::specs::CTable::c_table))]
fn of_one(op: Op, word: u32) -> Option<u32>
    ensures { result ≡ computed op (word ∷ []) }
{
    if op.argument_count() != 1 {
        return None;
    }
    eval_c(op, &[word]).ok()
}

/// What an operator gives of two words.
#[tactic(auto, unfolding(ints::specs::Codes::argument_count_of, ints::specs::CTable::c_table))]
fn of_two(op: Op, first: u32, second: u32) -> Option<u32>
    ensures { result ≡ computed op (first ∷ second ∷ []) }
{
    if op.argument_count() != 2 {
        return None;
    }
    eval_c(op, &[first, second]).ok()
}

/// An operator that has no value for its word, where it is there.
fn one_gap(at: usize, op: Op, word: Option<u32>) -> Option<Gap>
    ensures { result ≡ one_gap at op word }
{
    match word {
        None => None,
        Some(word) => unless_there(of_one(op, word), Cause::One(op, word), at),
    }
}

/// The same of an operator on two words.
pub(crate) fn two_gap(at: usize, op: Op, first: Option<u32>, second: Option<u32>) -> Option<Gap>
    ensures { result ≡ two_gap at op first second }
{
    match (first, second) {
        (Some(one), Some(other)) => {
            unless_there(of_two(op, one, other), Cause::Two(op, one, other), at)
        }
        _ => None,
    }
}

/// The first part of a term that has no value, by the places of its parts. What calls itself does so at most as often as
/// the term is high.
pub fn gap(term: &Term, places: &[usize], scope: &Scope) -> Option<Gap>
    ensures { result ≡ gap places.now (variables_of scope.now) (term_tree term.now) }
{
    let at = own(places);
    let parts = others(places);
    match term {
        Term::Constant(_) => None,
        Term::Local(number) => unless_there(scope.local(*number), Cause::Unset, at),
        Term::Cell(global, index) => match gap(index, parts, scope) {
            Some(found) => Some(found),
            None => cell_gap(at, scope, *global, evaluate(index, scope)),
        },
        Term::Unary(op, operand) => match gap(operand, parts, scope) {
            Some(found) => Some(found),
            None => one_gap(at, *op, evaluate(operand, scope)),
        },
        Term::Binary(op, first, second) => {
            let one = gap(first, parts, scope);
            let other = gap(second, behind(first, parts), scope);
            match earlier(one, other) {
                Some(found) => Some(found),
                None => two_gap(at, *op, evaluate(first, scope), evaluate(second, scope)),
            }
        }
        Term::Both(first, second) => match evaluate(first, scope) {
            None => gap(first, parts, scope),
            Some(0) => None,
            Some(_) => gap(second, behind(first, parts), scope),
        },
        Term::Either(first, second) => match evaluate(first, scope) {
            None => gap(first, parts, scope),
            Some(0) => gap(second, behind(first, parts), scope),
            Some(_) => None,
        },
        Term::Conditional(condition, then, other) => {
            let behind_condition = behind(condition, parts);
            match evaluate(condition, scope) {
                None => gap(condition, parts, scope),
                Some(0) => gap(other, behind(then, behind_condition), scope),
                Some(_) => gap(then, behind_condition, scope),
            }
        }
    }
}

/// The first gap of some terms.
pub fn first_gap(terms: &[Term], places: &[usize], scope: &Scope) -> Option<Gap>
    ensures { result ≡ first_gap places.now (variables_of scope.now) (map term_tree terms.now) }
{
    let mut left = terms;
    let mut rest = places;
    while let [first, more @ ..] = left {
        if let Some(found) = gap(first, rest, scope) {
            return Some(found);
        }
        rest = behind(first, rest);
        left = more;
    }
    None
}

/// A term's word, or the first part of it that has no value.
#[tactic(auto, using(crate::proofs::Telling::no_gap, crate::proofs::Telling::some_gap))]
pub fn worth(term: &Term, places: &[usize], scope: &Scope) -> Result<u32, Gap>
    ensures { Worth places.now term.now scope.now result }
{
    match evaluate(term, scope) {
        Some(word) => Ok(word),
        None => match gap(term, places, scope) {
            Some(found) => Err(found),
            None => Ok(0),
        },
    }
}
