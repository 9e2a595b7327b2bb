//! What is true of every term in memory: its constants are words of 32 bits.

ghost use Rattle.std.specs.Prelude.{All};
ghost use Rattle.c_program.specs.Views.{term_tree, given_tree};
ghost use Rattle.cminor_lowering.specs.Held.{HasWords, GivenHasWords};

use c_program::{Term, Value};

/// Each constant of a term is a word. What calls itself does so at most as often as the term is high.
pub(crate) fn term_words(term: &Term)
    ensures { HasWords (term_tree term.now) }
{
    match term {
        Term::Constant(word) => {
            let _word = *word;
        }
        Term::Local(_) => {}
        Term::Cell(_, index) => term_words(index),
        Term::Unary(_, operand) => term_words(operand),
        Term::Binary(_, left, right) => {
            term_words(left);
            term_words(right);
        }
        Term::Both(left, right) => {
            term_words(left);
            term_words(right);
        }
        Term::Either(left, right) => {
            term_words(left);
            term_words(right);
        }
        Term::Conditional(condition, then, other) => {
            term_words(condition);
            term_words(then);
            term_words(other);
        }
    }
}

fn each_term_words(terms: &[Term])
    ensures { All (λ t. HasWords (term_tree t)) terms.now }
{
    for term in terms {
        term_words(term);
    }
}

/// Each constant of what gives a value is a word.
pub(crate) fn value_words(value: &Value)
    ensures { GivenHasWords (given_tree value.now) }
{
    match value {
        Value::Term(term) => term_words(term),
        Value::Call(call) => each_term_words(call.arguments.as_slice()),
        Value::Put(term) => term_words(term),
    }
}
