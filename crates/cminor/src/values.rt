//! Values, and what they are given to.

ghost use Rattle.std.specs.Prelude.{◌≡◌, ◌<◌, ℕ, Option, All, IfOk};
ghost use Rattle.c_program.specs.Views.{term_tree, given_tree};
ghost use Rattle.cminor_syntax.specs.Fits.{ExpressionFits, StatementFits};
ghost use Rattle.cminor_syntax.specs.Trees.{StatementTree};
ghost use Rattle.cminor_syntax.specs.Views.{statement_tree};
ghost use Rattle.cminor_lowering.specs.Actions.{low_plain, low_given_by, low_given};
ghost use Rattle.cminor_lowering.specs.Terms.{low_term};
ghost use Rattle.c_program.specs.declared.action.Value.TheVariants.{Call};
ghost use Rattle.c_program.specs.Trees as T;
ghost use Rattle.cminor.specs.Space.{HasRoom};

use crate::parts::two;
use crate::{lower_term, lower_terms};
use c_program::{Called, Target, Term, Value};
use cminor_syntax::{Expression, Statement};
use lang_base::{NoMemory, Row};
use std::alloc::Global;

/// The variable that a call or `putchar` gives its word to: the local itself, or the spare one where the word
/// goes on from there.
fn variable_for(spare: u16, target: Target) -> Option<u16>
    requires { HasRoom target }
    ensures { (s : Option ℕ → StatementTree) → low_given_by spare target s ≡ low_given_by spare target (λ v. s result) }
{
    match target {
        Target::Nowhere => None,
        Target::Local(number) => Some(number as u16),
        Target::Global(_) | Target::Caller => Some(spare),
    }
}

/// A statement that gives its word to the variable of its target, and what takes the word on from there.
fn given_on(
    alloc: Global,
    spare: u16,
    target: Target,
    gives: Statement,
) -> Result<Statement, NoMemory>
    requires { HasRoom target }
    ensures { IfOk result (λ s. statement_tree s ≡ low_given_by spare target (λ v. statement_tree gives)) }
{
    let word = Expression::Variable(spare);
    match target {
        Target::Nowhere | Target::Local(_) => Ok(gives),
        Target::Global(global) => {
            let stores = Statement::Store(global as u16, Expression::Constant(0), word);
            two(alloc, gives, stores)
        }
        Target::Caller => two(alloc, gives, Statement::Return(Some(word))),
    }
}

/// An expression whose word goes to its target. One that goes nowhere is left out.
fn lower_plain(alloc: Global, target: Target, term: &Term) -> Result<Statement, NoMemory>
    requires { StatementFits 65536 (low_plain target (low_term (term_tree term.now))) }
    ensures { IfOk result (λ s. statement_tree s ≡ low_plain target (low_term (term_tree term.now))) }
{
    match target {
        Target::Nowhere => Ok(Statement::Skip),
        Target::Local(number) => { Ok(Statement::Assign(number as u16, lower_term(alloc, term)?)) }
        Target::Global(global) => {
            let word = lower_term(alloc, term)?;
            Ok(Statement::Store(global as u16, Expression::Constant(0), word))
        }
        Target::Caller => Ok(Statement::Return(Some(lower_term(alloc, term)?))),
    }
}

/// A call whose word goes to its target.
fn lower_call(
    alloc: Global,
    spare: u16,
    target: Target,
    called: &Called,
) -> Result<Statement, NoMemory>
    requires function { called.now.function < 256 }
    requires target { HasRoom target }
    requires arguments { All (λ t. ExpressionFits 65536 (low_term (term_tree t))) called.now.arguments }
    ensures { IfOk result (λ s. statement_tree s ≡ low_given spare target (given_tree (Call called.now))) }
{
    let arguments = lower_terms(alloc, called.arguments.as_slice())?;
    let variable = variable_for(spare, target);
    let call = Statement::Call(called.function as u8, variable, Row::from_vec(arguments));
    given_on(alloc, spare, target, call)
}

/// The printing of a byte, which goes to its target.
fn lower_put(alloc: Global, spare: u16, target: Target, term: &Term) -> Result<Statement, NoMemory>
    requires target { HasRoom target }
    requires term { ExpressionFits 65536 (low_term (term_tree term.now)) }
    ensures { IfOk result (λ s. statement_tree s ≡ low_given spare target (T.Put (term_tree term.now))) }
{
    let word = lower_term(alloc, term)?;
    let variable = variable_for(spare, target);
    given_on(alloc, spare, target, Statement::Put(variable, word))
}

/// The statement that gives a value to its target.
pub(crate) fn lower_given(
    alloc: Global,
    spare: u16,
    target: Target,
    value: &Value,
) -> Result<Statement, NoMemory>
    requires { StatementFits 65536 (low_given spare target (given_tree value.now)) }
    ensures { IfOk result (λ s. statement_tree s ≡ low_given spare target (given_tree value.now)) }
{
    match value {
        Value::Term(term) => lower_plain(alloc, target, term),
        Value::Call(called) => lower_call(alloc, spare, target, called),
        Value::Put(term) => lower_put(alloc, spare, target, term),
    }
}
