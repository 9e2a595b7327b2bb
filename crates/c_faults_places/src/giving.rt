//! The places of the parts of what gives a value, and of what is stored.

ghost use Rattle.std.specs.Prelude.{◌≡◌, OnOk};
ghost use Rattle.c_syntax.specs.Views.{value_tree};
ghost use Rattle.c_faults_places.specs.Adding.{AddsPart, AddsArguments, AddsValue, AddsGiving, AddsBy, dropped_places, cell_places, returning_places};
ghost use Rattle.c_faults_places.specs.Actions.{given_place};
ghost use Rattle.c_faults_terms.specs.Shapes.{index_of, stored_of, condition_of};

use c_faults_terms::{
    add_term, arguments_of, condition_of, given_of, index_of, plain_of, stored_of,
};
use c_faults_tokens::{behind_expression, next};
use c_program::{Action, Term};
use c_syntax::{Call, Expression, Identifier, Token, Value};
use lang_base::NoMemory;

/// The places of an expression that stands for what is stored, added or given.
pub fn add_stored(
    places: &mut Vec<usize>,
    expression: &Expression,
    action: &Action,
    tokens: &[Token],
) -> Result<(), NoMemory>
    ensures { OnOk result (AddsPart stored_of places.old.items places.new.items expression.now action.now tokens.now) }
{
    match stored_of(action) {
        Some(term) => add_term(places, expression, term, tokens),
        None => Ok(()),
    }
}

/// The places of an expression that stands for the index of a change.
pub fn add_index(
    places: &mut Vec<usize>,
    expression: &Expression,
    action: &Action,
    tokens: &[Token],
) -> Result<(), NoMemory>
    ensures { OnOk result (AddsPart index_of places.old.items places.new.items expression.now action.now tokens.now) }
{
    match index_of(action) {
        Some(term) => add_term(places, expression, term, tokens),
        None => Ok(()),
    }
}

/// The places of an expression that stands for the condition of an `if` or of a loop.
pub fn add_condition(
    places: &mut Vec<usize>,
    expression: &Expression,
    action: &Action,
    tokens: &[Token],
) -> Result<(), NoMemory>
    ensures { OnOk result (AddsPart condition_of places.old.items places.new.items expression.now action.now tokens.now) }
{
    match condition_of(action) {
        Some(term) => add_term(places, expression, term, tokens),
        None => Ok(()),
    }
}

/// The places of arguments, which stand for these terms.
#[tactic(auto, using(std::proofs::lemmas::List::append_assoc))]
fn add_arguments(
    places: &mut Vec<usize>,
    arguments: &[Expression],
    terms: &[Term],
    tokens: &[Token],
) -> Result<(), NoMemory>
    ensures { OnOk result (AddsArguments places.old.items places.new.items arguments.now terms.now tokens.now) }
{
    let mut left = arguments;
    let mut terms_left = terms;
    let mut rest = tokens;
    while let [argument, more @ ..] = left {
        let [term, more_terms @ ..] = terms_left else {
            return Ok(());
        };
        add_term(places, argument, term, rest)?;
        rest = next(behind_expression(argument, rest));
        left = more;
        terms_left = more_terms;
    }
    Ok(())
}

/// The places of a value.
fn add_value(
    places: &mut Vec<usize>,
    value: &Value,
    given: &c_program::Value,
    tokens: &[Token],
) -> Result<(), NoMemory>
    ensures { OnOk result (AddsValue places.old.items places.new.items value.now given.now tokens.now) }
{
    match value {
        Value::Expression(expression) => match plain_of(given) {
            Some(term) => add_term(places, expression, term, tokens),
            None => Ok(()),
        },
        Value::Call(call) => add_arguments(
            places,
            call.arguments.as_slice(),
            arguments_of(given),
            next(next(tokens)),
        ),
    }
}

/// A call's place is that of its name; what else is given has that of where it goes.
fn given_place(place: usize, value: &Value) -> usize
    ensures { result ≡ given_place place (value_tree value.now) }
{
    match value {
        Value::Expression(_) => place,
        Value::Call(call) => call.callee.offset,
    }
}

/// The places of the giving of a value to what stands at a place.
pub fn add_giving(
    places: &mut Vec<usize>,
    place: usize,
    value: &Value,
    action: &Action,
    tokens: &[Token],
) -> Result<(), NoMemory>
    ensures { OnOk result (AddsGiving places.old.items places.new.items place value.now action.now tokens.now) }
{
    places.push(given_place(place, value))?;
    match given_of(action) {
        Some(given) => add_value(places, value, given, tokens),
        None => Ok(()),
    }
}

/// The places of a call whose value is dropped.
pub fn add_call(
    places: &mut Vec<usize>,
    call: &Call,
    action: &Action,
    tokens: &[Token],
) -> Result<(), NoMemory>
    ensures { OnOk result (AddsBy (dropped_places call.now) places.old places.new action.now tokens.now) }
{
    places.push(call.callee.offset)?;
    match given_of(action) {
        Some(given) => add_arguments(
            places,
            call.arguments.as_slice(),
            arguments_of(given),
            next(next(tokens)),
        ),
        None => Ok(()),
    }
}

/// The places of a store to a cell.
pub fn add_store(
    places: &mut Vec<usize>,
    array: &Identifier,
    index: &Expression,
    value: &Expression,
    action: &Action,
    tokens: &[Token],
) -> Result<(), NoMemory>
    ensures { OnOk result (AddsBy (cell_places array.now index.now value.now) places.old places.new action.now tokens.now) }
{
    places.push(array.offset)?;
    let index_tokens = next(next(tokens));
    add_index(places, index, action, index_tokens)?;
    let sign = next(behind_expression(index, index_tokens));
    add_stored(places, value, action, next(sign))
}

/// The places of a `return`.
pub fn add_return(
    places: &mut Vec<usize>,
    place: usize,
    value: &Option<Value>,
    action: &Action,
    tokens: &[Token],
) -> Result<(), NoMemory>
    ensures { OnOk result (AddsBy (returning_places place value.now) places.old places.new action.now tokens.now) }
{
    match value {
        None => {
            places.push(place)?;
            Ok(())
        }
        Some(value) => add_giving(places, place, value, action, tokens),
    }
}
