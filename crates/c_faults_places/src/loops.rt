//! The places of the parts of declarations and of the heads of loops.

ghost use Rattle.std.specs.Prelude.{OnOk};
ghost use Rattle.c_faults_places.specs.Adding.{AddsBy, AddsGoing, declaring_places, ending_places, starting_places, stepping_places};

use crate::changes::add_set;
use crate::giving::{add_condition, add_giving, add_stored};
use c_faults_terms::{add_same, add_term, else_of};
use c_faults_tokens::{behind_type, next, start};
use c_program::{Action, Term};
use c_syntax::{Expression, ForStart, Local, Set, Token};
use lang_base::NoMemory;

/// The places of a local: it is declared, and then has its value.
pub fn add_local(
    places: &mut Vec<usize>,
    local: &Local,
    action: &Action,
    tokens: &[Token],
) -> Result<(), NoMemory>
    ensures { OnOk result (AddsBy (declaring_places local.now) places.old places.new action.now tokens.now) }
{
    let place = local.name.offset;
    places.push(place)?;
    let Some(value) = &local.value else {
        return Ok(());
    };
    places.push(place)?;
    let sign = next(behind_type(local.kind, tokens));
    match else_of(action) {
        Some(giving) => add_giving(places, place, value, giving, next(sign)),
        None => Ok(()),
    }
}

/// The places of how a `for` begins.
pub fn add_start(
    places: &mut Vec<usize>,
    begun: &ForStart,
    action: &Action,
    tokens: &[Token],
) -> Result<(), NoMemory>
    ensures { OnOk result (AddsBy (starting_places begun.now) places.old places.new action.now tokens.now) }
{
    match begun {
        ForStart::Nothing => {
            places.push(start(tokens))?;
            Ok(())
        }
        ForStart::Set(set) => add_set(places, set, action, tokens),
        ForStart::Local(kind, name, value) => {
            places.push(name.offset)?;
            places.push(name.offset)?;
            places.push(name.offset)?;
            match else_of(action) {
                Some(giving) => add_stored(
                    places,
                    value,
                    giving,
                    next(next(behind_type(*kind, tokens))),
                ),
                None => Ok(()),
            }
        }
    }
}

/// The places of the condition of a `for`: one that is missing has the place of what stands there.
pub fn add_going(
    places: &mut Vec<usize>,
    condition: &Option<Expression>,
    term: &Term,
    tokens: &[Token],
) -> Result<(), NoMemory>
    ensures { OnOk result (AddsGoing places.old.items places.new.items condition.now term.now tokens.now) }
{
    match condition {
        None => add_same(places, start(tokens), term),
        Some(expression) => add_term(places, expression, term, tokens),
    }
}

/// The places of the step of a `for`.
pub fn add_step(
    places: &mut Vec<usize>,
    step: &Option<Set>,
    action: &Action,
    tokens: &[Token],
) -> Result<(), NoMemory>
    ensures { OnOk result (AddsBy (stepping_places step.now) places.old places.new action.now tokens.now) }
{
    match step {
        None => {
            places.push(start(tokens))?;
            Ok(())
        }
        Some(set) => add_set(places, set, action, tokens),
    }
}

/// The places of what stands behind the body of a `do`.
pub fn add_until(
    places: &mut Vec<usize>,
    condition: &Expression,
    action: &Action,
    tokens: &[Token],
) -> Result<(), NoMemory>
    ensures { OnOk result (AddsBy (ending_places condition.now) places.old places.new action.now tokens.now) }
{
    let place = start(tokens);
    places.push(place)?;
    add_condition(places, condition, action, next(next(tokens)))?;
    places.push(place)?;
    places.push(place)?;
    Ok(())
}
