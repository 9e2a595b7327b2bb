//! The places of the parts of changes of variables and cells.

ghost use Rattle.std.specs.Prelude.{OnOk};
ghost use Rattle.c_faults_places.specs.Adding.{AddsBy, AddsChanged, AddsName, changing_places, becoming_places, setting_places};

use crate::giving::{add_index, add_store, add_stored};
use c_faults_terms::{add_same, add_term, first, second, stored_of};
use c_faults_tokens::{begins_with_step, lvalue_tokens, next, sign_tokens, start};
use c_program::{Action, Term};
use c_syntax::{Change, Expression, Lvalue, Set, Token};
use lang_base::NoMemory;

/// The places of the value of a change, from its sign on.
fn add_changed(
    places: &mut Vec<usize>,
    change: &Change,
    term: &Term,
    sign: &[Token],
) -> Result<(), NoMemory>
    ensures { OnOk result (AddsChanged places.old.items places.new.items change.now term.now sign.now) }
{
    if begins_with_step(sign) {
        add_same(places, start(sign), term)
    } else {
        add_term(places, &change.value, term, next(sign))
    }
}

/// The places of a change of a variable that stands at a place, from its sign on.
fn add_name(
    places: &mut Vec<usize>,
    place: usize,
    change: &Change,
    term: &Term,
    sign: &[Token],
) -> Result<(), NoMemory>
    ensures { OnOk result (AddsName places.old.items places.new.items place change.now term.now sign.now) }
{
    places.push(start(sign))?;
    add_same(places, place, first(term))?;
    add_changed(places, change, second(term), sign)
}

/// The places of a change.
pub fn add_change(
    places: &mut Vec<usize>,
    change: &Change,
    action: &Action,
    tokens: &[Token],
) -> Result<(), NoMemory>
    ensures { OnOk result (AddsBy (changing_places change.now) places.old places.new action.now tokens.now) }
{
    let sign = sign_tokens(&change.lvalue, tokens);
    match &change.lvalue {
        Lvalue::Variable(name) => {
            places.push(name.offset)?;
            match stored_of(action) {
                Some(term) => add_name(places, name.offset, change, term, sign),
                None => Ok(()),
            }
        }
        Lvalue::Element(array, index) => {
            places.push(array.offset)?;
            places.push(start(sign))?;
            add_index(places, index, action, next(next(lvalue_tokens(tokens))))?;
            match stored_of(action) {
                Some(term) => add_changed(places, change, term, sign),
                None => Ok(()),
            }
        }
    }
}

/// The places of what an lvalue becomes.
fn add_becomes(
    places: &mut Vec<usize>,
    lvalue: &Lvalue,
    value: &Expression,
    action: &Action,
    tokens: &[Token],
) -> Result<(), NoMemory>
    ensures { OnOk result (AddsBy (becoming_places lvalue.now value.now) places.old places.new action.now tokens.now) }
{
    match lvalue {
        Lvalue::Variable(name) => {
            places.push(name.offset)?;
            add_stored(places, value, action, next(next(tokens)))
        }
        Lvalue::Element(array, index) => add_store(places, array, index, value, action, tokens),
    }
}

/// The places of an assignment or a change.
pub fn add_set(
    places: &mut Vec<usize>,
    set: &Set,
    action: &Action,
    tokens: &[Token],
) -> Result<(), NoMemory>
    ensures { OnOk result (AddsBy (setting_places set.now) places.old places.new action.now tokens.now) }
{
    match set {
        Set::Becomes(lvalue, value) => add_becomes(places, lvalue, value, action, tokens),
        Set::Changes(change) => add_change(places, change, action, tokens),
    }
}
