//! A refused text as an object of JSON.

ghost use Rattle.std.specs.Prelude.{◌≡◌, ◌≤◌, IfOk};
ghost use Rattle.std.specs.String.{string_bytes};
ghost use Rattle.serde_json.specs.View.{view};
ghost use Rattle.cfarm_program_runs.specs.Objects.{declared_data, fault_line, fault_data, place_data};
ghost use Rattle.cfarm_program_runs.specs.Refusals.{IsRefusalTold};

use c_places::{Place, place_of};
use cfarm_output::ErrorLines;
use cfarm_program_status::tell_among;
use cfarm_run::{TextError, sentence_of};
use serde_json::{Value, json};
use std::alloc::{AllocError, Global};

/// What is told of a fault of a text: of which file, at which offset, with which hint, and where its name is declared before.
#[derive(Clone, Copy)]
pub(crate) struct Refusal<'a> {
    pub path: &'a str,
    pub text: &'a [u8],
    pub fault: TextError,
    pub at: usize,
    pub hint: &'a str,
    pub declared: Option<Place>,
}

/// Where a name is declared before; `null` where it is not.
fn value_of_declared(alloc: Global, declared: Option<Place>) -> Result<Value, AllocError>
    ensures { IfOk result (λ value. view value ≡ declared_data declared) }
{
    match declared {
        Some(place) => {
            let (line, column) = (place.line, place.column);
            json!(in alloc; {"column": column, "line": line})
        }
        None => Ok(Value::Null),
    }
}

/// Where a fault is.
fn value_of_place(alloc: Global, path: &str, at: usize, place: Place) -> Result<Value, AllocError>
    ensures { IfOk result (λ value. view value ≡ place_data path.now at place) }
{
    let (line, column) = (place.line, place.column);
    json!(in alloc; {"column": column, "file": path, "line": line, "offset": at})
}

/// All that is told.
fn value_of(alloc: Global, refusal: Refusal<'_>) -> Result<Value, AllocError>
    ensures { IfOk result (λ value. view value ≡ fault_data refusal.entry) }
{
    let fault = refusal.fault;
    let declared = value_of_declared(alloc, refusal.declared)?;
    let line = format!(in alloc; "{fault}")?;
    let place = value_of_place(
        alloc,
        refusal.path,
        refusal.at,
        place_of(refusal.text, refusal.at),
    )?;
    let (hint, name, sentence) = (refusal.hint, fault.name(), sentence_of(fault));
    let number = usize::from(fault.number());
    json!(in alloc; {
        "declared": declared, "fault": line, "hint": hint, "name": name, "number": number, "place": place,
        "sentence": sentence
    })
}

/// The object in one line, without the end of the line.
fn object_of(alloc: Global, refusal: Refusal<'_>) -> Result<String, AllocError>
    ensures { IfOk result (λ line. string_bytes line ≡ fault_line refusal.entry) }
{
    let value = value_of(alloc, refusal)?;
    value.to_string(alloc)
}

/// Tells it with this status, or that there is no memory to make it, and gives the status.
pub(crate) fn tell_refusal<E: ErrorLines>(
    alloc: Global,
    refusal: Refusal<'_>,
    status: u8,
    err: &mut E,
) -> u8
    ensures told { IsRefusalTold refusal.entry status result (E.contents err.old) (E.contents err.new) }
    ensures table { status ≤ 7 → result ≤ 7 }
{
    match object_of(alloc, refusal) {
        Ok(line) => tell_among(err, false, line.as_str(), status, ""),
        Err(_) => tell_among(err, false, "memory", 7, ""),
    }
}
