//! The functions of a report.

ghost use Rattle.std.specs.Prelude.{◌≡◌, map, IfOk};
ghost use Rattle.serde_json.specs.View.{view};
ghost use Rattle.cfarm_build_result.specs.Report.{entry_of};

use crate::function::FunctionRooms;
use serde_json::{Value, json};
use std::alloc::{AllocError, Global};

/// A function with its four numbers.
fn entry(alloc: Global, function: &FunctionRooms) -> Result<Value, AllocError>
    ensures { IfOk result (λ value. view value ≡ entry_of function.now) }
{
    let name = function.name.as_str();
    let first = function.first;
    let second = function.second;
    let third = function.third;
    let fourth = function.fourth;
    json!(in alloc; {"name": name, "rooms": [first, second, third, fourth]})
}

/// All functions, in their order.
pub(crate) fn entries(alloc: Global, functions: &[FunctionRooms]) -> Result<Vec<Value>, AllocError>
    ensures { IfOk result (λ values. map view values.items ≡ map entry_of functions.now) }
{
    let mut values = Vec::with_capacity(alloc, functions.len())?;
    for number in 0..functions.len() {
        let value = entry(alloc, &functions[number])?;
        values.push(value)?;
    }
    Ok(values)
}
