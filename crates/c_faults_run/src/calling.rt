//! Calls of functions with a body.

ghost use Rattle.std.specs.Prelude.{◌≡◌, ◌<◌, ◌≤◌, ◌∷◌, IfOk, IfSome, IfNone, slice_index_or, []};
ghost use Rattle.c_faults_run.specs.Calls.{Enters, CostsItsBody, BlamesNone, BlamesBody, Calling, calling_cost, Entering, entering_cost};
ghost use Rattle.c_faults_step.specs.Steps.{step_cost};

use crate::arguments::{argument_words, push_blank, push_words};
use c_faults::{Cause, Gap};
use c_faults_gaps::{others, own};
use c_faults_step::{Item, Running, Step, Tracer, Waiting};
use c_program::{Called, Ending, Function, Target};
use lang_base::{NoMemory, Row};

/// The function of a number, if it takes so many parameters.
#[tactic(auto, using(std::proofs::lemmas::Option::slice_get_past, std::proofs::lemmas::Option::slice_get_within))]
pub fn function_at(functions: &[Function], number: usize, parameters: usize) -> Option<&Function>
    ensures found { IfSome result (λ f. Enters functions.now number parameters f.now) }
    ensures cost { IfSome result (λ f. CostsItsBody functions.now number f.now) }
    ensures blamed { IfNone result (BlamesNone functions.now number parameters) }
    ensures blames { IfSome result (λ f. BlamesBody functions.now number parameters f.now) }
{
    if number < functions.len() {
        let function = &functions[number];
        if function.parameters == parameters {
            return Some(function);
        }
    }
    None
}

/// The places of a function: of its end, and then of its parts.
pub fn places_in(places: &[Row<usize>], function: usize) -> &[usize]
    ensures { result.now ≡ slice_index_or places.now function [] }
{
    if function < places.len() {
        places[function].as_slice()
    } else {
        &[]
    }
}

/// A call: first its arguments, then the bound, then the body.
pub fn call<'a>(
    tracer: &mut Tracer<'a>,
    bound: u64,
    target: Target,
    called: &'a Called,
    places: &'a [usize],
) -> Result<Step, NoMemory>
    ensures meaning { IfOk result (Calling tracer.old tracer.new bound places.entry.now target called.entry.now) }
    ensures cost { IfOk result (λ step. step_cost step tracer.new < calling_cost tracer.old bound called.entry.now) }
{
    let arguments = called.arguments.as_slice();
    if let Some(found) = argument_words(
        arguments,
        others(places),
        &tracer.scope,
        &mut tracer.words,
    )? {
        return Ok(Step::Wrong(found));
    }
    if bound == 0 {
        return Ok(Step::Over);
    }
    let step = enter(tracer, bound - 1, target, called.function, own(places))?;
    Ok(step)
}

/// The function begins on the words of its arguments, if there is such a function and it takes so many.
fn enter<'a>(
    tracer: &mut Tracer<'a>,
    bound: u64,
    target: Target,
    number: usize,
    at: usize,
) -> Result<Step, NoMemory>
    ensures meaning { IfOk result (Entering tracer.old tracer.new bound target number at) }
    ensures cost { IfOk result (λ step. step_cost step tracer.new < entering_cost tracer.old bound number) }
{
    let end = tracer.scope.locals.len();
    tracer.items.push(Item::Back(Waiting {
        running: tracer.running,
        target,
        place: at,
        base: tracer.scope.base,
    }))?;
    let places = places_in(tracer.places, number);
    tracer.running = Running {
        function: number,
        ending: Ending::Returns,
        end: own(places),
    };
    tracer.scope.base = end;
    match function_at(tracer.functions, number, tracer.words.len()) {
        None => {
            let cause = Cause::Malformed;
            Ok(Step::Wrong(Gap { cause, place: 0 }))
        }
        Some(function) => {
            tracer.running.ending = function.ending;
            push_words(&mut tracer.scope.locals, &tracer.words)?;
            push_blank(
                &mut tracer.scope.locals,
                function.locals.saturating_sub(function.parameters),
            )?;
            let body = function.body.as_slice();
            tracer.items.push(Item::Do(bound, body, others(places)))?;
            Ok(Step::Goes)
        }
    }
}
