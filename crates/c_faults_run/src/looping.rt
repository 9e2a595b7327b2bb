//! Turns of loops.

ghost use Rattle.std.specs.Prelude.{◌<◌, IfOk};
ghost use Rattle.c_faults_run.specs.Turning.{Turned, BehindBody, head_cost, behind_body_cost};
ghost use Rattle.c_faults_step.specs.Steps.{step_cost};

use c_faults_gaps::{behind, behind_action, worth};
use c_faults_step::{Cycle, Item, Step, Tracer};
use lang_base::NoMemory;
use std::slice;

/// A loop from its head on.
pub fn head<'a>(tracer: &mut Tracer<'a>, cycle: Cycle<'a>) -> Result<Step, NoMemory>
    ensures meaning { IfOk result (Turned tracer.old tracer.new cycle.entry) }
    ensures cost { IfOk result (λ step. step_cost step tracer.new < head_cost tracer.old cycle.entry) }
{
    if cycle.bound == 0 {
        return Ok(Step::Over);
    }
    match worth(cycle.condition, cycle.places, &tracer.scope) {
        Err(found) => Ok(Step::Wrong(found)),
        Ok(0) => Ok(Step::Goes),
        Ok(_) => {
            let bound = cycle.bound - 1;
            let places = behind(cycle.condition, cycle.places);
            tracer.items.push(Item::Body(Cycle { bound, ..cycle }))?;
            tracer
                .items
                .push(Item::Do(bound, slice::from_ref(cycle.body), places))?;
            Ok(Step::Goes)
        }
    }
}

/// A loop whose body is done.
pub fn after_body<'a>(tracer: &mut Tracer<'a>, cycle: Cycle<'a>) -> Result<Step, NoMemory>
    ensures meaning { IfOk result (BehindBody tracer.old tracer.new cycle.entry) }
    ensures cost { IfOk result (λ step. step_cost step tracer.new < behind_body_cost tracer.old cycle.entry) }
{
    let places = behind_action(cycle.body, behind(cycle.condition, cycle.places));
    tracer.items.push(Item::Last(cycle))?;
    tracer
        .items
        .push(Item::Do(cycle.bound, slice::from_ref(cycle.last), places))?;
    Ok(Step::Goes)
}
