//! What one thread does: it takes the number of a job, answers the job, and takes the next.

ghost use Rattle.std.specs.Prelude.{◌≡◌, ◌<◌, length, slice_index, IfOk, Some, slice_get};
ghost use Rattle.std.specs.List.{AllByRecursion};
ghost use Rattle.parallel_validate.specs.Verdicts.{IsAnswerAt, IsRight};

use crate::gate::Gate;
use crate::verdict::{Job, Verdict};
use crossbeam_queue::ArrayQueue;
use lang_base::{NoMemory, Pass};
use std::alloc::Global;
use std::sync::Wait;

/// Answers the job of this number, between the calls of the gate.
pub(crate) fn answer<P: Pass, G: Gate>(
    alloc: Global,
    jobs: &[Job<P>],
    number: usize,
    gate: &G,
) -> Result<bool, NoMemory>
    requires { number < length jobs.now }
    ensures { IfOk result (λ yes. IsAnswerAt P.accepts jobs.now number yes) }
{
    let job = &jobs[number];
    gate.before(number);
    let yes = P::check(alloc, &job.input, &job.output, &job.certificate);
    gate.after(number);
    yes
}

/// Takes numbers of jobs while there are any, and answers those jobs. Where no memory is left it stops,
/// with what it has answered.
pub(crate) fn work<P: Pass, G: Gate, R: Wait>(
    rt: &R,
    alloc: Global,
    jobs: &[Job<P>],
    numbers: &ArrayQueue<usize>,
    gate: &G,
) -> Vec<Verdict>
    ensures { AllByRecursion (IsRight P.accepts jobs.now) result.items }
{
    let mut verdicts = Vec::new(alloc);
    for _ in 0..jobs.len() {
        let Some(number) = numbers.pop(rt) else {
            break;
        };
        if number >= jobs.len() {
            break;
        }
        let Ok(yes) = answer::<P, G>(alloc, jobs, number, gate) else {
            break;
        };
        let verdict = Verdict { job: number, yes };
        if verdicts.push(verdict).is_err() {
            break;
        }
    }
    verdicts
}
