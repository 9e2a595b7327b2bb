ghost use Rattle.std.specs.Prelude.{◌≡◌, ℕ, ◌<◌, IfOk, OnOk};
ghost use Rattle.std.specs.List.{AllByRecursion};
ghost use Rattle.parallel_validate.specs.Verdicts.{AreAnswers, IsRight};

use crate::collecting::{enter, finish};
use crate::gate::Gate;
use crate::verdict::{Job, Verdict};
use crate::working::work;
use crossbeam_queue::ArrayQueue;
use lang_base::{NoMemory, Pass};
use std::alloc::Global;
use std::sync::Wait;
use std::thread::{Threads, map_indices};

/// The numbers below `count`, which is not 0, in a queue.
fn numbers_below<R: Wait>(
    rt: &R,
    alloc: Global,
    count: usize,
) -> Result<ArrayQueue<usize>, NoMemory>
    requires { 0 < count }
{
    let numbers = ArrayQueue::new(alloc, count)?;
    for number in 0..count {
        if numbers.push(rt, number).is_err() {
            break;
        }
    }
    Ok(numbers)
}

/// Whether the pass accepts each job, in the order of the jobs: so many threads, at most one a job, share
/// them, and the calling thread does what none of them answered. A thread that cannot be made costs no
/// answer.
pub fn check_all<P: Pass + Sync, G: Gate + Sync, R: Threads + Wait + Sync>(
    rt: &R,
    alloc: Global,
    jobs: &[Job<P>],
    workers: usize,
    gate: &G,
) -> Result<Vec<bool>, NoMemory>
where
    P::In: Sync,
    P::Out: Sync,
    requires { 0 < workers }
    ensures { IfOk result (λ answers. AreAnswers P.accepts jobs.now answers.items) }
{
    if jobs.is_empty() {
        return Ok(Vec::new(alloc));
    }
    let numbers = numbers_below(rt, alloc, jobs.len())?;
    let found = map_indices(
        rt,
        alloc,
        workers.min(jobs.len()),
        &|_worker: usize| -> Vec<Verdict>
            ensures { AllByRecursion (IsRight P.accepts jobs.entry.now) result.items }
        { work::<P, G, R>(rt, alloc, jobs, &numbers, gate) },
    )?;
    let mut known = vec![in alloc; None; jobs.len()]?;
    for verdicts in &found {
        enter::<P>(&mut known, jobs, verdicts.as_slice());
    }
    finish::<P, G>(alloc, jobs, &known, gate)
}
