//! The commands that run something.

ghost use Rattle.std.specs.Prelude.{◌≡◌, []};
ghost use Rattle.cfarm_library_answers.specs.Answered.{Gives};
ghost use Rattle.cfarm_library_answers.specs.Outcomes.{Checked, Drawn, Executed, Interpreted, Lined};

use crate::answer::{Answer, done, told};
use cfarm_output::Paced;
use cfarm_run::{Closing, check_text, status_of, status_where};
use std::alloc::Global;

/// An output in memory, which nobody looks at.
fn unseen(alloc: Global) -> Paced<Vec<u8>>
    ensures { result.taker.items ≡ [] }
{
    Paced::over(Vec::new(alloc), false)
}

/// `check`: how many functions and globals an accepted text has, or its first fault.
pub fn check(alloc: Global, text: &[u8]) -> Answer
    ensures { Gives (Checked text.now) result }
{
    let mut out = Vec::new(alloc);
    match check_text(alloc, text, &mut out) {
        Ok(()) => done(out),
        Err(fault) => told(alloc, out, fault, fault.status()),
    }
}

/// `interpret`: what the program of an accepted text writes, and how it closes, with calls as deep as this at most.
pub fn interpret(alloc: Global, text: &[u8], depth: u32) -> Answer
    ensures { Gives (Interpreted text.now depth) result }
{
    let mut out = unseen(alloc);
    match cfarm_run::interpret(alloc, text, u64::from(depth), &mut out) {
        Ok(shown) => told(alloc, out.taker, Closing(shown), status_of(shown)),
        Err(fault) => told(alloc, out.taker, fault, fault.status()),
    }
}

/// `exec`: what a linked program writes, and how it closes, within this many blocks.
pub fn exec(alloc: Global, program: &[u8], limit: u64, expected: Option<i32>) -> Answer
    ensures { Gives (Executed program.now limit expected) result }
{
    let mut out = unseen(alloc);
    match cfarm_run::exec(alloc, program, limit, &mut out) {
        Ok(shown) => told(
            alloc,
            out.taker,
            Closing(shown),
            status_where(shown, expected),
        ),
        Err(fault) => told(alloc, out.taker, fault, fault.status()),
    }
}

/// `sim`: what a schedule shows.
pub fn simulate(alloc: Global, schedule: &[u8]) -> Answer
    ensures { Gives (Lined schedule.now) result }
{
    let mut out = Vec::new(alloc);
    match cfarm_sim::simulate(alloc, schedule, &mut out) {
        Ok(()) => done(out),
        Err(fault) => told(alloc, out, fault, fault.status()),
    }
}

/// `sim --svg`: a drawing of it.
pub fn draw(alloc: Global, schedule: &[u8]) -> Answer
    ensures { Gives (Drawn schedule.now) result }
{
    let mut out = Vec::new(alloc);
    match cfarm_sim_svg::draw(alloc, schedule, &mut out) {
        Ok(()) => done(out),
        Err(fault) => told(alloc, out, fault, fault.status()),
    }
}
