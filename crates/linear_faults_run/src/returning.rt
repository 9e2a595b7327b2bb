//! Returns.

ghost use Rattle.std.specs.Prelude.{Some};
ghost use Rattle.machine.specs.Frames.{comes_back, returned};
ghost use Rattle.linear_faults_run.specs.Steps.{Follows, Returns, Stays};
ghost use Rattle.linear_faults_run.specs.Returns.{Resumes};

use crate::callers::Caller;
use crate::run::Run;
use crate::step::Step;
use crate::words::{lose, put, read};
use locations::Register;

/// The caller goes on with what is given back.
fn resume(run: &mut Run, caller: Caller, given: Option<u32>)
    ensures { Resumes run.old caller given run.new }
{
    run.function = caller.function;
    run.place = caller.place;
    run.words = caller.words;
    lose(&mut run.words.registers);
    if let Some(location) = caller.target {
        put(&mut run.words, location, given);
    }
}

/// The nearest caller goes on with what is given back, and a return of `main` ends the run.
fn go_back(run: &mut Run, given: Option<u32>) -> Step
    ensures returns { Returns (Some given) run.old result run.new }
    ensures stays { Stays result run.old run.new }
{
    match run.callers.pop() {
        None => match given {
            Some(word) => Step::Ends(word),
            None => Step::Fails,
        },
        Some(caller) => {
            resume(run, caller, given);
            Step::Goes
        }
    }
}

/// A return.
pub fn come_back(run: &mut Run, value: Option<Register>) -> Step
    ensures returns { Follows (λ s. comes_back s.callers s.here (returned value s.here)) run.old result run.new }
    ensures stays { Stays result run.old run.new }
{
    match value {
        None => go_back(run, None),
        Some(register) => match read(&run.words.registers, usize::from(register)) {
            None => Step::Fails,
            Some(word) => go_back(run, Some(word)),
        },
    }
}
