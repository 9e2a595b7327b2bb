//! Whole runs.

ghost use Rattle.std.specs.Prelude.{◌≡◌, IfOk, map};
ghost use Rattle.linear_faults_search.specs.Aims.{AreMade};
ghost use Rattle.linear_faults.specs.Faults.{fault_of, site_of};
ghost use Rattle.linear_faults_search.specs.Finding.{IsFaultHere, IsFaultFrom};
ghost use Rattle.linear_faults_run.specs.Standing.{frame_of};

use crate::aims::make_all;
use crate::causing::cause_of;
use crate::starting::begin;
use crate::stepping::step;
use lang_base::{Named, NoMemory, Program, Row};
use linear_faults::{Fault, Site};
use linear_faults_run::{Callers, Run, Step};
use linear_language::Function;
use linear_run_decoded::Flat;
use std::alloc::Global;

/// The calls that are under way, the innermost first. Nobody waits then.
fn take_calls(alloc: Global, callers: &mut Callers) -> Result<Vec<Site>, NoMemory>
    ensures { IfOk result (λ calls. calls.items ≡ map (λ c. site_of (frame_of c)) callers.old) }
{
    let mut calls = Vec::new(alloc);
    while let Some(caller) = callers.pop() {
        calls.push(Site {
            function: caller.function,
            place: caller.place.saturating_sub(1),
        })?;
    }
    Ok(calls)
}

/// The fault where a run stands, which is over then.
fn fault_here(
    alloc: Global,
    functions: &[Named<Function>],
    run: &mut Run,
) -> Result<Fault, NoMemory>
    ensures { IfOk result (λ fault. IsFaultHere fault functions.now run.old) }
{
    let cause = cause_of(functions, run);
    let at = Site {
        function: run.function,
        place: run.place,
    };
    let calls = Row::from_vec(take_calls(alloc, &mut run.callers)?);
    Ok(Fault { at, cause, calls })
}

/// Steps until the run goes wrong, is over or its bound is spent.
fn go_on(
    alloc: Global,
    functions: &[Named<Function>],
    flats: &[Vec<Flat>],
    run: &mut Run,
    limit: u64,
) -> Result<Option<Fault>, NoMemory>
    requires { AreMade flats.now functions.now }
    ensures { IfOk result (λ found. IsFaultFrom found functions.now limit run.old) }
{
    let mut left = limit;
    while left > 0 {
        match step(alloc, functions, flats, run)? {
            Step::Goes => left -= 1,
            Step::Prints(_) => left -= 1,
            Step::Ends(_) => return Ok(None),
            Step::Fails => return Ok(Some(fault_here(alloc, functions, run)?)),
        }
    }
    Ok(None)
}

/// Where the run of a program of so many instructions goes wrong: none where it does not.
pub fn find_fault(
    alloc: Global,
    program: &Program<Function>,
    limit: u64,
) -> Result<Option<Fault>, NoMemory>
    ensures { IfOk result (λ found. found ≡ fault_of program.now limit) }
{
    let functions = program.functions.as_slice();
    let flats = make_all(alloc, functions)?;
    let mut run = begin(alloc, program)?;
    go_on(alloc, functions, &flats, &mut run, limit)
}
