//! `sim`: a schedule, shown as is asked for.

ghost use Rattle.std.specs.Prelude.{◌≤◌};
ghost use Rattle.cfarm_program_status.specs.Reading.{Says};
ghost use Rattle.cfarm_program_status.specs.Trace.{shown};
ghost use Rattle.cfarm_program_runs.specs.Outcomes.{Drawn, Lined, Simulated};

use cfarm_command_line_tasks::Showing;
use cfarm_output::{ErrorLines, Paced};
use cfarm_program_status::tell;
use cfarm_sim::simulate;
use cfarm_sim_svg::draw;
use std::alloc::Global;
use std::io::Write;

#[tactic(auto, using(crate::proofs::Tables::schedule_in_table))]
fn lines<W: Write, E: ErrorLines>(
    alloc: Global,
    schedule: &[u8],
    out: &mut Paced<W>,
    err: &mut E,
) -> u8
    ensures does { Says W.contents E.contents (Lined schedule.now) (shown result out err) }
    ensures table { result ≤ 7 }
{
    match simulate(alloc, schedule, out) {
        Ok(()) => 0,
        Err(fault) => tell(err, fault, fault.status()),
    }
}

#[tactic(auto, using(crate::proofs::Tables::schedule_in_table))]
fn picture<W: Write, E: ErrorLines>(
    alloc: Global,
    schedule: &[u8],
    out: &mut Paced<W>,
    err: &mut E,
) -> u8
    ensures does { Says W.contents E.contents (Drawn schedule.now) (shown result out err) }
    ensures table { result ≤ 7 }
{
    match draw(alloc, schedule, out) {
        Ok(()) => 0,
        Err(fault) => tell(err, fault, fault.status()),
    }
}

/// Plays a schedule, and shows it as is asked for.
pub fn play<W: Write, E: ErrorLines>(
    alloc: Global,
    showing: Showing,
    schedule: &[u8],
    out: &mut Paced<W>,
    err: &mut E,
) -> u8
    ensures does { Says W.contents E.contents (Simulated showing schedule.now) (shown result out err) }
    ensures table { result ≤ 7 }
{
    match showing {
        Showing::Lines => lines(alloc, schedule, out, err),
        Showing::Drawing => picture(alloc, schedule, out, err),
    }
}
