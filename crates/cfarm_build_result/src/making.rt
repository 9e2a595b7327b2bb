//! The program's bytes, the bundle and the report.

ghost use Rattle.std.specs.Prelude.{◌≡◌, ◌≤◌, is_some, length, IfOk};
ghost use Rattle.std.specs.String.{string_bytes};
ghost use Rattle.c_checker_rules.specs.Checked.{program_tree};
ghost use Rattle.cminor_program_ranges.specs.Names.{HaveNames};
ghost use Rattle.lang.specs.Form.{IsProgram};
ghost use Rattle.linear_language.specs.Function.{IsFunction};
ghost use Rattle.farm_nodes_link.specs.Learned.{learned_by, IsUndecided};
ghost use Rattle.cfarm_build_result.specs.Made.{IsBundleOf, IsMadeOf, IsReportAt};
ghost use Rattle.cfarm_build_result.specs.Told.{function_names};

use crate::built::Built;
use crate::bundling::bundled;
use crate::numbers::numbers_of;
use crate::reporting::report;
use crate::writing::written;
use c_checker_rules::CProgram;
use farm_nodes_link::NumberedSeat;
use lang_base::{NoMemory, Program};
use linear_language::Function;
use rooms_hall::Naming;
use std::alloc::Global;

/// The bundle of what a node links, where it is asked for.
fn bundle_of<H: Naming>(
    alloc: Global,
    digest: &[u8; 32],
    seats: &[NumberedSeat<H>],
    is_asked: bool,
) -> Result<Option<Vec<u8>>, NoMemory>
    requires few { length seats.now ≤ 64 }
    requires decided { IsUndecided (learned_by seats.now) → ⊥ }
    ensures asked { IfOk result (λ bundle. is_some bundle ≡ is_asked) }
    ensures links { IfOk result (IsBundleOf digest.now seats.now) }
{
    if !is_asked {
        return Ok(None);
    }
    match bundled(alloc, digest.as_slice(), seats) {
        Ok(bytes) => Ok(Some(bytes)),
        Err(fault) => Err(fault),
    }
}

/// The report of a program of these bytes, which so many nodes have built.
fn reported<H: Naming>(
    alloc: Global,
    source: &CProgram,
    seats: &[NumberedSeat<H>],
    bytes: &[u8],
    nodes: usize,
) -> Result<String, NoMemory>
    requires names { HaveNames (program_tree source.now) }
    requires count { length seats.now ≡ length source.now.functions }
    requires decided { IsUndecided (learned_by seats.now) → ⊥ }
    ensures { IfOk result (λ text.
        IsReportAt (function_names source.now) seats.now bytes.now nodes (string_bytes text)) }
{
    let Ok(functions) = numbers_of(alloc, source, seats) else {
        return Err(NoMemory);
    };
    match report(alloc, &functions, bytes, nodes) {
        Ok(text) => Ok(text),
        Err(_) => Err(NoMemory),
    }
}

/// What a build by so many nodes makes of a program that was linked of what a node has learned: its bytes, the bundle where that is asked
/// for, and the report.
pub fn made_of<H: Naming>(
    alloc: Global,
    source: &CProgram,
    digest: &[u8; 32],
    program: &Program<Function>,
    seats: &[NumberedSeat<H>],
    nodes: usize,
    bundles: bool,
) -> Result<Built, NoMemory>
    requires names { HaveNames (program_tree source.now) }
    requires fits { IsProgram IsFunction program.now }
    requires count { length seats.now ≡ length source.now.functions }
    requires few { length seats.now ≤ 64 }
    requires decided { IsUndecided (learned_by seats.now) → ⊥ }
    ensures made { IfOk result (IsMadeOf (function_names source.now) digest.now program.now seats.now nodes) }
    ensures asked { IfOk result (λ built. is_some built.bundle ≡ bundles) }
{
    let Ok(bytes) = written(alloc, program) else {
        return Err(NoMemory);
    };
    let Ok(bundle) = bundle_of(alloc, digest, seats, bundles) else {
        return Err(NoMemory);
    };
    match reported(alloc, source, seats, &bytes, nodes) {
        Ok(report) => Ok(Built {
            program: bytes,
            bundle,
            report,
        }),
        Err(fault) => Err(fault),
    }
}
