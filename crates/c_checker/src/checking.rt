//! The checker of whole texts.

ghost use Rattle.std.specs.Prelude.{◌≡◌, [], IfOk, IfErr};
ghost use Rattle.c_checker_rules.specs.Told.{Tells};
ghost use Rattle.c_checker_rules.specs.Units as U;
ghost use Rattle.c_syntax.specs.Units.{unit_tree};
ghost use Rattle.c_checker_rules.specs.Checked.{program_tree};

use crate::bodies::bodies_of;
use crate::progress::Progress;
use crate::unit::take_all;
use c_checker_rules::{CProgram, CheckError};
use c_syntax::Unit;
use std::alloc::Global;

/// The program of a well formed text, or the first fault in it, in the order of the text. The time is linear
/// in the tree.
#[tactic(auto, using(c_checker_rules::proofs::Firsts::tells_front, c_checker_rules::proofs::Firsts::tells_behind))]
pub fn check(alloc: Global, unit: &Unit) -> Result<CProgram, CheckError>
    ensures ok { IfOk result (λ p. U.IsWellFormed (unit_tree unit.now)) }
    ensures program { IfOk result (λ p. program_tree p ≡ U.program_of (unit_tree unit.now)) }
    ensures err { IfErr result (λ e. Tells e (U.unit_faults (unit_tree unit.now))) }
{
    let bodies = bodies_of(alloc, unit.declarations())?;
    let progress = take_all(alloc, bodies, unit.declarations())?;
    let Progress {
        functions,
        globals,
        defined,
        ..
    } = progress;
    match functions.bodies.find(b"main".as_slice()) {
        Some(main) => Ok(CProgram::new(globals, defined, main.value)),
        None => Err(CheckError::NoMain(unit.end())),
    }
}
