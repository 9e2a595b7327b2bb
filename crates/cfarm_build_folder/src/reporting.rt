//! What was built is put, and its report printed.

ghost use Rattle.std.specs.Prelude.{◌≡◌, ◌++◌, ◌∷◌, [], OnOk, IfOk, IfErr, is_some};
ghost use Rattle.std.specs.String.{string_bytes};
ghost use Rattle.cfarm_files.specs.Locking.{CoversFolder};
ghost use Rattle.cfarm_files.specs.Using.{UsesNone};
ghost use Rattle.cfarm_build_folder.specs.Done.{HasPut, HasPutNot};

use crate::error::BuildingError;
use crate::placing::place_both;
use cfarm_build_faults::BuildError;
use cfarm_files::Files;
use cfarm_options::BuildOptions;
use cfarm_output::print_whole;
use std::alloc::{AllocError, Global};
use std::io::Write;

/// The report, with the end of the line.
fn line_of(report: String) -> Result<String, AllocError>
    ensures { IfOk result (λ line. string_bytes line ≡ string_bytes report ++ 10 ∷ []) }
{
    let mut line = report;
    match line.push('\n') {
        Ok(()) => Ok(line),
        Err(fault) => Err(fault),
    }
}

/// Puts what was built in its files, the bundle first where one is asked for, and then prints the report on one line.
pub fn put_built<F: Files, W: Write>(
    alloc: Global,
    options: BuildOptions<'_>,
    files: &mut F,
    lock: &F::Lock,
    program: Vec<u8>,
    bundle: Option<Vec<u8>>,
    report: String,
    out: &mut W,
) -> Result<(), BuildingError>
    requires locked { CoversFolder (F.covers lock.now) options.folder.now }
    requires made { is_some bundle ≡ is_some options.bundle }
    ensures put { OnOk result (HasPut F.placed W.contents options.entry bundle program report files out) }
    ensures refused { IfErr result (HasPutNot F.placed W.contents options.entry bundle program report files out) }
    ensures unused { UsesNone (F.used files.old) (F.used files.new) }
{
    let Ok(line) = line_of(report) else {
        return Err(BuildingError::Build(BuildError::NoMemory));
    };
    match place_both(alloc, options, files, lock, &program, &bundle) {
        Ok(()) => {}
        Err(fault) => return Err(fault),
    }
    match print_whole(out, line.as_bytes()) {
        Ok(()) => Ok(()),
        Err(_) => Err(BuildingError::Write),
    }
}
