ghost use Rattle.std.specs.Prelude.{◌≤◌, option_copied};
ghost use Rattle.cfarm_verify.specs.Found.{AreSpelled, IsPrepared};
ghost use Rattle.cfarm_program_looks.specs.Reading.{AreRead, IsReadWith};
ghost use Rattle.cfarm_program_looks.specs.Vouching.{IsProven, VerifiedWith};
ghost use Rattle.cfarm_program_status.specs.Reading.{Says};
ghost use Rattle.cfarm_program_status.specs.Trace.{shown};

use crate::vouching::{Claim, verify_claim};
use cfarm_files::{FileFault, Files};
use cfarm_output::{ErrorLines, Paced};
use cfarm_program_status::{tell, tell_unread};
use cfarm_verify::{Forms, VerifyLine, prepared, read_forms, verify};
use farm_nodes_source::{Source, SourceFault};
use std::alloc::Global;
use std::io::Write;
use std::thread::{Threads, join};

/// The program's bytes and the bundle's, with what is found of both, or whose file was not read.
#[derive(Drop)]
pub(crate) enum Read {
    NoProgram(FileFault),
    NoBundle(FileFault),
    Both(Vec<u8>, Vec<u8>, Forms),
}

/// Reads the file of the bundle, and what it and the program spell.
fn read_with<R: Threads + Sync, F: Files>(
    rt: &R,
    alloc: Global,
    files: &F,
    program: Vec<u8>,
    path: &str,
) -> Read
    ensures { IsReadWith (F.known files.now path.now) program.items result }
{
    match files.read(path) {
        Ok(bundle) => {
            let forms = read_forms(rt, alloc, &program, &bundle);
            Read::Both(program, bundle, forms)
        }
        Err(fault) => Read::NoBundle(fault),
    }
}

/// Reads the file of the program and then that of the bundle, and what they spell.
fn read_files<R: Threads + Sync, F: Files>(
    rt: &R,
    alloc: Global,
    files: &F,
    program_path: &str,
    path: &str,
) -> Read
    ensures { AreRead (F.known files.now program_path.now) (F.known files.now path.now) result }
{
    match files.read(program_path) {
        Ok(program) => read_with(rt, alloc, files, program, path),
        Err(fault) => Read::NoProgram(fault),
    }
}

/// Of what is claimed.
#[tactic(auto, using(crate::proofs::VerifyStatuses::in_table))]
pub(crate) fn verify_bytes<R: Threads + Sync, W: Write, E: ErrorLines>(
    rt: &R,
    alloc: Global,
    claim: Claim<'_>,
    source: Result<Source, SourceFault>,
    forms: Forms,
    out: &mut Paced<W>,
    err: &mut E,
) -> u8
    requires source { IsPrepared claim.text.now source }
    requires forms { AreSpelled claim.program.now claim.bundle.now forms }
    ensures does { Says W.contents E.contents (IsProven claim.entry) (shown result out err) }
    ensures table { result ≤ 7 }
{
    match verify(
        rt,
        alloc,
        claim.text,
        claim.program,
        claim.bundle,
        source,
        forms,
        out,
    ) {
        Ok(()) => 0,
        Err(fault) => {
            let status = fault.status();
            let line = VerifyLine {
                fault,
                program: claim.program_path,
                bundle: claim.path,
            };
            tell(err, line, status)
        }
    }
}

/// `verify`: reads the program and then the bundle, and says whether the bundle proves that the program means what the text
/// means; and whether a text of native code, where one is given, is exactly that of the program. The text is made ready while the first two files
/// are read.
pub fn verify_files<R: Threads + Sync, F: Files, W: Write, E: ErrorLines>(
    rt: &R,
    alloc: Global,
    files: &F,
    text: &[u8],
    program_path: &str,
    path: &str,
    native: Option<&str>,
    out: &mut Paced<W>,
    err: &mut E,
) -> u8
    ensures does { Says W.contents E.contents (VerifiedWith (option_copied native.entry) (F.known files.now) program_path.now path.now text.now)
        (shown result out err) }
    ensures table { result ≤ 7 }
{
    let (source, read) = join(
        rt,
        || -> Result<Source, SourceFault>
            ensures { IsPrepared text.entry.now result }
        { prepared(rt, alloc, text) },
        || -> Read
            ensures { AreRead (F.known files.entry.now program_path.entry.now) (F.known files.entry.now path.entry.now) result }
        { read_files(rt, alloc, files, program_path, path) },
    );
    match read {
        Read::NoProgram(fault) => tell_unread(err, program_path, fault),
        Read::NoBundle(fault) => tell_unread(err, path, fault),
        Read::Both(program, bundle, forms) => {
            let bytes = program.as_slice();
            let offers = bundle.as_slice();
            let claim = Claim {
                text,
                program_path,
                program: bytes,
                path,
                bundle: offers,
            };
            verify_claim(rt, alloc, files, claim, native, source, forms, out, err)
        }
    }
}
