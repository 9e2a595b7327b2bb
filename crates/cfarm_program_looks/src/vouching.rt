//! A text of native code that is verified with the program.

ghost use Rattle.std.specs.Prelude.{◌≡◌, ◌≤◌, IfErr, IfOk, false, true};
ghost use Rattle.std.specs.Str.{bytes_eq};
ghost use Rattle.cfarm_native.specs.Told.{IsUnmade};
ghost use Rattle.cfarm_verify.specs.Found.{AreSpelled, IsPrepared};
ghost use Rattle.cfarm_program_looks.specs.Vouching.{Compared, HasLine, IsAnother, IsNative, Proves, Vouches, in_memory};
ghost use Rattle.cfarm_program_status.specs.Reading.{Says};
ghost use Rattle.cfarm_program_status.specs.Trace.{shown};

use crate::verifying::verify_bytes;
use cfarm_files::Files;
use cfarm_native::{Form, native_of};
use cfarm_output::{ErrorLines, Paced, print_whole};
use cfarm_program_status::{UNWRITTEN, tell, tell_unread};
use cfarm_run::ExecError;
use cfarm_verify::{Forms, VerifyError, VerifyLine, verify};
use farm_nodes_source::{Source, SourceFault};
use native_text::Doorways;
use std::alloc::Global;
use std::fmt;
use std::io::Write;
use std::thread::Threads;

/// What is verified: that the bundle proves that the program means what the text means. The bundle's file is that of `path`.
#[derive(Clone, Copy)]
pub(crate) struct Claim<'a> {
    pub text: &'a [u8],
    pub program_path: &'a str,
    pub program: &'a [u8],
    pub path: &'a str,
    pub bundle: &'a [u8],
}

/// The status of a text that is not the program's.
const REFUSED: u8 = 1;

/// The line for a file whose text is not that of the program's native code.
#[derive(Drop)]
struct OtherText<'a>(&'a str);

impl fmt::Display for OtherText<'_> {
    ghost use Rattle.std.specs.Prelude.{Some};
    ghost use Rattle.cfarm_program_looks.specs.Vouching.{other_line};

    ghost output = { λ file. Some (other_line file.0.now) };

    fn fmt<W: fmt::Write>(&self, f: &mut fmt::Formatter<W>) -> fmt::Result {
        let path = self.0;
        write!(f, "refused 605 OtherText in {path}")
    }
}

/// Prints the line that says that the program is verified.
fn print_line<W: Write, E: ErrorLines>(line: &[u8], out: &mut Paced<W>, err: &mut E) -> u8
    ensures does { Says W.contents E.contents (HasLine line.now) (shown result out err) }
    ensures table { result ≤ 7 }
{
    match print_whole(out, line) {
        Ok(()) => 0,
        Err(_) => tell(err, "write 701", UNWRITTEN),
    }
}

fn is_same(left: &[u8], right: &[u8]) -> bool
    ensures { result ≡ bytes_eq left.now right.now }
{
    left == right
}

/// Whether the text is that of the program's native code.
fn is_native(alloc: Global, program: &[u8], native: &[u8]) -> Result<bool, ExecError>
    ensures same { IfOk result (λ is. is ≡ true → IsNative program.now native.now) }
    ensures other { IfOk result (λ is. is ≡ false → IsAnother program.now native.now) }
    ensures unmade { IfErr result (λ fault. IsUnmade program.now fault) }
{
    match native_of(alloc, program, &Form::Code(Doorways::Main)) {
        Ok(text) => Ok(is_same(native, &text)),
        Err(fault) => Err(fault),
    }
}

/// Prints the line where the text, in the file of this path, is that of the program's native code, or tells that it is another.
#[tactic(auto, using(crate::proofs::NativeStatuses::in_table))]
fn compare<W: Write, E: ErrorLines>(
    alloc: Global,
    program: &[u8],
    path: &str,
    native: &[u8],
    line: &[u8],
    out: &mut Paced<W>,
    err: &mut E,
) -> u8
    ensures does { Says W.contents E.contents (Compared program.now path.now native.now line.now) (shown result out err) }
    ensures table { result ≤ 7 }
{
    match is_native(alloc, program, native) {
        Ok(is_native) => {
            if is_native {
                print_line(line, out, err)
            } else {
                tell(err, OtherText(path), REFUSED)
            }
        }
        Err(fault) => tell(err, fault, fault.status()),
    }
}

/// What it is that a line in memory could not be written: there was no memory.
fn in_memory(fault: VerifyError) -> VerifyError
    ensures { result ≡ in_memory fault }
{
    match fault {
        VerifyError::NoMemory | VerifyError::Write => VerifyError::NoMemory,
        VerifyError::Source(fault) => VerifyError::Source(fault),
        VerifyError::Program(fault) => VerifyError::Program(fault),
        VerifyError::Bundle(fault) => VerifyError::Bundle(fault),
        VerifyError::OtherSource => VerifyError::OtherSource,
        VerifyError::ProgramNames => VerifyError::ProgramNames,
        VerifyError::BundleNames => VerifyError::BundleNames,
        VerifyError::Offer(fault, name) => VerifyError::Offer(fault, name),
        VerifyError::OtherFunction(name) => VerifyError::OtherFunction(name),
        VerifyError::OtherGlobals => VerifyError::OtherGlobals,
    }
}

/// Of what is claimed, and of the text of native code that the file of this path has.
#[tactic(auto, using(crate::proofs::VerifyStatuses::in_table))]
fn vouch<R: Threads + Sync, W: Write, E: ErrorLines>(
    rt: &R,
    alloc: Global,
    claim: Claim<'_>,
    path: &str,
    native: &[u8],
    source: Result<Source, SourceFault>,
    forms: Forms,
    out: &mut Paced<W>,
    err: &mut E,
) -> u8
    requires source { IsPrepared claim.text.now source }
    requires forms { AreSpelled claim.program.now claim.bundle.now forms }
    ensures does { Says W.contents E.contents (Vouches claim.entry path.now native.now) (shown result out err) }
    ensures table { result ≤ 7 }
{
    let mut line = Vec::new(alloc);
    match verify(
        rt,
        alloc,
        claim.text,
        claim.program,
        claim.bundle,
        source,
        forms,
        &mut line,
    ) {
        Ok(()) => compare(alloc, claim.program, path, native, &line, out, err),
        Err(fault) => {
            let kept = in_memory(fault);
            let status = kept.status();
            let told = VerifyLine {
                fault: kept,
                program: claim.program_path,
                bundle: claim.path,
            };
            tell(err, told, status)
        }
    }
}

/// Says whether the claim holds, and whether the text of native code in the file of this path, where one is given, is the program's.
pub(crate) fn verify_claim<R: Threads + Sync, F: Files, W: Write, E: ErrorLines>(
    rt: &R,
    alloc: Global,
    files: &F,
    claim: Claim<'_>,
    path: Option<&str>,
    source: Result<Source, SourceFault>,
    forms: Forms,
    out: &mut Paced<W>,
    err: &mut E,
) -> u8
    requires source { IsPrepared claim.text.now source }
    requires forms { AreSpelled claim.program.now claim.bundle.now forms }
    ensures does { Says W.contents E.contents (Proves claim.entry path.entry (F.known files.now)) (shown result out err) }
    ensures table { result ≤ 7 }
{
    match path {
        None => verify_bytes(rt, alloc, claim, source, forms, out, err),
        Some(path) => match files.read(path) {
            Ok(native) => vouch(rt, alloc, claim, path, &native, source, forms, out, err),
            Err(fault) => tell_unread(err, path, fault),
        },
    }
}
