//! The whole command.

ghost use Rattle.std.specs.Prelude.{◌≡◌, ℕ, OnOk, IfOk, IfErr};
ghost use Rattle.std.specs.String.{string_bytes};
ghost use Rattle.hex.specs.Hex.{encode_lower};
ghost use Rattle.bundle_reading.specs.Read.{offers_in};
ghost use Rattle.bundle_reading.specs.Texts.{IsBundleOf};
ghost use Rattle.bundle_offers.specs.Standing.{AreAlone};
ghost use Rattle.sha2.specs.Sha256.{sha256};
ghost use Rattle.cfarm_verify_reading.specs.Found.{AreSpelled, IsPrepared, IsSourceOf};
ghost use Rattle.cfarm_verify.specs.Answered.{IsAnswer, IsLineFor};
ghost use Rattle.cfarm_verify.specs.Lines.{line_with};
ghost use Rattle.cfarm_verify_reading.specs.Spelled.{IsSpelled};
ghost use Rattle.cfarm_verify.specs.Told.{HasVerified, IsUnverified, IsVerified, IsWant, Printed};

use crate::checking::checked;
use crate::error::VerifyError;
use bundle_offers::{JudgedBundle, OfferFault};
use bundle_reading::{Four, one_bundle};
use cfarm_output::print_whole;
use cfarm_verify_comparing::put_fours_away;
use cfarm_verify_reading::Forms;
use farm_nodes_source::{Source, SourceFault};
use lang::one_program;
use lang_base::{Program, keeps_composes};
use linear_language::{Function, Linear};
use std::alloc::{AllocError, Global};
use std::io::Write;
use std::thread::{Threads, join};

/// How many functions there are, where the offers of the bundle come to the program.
fn settled<R: Threads + Sync>(
    rt: &R,
    alloc: Global,
    text: &[u8],
    program: &[u8],
    bundle: &[u8],
    source: &Source,
    linear: &Program<Function>,
    digest: &[u8],
    fours: &[Four],
    alone: &[Result<(), OfferFault>],
) -> Result<usize, VerifyError>
    requires source { IsSourceOf text.now source.now }
    requires spelled { IsSpelled program.now linear.now }
    requires bundled { IsBundleOf bundle.now digest.now (offers_in fours.now) }
    requires alone { AreAlone fours.now alone.now }
    ensures verified { IfOk result (IsVerified text.now program.now bundle.now) }
    ensures refused { IfErr result (IsUnverified text.now program.now bundle.now) }
    ensures only { (n : ℕ) → IsVerified text.now program.now bundle.now n → IfErr result IsWant }
{
    keeps_composes();
    one_program::<Linear>();
    one_bundle();
    let functions = fours.len();
    let (hash, begun) = (source.digest.as_slice(), &*source.translated);
    match checked(rt, alloc, hash, begun, linear, digest, fours, alone) {
        Ok(()) => Ok(functions),
        Err(fault) => Err(fault),
    }
}

/// Gives back the memory of two programs and of their text's, side by side.
fn put_programs_away<R: Threads>(rt: &R, source: Source, linear: Program<Function>) {
    let Source {
        program,
        translated,
        digest: _,
    } = source;
    join(
        rt,
        || -> () { drop(program) },
        || -> () {
            drop(translated);
            drop(linear);
        },
    );
}

/// Gives back the memory of all that was read, side by side.
fn put_away<R: Threads + Sync>(
    rt: &R,
    alloc: Global,
    source: Source,
    linear: Program<Function>,
    fours: Vec<Four>,
) {
    join(
        rt,
        || -> () { put_fours_away(rt, alloc, fours) },
        || -> () { put_programs_away(rt, source, linear) },
    );
}

/// How many functions there are, where the program is verified, by what was read of the three.
fn verified<R: Threads + Sync>(
    rt: &R,
    alloc: Global,
    text: &[u8],
    program: &[u8],
    bundle: &[u8],
    source: Result<Source, SourceFault>,
    forms: Forms,
) -> Result<usize, VerifyError>
    requires prepared { IsPrepared text.now source }
    requires forms { AreSpelled program.now bundle.now forms }
    ensures verified { IfOk result (IsVerified text.now program.now bundle.now) }
    ensures refused { IfErr result (IsUnverified text.now program.now bundle.now) }
    ensures only { (n : ℕ) → IsVerified text.now program.now bundle.now n → IfErr result IsWant }
{
    let Forms {
        program: linear,
        bundle: found,
        ..
    } = forms;
    let source = match source {
        Ok(source) => source,
        Err(fault) => return Err(VerifyError::Source(fault)),
    };
    let linear = match linear {
        Ok(linear) => linear,
        Err(fault) => return Err(VerifyError::Program(fault)),
    };
    match found {
        Ok(
            JudgedBundle {
                digest,
                fours,
                alone,
            },
        ) => {
            let answer = settled(
                rt,
                alloc,
                text,
                program,
                bundle,
                &source,
                &linear,
                digest.as_slice(),
                fours.as_slice(),
                alone.as_slice(),
            );
            put_away(rt, alloc, source, linear, fours);
            answer
        }
        Err(fault) => Err(VerifyError::Bundle(fault)),
    }
}

/// The answer, with the end of the line.
fn line_of(alloc: Global, functions: usize, digits: &str) -> Result<String, AllocError>
    ensures { IfOk result (λ line. string_bytes line ≡ line_with functions digits.now) }
{
    format!(in alloc; "verified {functions} functions {digits}\n")
}

/// The answer of so many functions, with the digits of a hash, or why there is none.
fn line_for(
    alloc: Global,
    digits: Result<String, AllocError>,
    found: Result<usize, VerifyError>,
) -> Result<String, VerifyError>
    ensures { IsLineFor string_bytes found digits result }
{
    let functions = match found {
        Ok(functions) => functions,
        Err(fault) => return Err(fault),
    };
    let digits = match digits {
        Ok(digits) => digits,
        Err(_) => return Err(VerifyError::NoMemory),
    };
    match line_of(alloc, functions, digits.as_str()) {
        Ok(line) => Ok(line),
        Err(_) => Err(VerifyError::NoMemory),
    }
}

/// The answer of what was found of the three, with the digits of the program's hash.
fn answer_of(
    alloc: Global,
    text: &[u8],
    program: &[u8],
    bundle: &[u8],
    digits: Result<String, AllocError>,
    found: Result<usize, VerifyError>,
) -> Result<String, VerifyError>
    requires digits { IfOk digits (λ digits. string_bytes digits ≡ encode_lower (sha256 program.now)) }
    requires verified { IfOk found (IsVerified text.now program.now bundle.now) }
    requires refused { IfErr found (IsUnverified text.now program.now bundle.now) }
    requires only { (n : ℕ) → IsVerified text.now program.now bundle.now n → IfErr found IsWant }
    ensures answer { IfOk result (λ line. IsAnswer text.now program.now bundle.now (string_bytes line)) }
    ensures refused { IfErr result (IsUnverified text.now program.now bundle.now) }
    ensures only { (n : ℕ) → IsVerified text.now program.now bundle.now n → IfErr result IsWant }
{
    line_for(alloc, digits, found)
}

/// Whether the program's bytes are those of a linked program that keeps the C text's meaning, by the offers of the bundle: prints
/// `verified F functions H`, which is flushed, H being the SHA-256 of the program's bytes. No journal, no node and no digest is
/// trusted. The time is linear in the three, as far as the passes' checks are, and all processors share the checks. What is found of
/// each of the three by itself is given, so that files may be read while the text is made ready.
pub fn verify<R: Threads + Sync, W: Write>(
    rt: &R,
    alloc: Global,
    text: &[u8],
    program: &[u8],
    bundle: &[u8],
    source: Result<Source, SourceFault>,
    forms: Forms,
    out: &mut W,
) -> Result<(), VerifyError>
    requires prepared { IsPrepared text.now source }
    requires forms { AreSpelled program.now bundle.now forms }
    // It says yes exactly where the bundle's offers, each accepted by its pass, chain from the text's RTL to this very program.
    ensures verified { OnOk result (HasVerified text.now program.now bundle.now (W.contents out.old) (W.contents out.new)) }
    // Where it says no, the first reason holds.
    ensures refused { IfErr result (IsUnverified text.now program.now bundle.now) }
    ensures printed { IfErr result (λ fault. Printed text.now program.now bundle.now fault (W.contents out.old) (W.contents out.new)) }
    // A program that is verified by the bundle is refused only where memory is, or where the answer cannot be written.
    ensures only { (n : ℕ) → IsVerified text.now program.now bundle.now n → IfErr result IsWant }
{
    let digits = hex::encode(alloc, forms.hash.as_slice());
    let found = verified(rt, alloc, text, program, bundle, source, forms);
    let line = match answer_of(alloc, text, program, bundle, digits, found) {
        Ok(line) => line,
        Err(fault) => return Err(fault),
    };
    match print_whole(out, line.as_bytes()) {
        Ok(()) => Ok(()),
        Err(_) => Err(VerifyError::Write),
    }
}
