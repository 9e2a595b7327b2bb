//! The whole command.

ghost use Rattle.std.specs.Prelude.{◌≡◌, ℕ, OnOk, IfOk, IfErr};
ghost use Rattle.std.specs.String.{string_bytes};
ghost use Rattle.hex.specs.Hex.{encode_lower};
ghost use Rattle.bundle_reading.specs.Read.{offers_in};
ghost use Rattle.bundle_reading.specs.Texts.{IsBundleOf};
ghost use Rattle.sha2.specs.Sha256.{sha256};
ghost use Rattle.cfarm_verify_reading.specs.Found.{IsSourceOf};
ghost use Rattle.cfarm_verify_reading.specs.Spelled.{IsSpelled};
ghost use Rattle.cfarm_verify.specs.Answered.{IsAnswer, IsLineFor};
ghost use Rattle.cfarm_verify.specs.Lines.{line_with};
ghost use Rattle.cfarm_verify.specs.Told.{HasVerified, IsUnverified, IsVerified, IsWant, Printed};

use crate::checking::checked;
use crate::preparing::prepared;
use crate::reading::{read_bundle, read_linear};
use bundle_reading::{Four, one_bundle};
use cfarm_output::print_whole;
use cfarm_verify::VerifyError;
use farm_nodes_source::Source;
use lang::one_program;
use lang_base::{Program, keeps_composes};
use linear_language::{Function, Linear};
use sha2::{Digest, Sha256};
use std::alloc::{AllocError, Global};
use std::io::Write;

/// How many functions there are, where the offers of the bundle come to the program.
fn settled(
    alloc: Global,
    text: &[u8],
    program: &[u8],
    bundle: &[u8],
    source: &Source,
    linear: &Program<Function>,
    digest: &[u8],
    fours: &[Four],
) -> Result<usize, VerifyError>
    requires source { IsSourceOf text.now source.now }
    requires spelled { IsSpelled program.now linear.now }
    requires bundled { IsBundleOf bundle.now digest.now (offers_in fours.now) }
    ensures verified { IfOk result (IsVerified text.now program.now bundle.now) }
    ensures refused { IfErr result (IsUnverified text.now program.now bundle.now) }
    ensures only { (n : ℕ) → IsVerified text.now program.now bundle.now n → IfErr result IsWant }
{
    keeps_composes();
    one_program::<Linear>();
    one_bundle();
    let functions = fours.len();
    let (hash, begun) = (source.digest.as_slice(), &*source.translated);
    match checked(alloc, hash, begun, linear, digest, fours) {
        Ok(()) => Ok(functions),
        Err(fault) => Err(fault),
    }
}

/// How many functions there are, where the program is verified.
fn verified(alloc: Global, text: &[u8], program: &[u8], bundle: &[u8]) -> Result<usize, VerifyError>
    ensures verified { IfOk result (IsVerified text.now program.now bundle.now) }
    ensures refused { IfErr result (IsUnverified text.now program.now bundle.now) }
    ensures only { (n : ℕ) → IsVerified text.now program.now bundle.now n → IfErr result IsWant }
{
    let source = match prepared(alloc, text) {
        Ok(source) => source,
        Err(fault) => return Err(VerifyError::Source(fault)),
    };
    let linear = match read_linear(alloc, program) {
        Ok(linear) => linear,
        Err(fault) => return Err(VerifyError::Program(fault)),
    };
    let found = match read_bundle(alloc, bundle) {
        Ok(found) => found,
        Err(fault) => return Err(VerifyError::Bundle(fault)),
    };
    let (digest, fours) = (found.digest.as_slice(), found.fours.as_slice());
    settled(
        alloc, text, program, bundle, &source, &linear, digest, fours,
    )
}

/// The answer, with the end of the line.
fn line_of(alloc: Global, functions: usize, digits: &str) -> Result<String, AllocError>
    ensures { IfOk result (λ line. string_bytes line ≡ line_with functions digits.now) }
{
    format!(in alloc; "verified {functions} functions {digits}\n")
}

/// The answer of so many functions, with the digits of a hash, or why there is none.
fn line_for(
    alloc: Global,
    digits: Result<String, AllocError>,
    found: Result<usize, VerifyError>,
) -> Result<String, VerifyError>
    ensures { IsLineFor string_bytes found digits result }
{
    let functions = match found {
        Ok(functions) => functions,
        Err(fault) => return Err(fault),
    };
    let digits = match digits {
        Ok(digits) => digits,
        Err(_) => return Err(VerifyError::NoMemory),
    };
    match line_of(alloc, functions, digits.as_str()) {
        Ok(line) => Ok(line),
        Err(_) => Err(VerifyError::NoMemory),
    }
}

/// The answer of what was found of the three, with the digits of the program's hash.
fn answer_of(
    alloc: Global,
    text: &[u8],
    program: &[u8],
    bundle: &[u8],
    digits: Result<String, AllocError>,
    found: Result<usize, VerifyError>,
) -> Result<String, VerifyError>
    requires digits { IfOk digits (λ digits. string_bytes digits ≡ encode_lower (sha256 program.now)) }
    requires verified { IfOk found (IsVerified text.now program.now bundle.now) }
    requires refused { IfErr found (IsUnverified text.now program.now bundle.now) }
    requires only { (n : ℕ) → IsVerified text.now program.now bundle.now n → IfErr found IsWant }
    ensures answer { IfOk result (λ line. IsAnswer text.now program.now bundle.now (string_bytes line)) }
    ensures refused { IfErr result (IsUnverified text.now program.now bundle.now) }
    ensures only { (n : ℕ) → IsVerified text.now program.now bundle.now n → IfErr result IsWant }
{
    line_for(alloc, digits, found)
}

/// Whether the program's bytes are those of a linked program that keeps the C text's meaning, by the offers of the bundle: prints
/// `verified F functions H`, which is flushed, H being the SHA-256 of the program's bytes. The time is linear in the three, as far as
/// the passes' checks are.
pub fn verify<W: Write>(
    alloc: Global,
    text: &[u8],
    program: &[u8],
    bundle: &[u8],
    out: &mut W,
) -> Result<(), VerifyError>
    // It says yes exactly where the bundle's offers, each accepted by its pass, chain from the text's RTL to this very program.
    ensures verified { OnOk result (HasVerified text.now program.now bundle.now (W.contents out.old) (W.contents out.new)) }
    // Where it says no, the first reason holds.
    ensures refused { IfErr result (IsUnverified text.now program.now bundle.now) }
    ensures held { IfErr result (λ e. Printed text.now program.now bundle.now e (W.contents out.old) (W.contents out.new)) }
    // A program that is verified by the bundle is refused only where memory is, or where the answer cannot be written.
    ensures only { (n : ℕ) → IsVerified text.now program.now bundle.now n → IfErr result IsWant }
{
    let hash = Sha256::digest(program);
    let digits = hex::encode(alloc, hash.as_slice());
    let found = verified(alloc, text, program, bundle);
    let line = match answer_of(alloc, text, program, bundle, digits, found) {
        Ok(line) => line,
        Err(fault) => return Err(fault),
    };
    match print_whole(out, line.as_bytes()) {
        Ok(()) => Ok(()),
        Err(_) => Err(VerifyError::Write),
    }
}
