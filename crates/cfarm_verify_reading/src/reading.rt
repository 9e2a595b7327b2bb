ghost use Rattle.std.specs.Prelude.{◌≡◌, ◌≢◌, ◌<◌, IfOk, IfErr};
ghost use Rattle.bundle_offers.specs.Read.{offers_in};
ghost use Rattle.bundle_offers.specs.Standing.{AreAlone};
ghost use Rattle.bundle_offers.specs.Texts.{HasNoBundle, IsBundleOf};
ghost use Rattle.sha2.specs.Sha256.{sha256};
ghost use Rattle.cfarm_verify_reading.specs.Found.{AreSpelled};
ghost use Rattle.cfarm_verify_reading.specs.Spelled.{IsNoProgram, IsSpelled};

use crate::forms::Forms;
use bundle_offers::{JudgedBundle, read_judged};
use lang::{one_program, read_program};
use lang_base::{FormError, Program};
use lang_helpers::grow_arena;
use linear_language::{Function, Linear};
use sha2::{Digest, Sha256};
use std::alloc::Global;
use std::thread::{Threads, available_parallelism, join};

/// The program of Linear that all of the bytes spell.
fn read_linear(alloc: Global, bytes: &[u8]) -> Result<Program<Function>, FormError>
    ensures ok { IfOk result (IsSpelled bytes.now) }
    ensures refused { IfErr result (λ fault. fault ≢ FormError.NoMemory → IsNoProgram bytes.now) }
{
    one_program::<Linear>();
    grow_arena(alloc);
    let (program, length) = read_program::<Linear>(alloc, bytes)?;
    if length < bytes.len() {
        return Err(FormError::NotCanonical);
    }
    Ok(program)
}

/// How many threads share the bundle's offers: two for each processor, so that all processors are at work until the last offers are
/// judged, though functions differ in length.
fn workers_beside<R: Threads>(rt: &R) -> usize
    ensures { 0 < result }
{
    match available_parallelism(rt) {
        Ok(processors) => processors.get().saturating_mul(2).max(1),
        Err(_) => 1,
    }
}

/// A program, with the SHA-256 of its bytes.
type Hashed = (Result<Program<Function>, FormError>, [u8; 32]);

/// The program and the bytes' SHA-256, and what is found of the bundle, side by side.
pub fn read_forms<R: Threads + Sync>(rt: &R, alloc: Global, program: &[u8], bundle: &[u8]) -> Forms
    ensures { AreSpelled program.now bundle.now result }
{
    let workers = workers_beside(rt);
    let (hashed, bundle) = join(
        rt,
        || -> Hashed
            ensures ok { IfOk result.0 (IsSpelled program.entry.now) }
            ensures refused { IfErr result.0 (λ fault. fault ≢ FormError.NoMemory → IsNoProgram program.entry.now) }
            ensures hash { result.1 ≡ sha256 program.entry.now }
        { (read_linear(alloc, program), Sha256::digest(program)) },
        || -> Result<JudgedBundle, FormError>
            requires { 0 < workers }
            ensures spelled { IfOk result (λ b. IsBundleOf bundle.entry.now b.digest (offers_in b.fours.items)) }
            ensures alone { IfOk result (λ b. AreAlone b.fours.items b.alone.items) }
            ensures refused { IfErr result (λ fault. fault ≢ FormError.NoMemory → HasNoBundle bundle.entry.now) }
        { read_judged(rt, alloc, workers, bundle) },
    );
    let (program, hash) = hashed;
    Forms {
        program,
        hash,
        bundle,
    }
}
