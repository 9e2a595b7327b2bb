//! What the bytes of a program and of a bundle spell.

ghost use Rattle.std.specs.Prelude.{◌≢◌, IfOk, IfErr};
ghost use Rattle.bundle_reading.specs.Read.{AreRead, IsFound, offers_in};
ghost use Rattle.bundle_reading.specs.Texts.{HasNoBundle, HaveNoOffers, IsBundleOf};
ghost use Rattle.cfarm_verify_reading.specs.Spelled.{IsNoProgram, IsSpelled};

use bundle_form::{Bundle, Texts, read};
use bundle_reading::{Alloc, Four, four_of, read_one};
use constprop_check::ConstProp;
use cse_check::Cse;
use lang::{one_program, read_program};
use lang_base::{FormError, Program, Row};
use linear_language::{Function, Linear};
use linearize_check::Linearize;
use std::alloc::Global;

/// The program of Linear that all of the bytes spell.
pub(crate) fn read_linear(alloc: Global, bytes: &[u8]) -> Result<Program<Function>, FormError>
    ensures ok { IfOk result (IsSpelled bytes.now) }
    ensures refused { IfErr result (λ fault. fault ≢ FormError.NoMemory → IsNoProgram bytes.now) }
{
    one_program::<Linear>();
    let (program, length) = read_program::<Linear>(alloc, bytes)?;
    if length < bytes.len() {
        return Err(FormError::NotCanonical);
    }
    Ok(program)
}

/// The parts of the four offers that a function's texts spell.
fn read_texts(alloc: Global, texts: &Texts) -> Result<Four, FormError>
    ensures { IsFound texts.now result }
{
    let one = read_one::<ConstProp>(alloc, texts.constants.as_slice());
    let two = read_one::<Cse>(alloc, texts.expressions.as_slice());
    let three = read_one::<Alloc>(alloc, texts.allocation.as_slice());
    let four = read_one::<Linearize>(alloc, texts.order.as_slice());
    four_of((one, two), (three, four))
}

/// The parts of all functions' offers, in order.
fn read_fours(alloc: Global, functions: &[Texts]) -> Result<Vec<Four>, FormError>
    ensures read { IfOk result (λ fours. AreRead functions.now fours.items) }
    ensures refused { IfErr result (λ e. e ≢ FormError.NoMemory → HaveNoOffers functions.now) }
{
    let mut fours = Vec::with_capacity(alloc, functions.len())?;
    for number in 0..functions.len() {
        match read_texts(alloc, &functions[number]) {
            Ok(four) => match fours.push(four) {
                Ok(()) => {}
                Err(_) => return Err(FormError::NoMemory),
            },
            Err(fault) => return Err(fault),
        }
    }
    Ok(fours)
}

/// What a bundle's bytes say.
#[derive(Drop)]
pub(crate) struct Bundled {
    pub(crate) digest: Row<u8>,
    /// The parts of each function's offers, whether their passes accept them or not.
    pub(crate) fours: Vec<Four>,
}

/// The digest and the offers of the bundle that all of the bytes spell.
pub(crate) fn read_bundle(alloc: Global, bytes: &[u8]) -> Result<Bundled, FormError>
    ensures spelled { IfOk result (λ b. IsBundleOf bytes.now b.digest (offers_in b.fours.items)) }
    ensures refused { IfErr result (λ e. e ≢ FormError.NoMemory → HasNoBundle bytes.now) }
{
    let bundle = read(alloc, bytes)?;
    let Bundle { digest, functions } = bundle;
    let fours = read_fours(alloc, functions.as_slice())?;
    Ok(Bundled { digest, fours })
}
