//! Reading the parts of a written offer, one behind the other.

ghost use Rattle.std.specs.Prelude.{◌≡◌, ◌≢◌, ℕ, List, [], ◌∷◌, ◌++◌, IfOk, IfErr};
ghost use Rattle.offers.specs.Text.{text_of, PartsFit};
ghost use Rattle.offers.specs.Fronts.{IsOnlyFront, HasNoFront, AnswersOther};
ghost use Rattle.offers.specs.Reading.{IsOnlyCertificate, HasNoCertificate, IsOnlyText, HasNoText};

use crate::parts::{Parts, PartsOf};
use lang_base::{FormError, Language, Pass};
use std::alloc::Global;

/// The bytes behind a first byte that is the pass's number.
fn after_number(number: u8, bytes: &[u8]) -> Result<&[u8], FormError>
    ensures front { IfOk result (λ behind. bytes.now ≡ number ∷ behind.now) }
    ensures short { result ≡ Err FormError.Short → bytes.now ≡ [] }
    ensures other { IfErr result (λ _. (rest : List ℕ) → bytes.now ≢ number ∷ rest) }
    ensures empty { bytes.now ≡ [] → result ≡ Err FormError.Short }
    ensures tag { AnswersOther number bytes.now result (Err FormError.BadTag) }
{
    match bytes {
        [] => Err(FormError::Short),
        [first, behind @ ..] if *first == number => Ok(behind),
        [_first, _behind @ ..] => Err(FormError::BadTag),
    }
}

/// The function that the bytes begin with, and the bytes behind it.
fn function_at<L: Language>(alloc: Global, bytes: &[u8]) -> Result<(L::Fun, &[u8]), FormError>
    ensures fits { IfOk result (λ found. L.fits found.0) }
    ensures front { IfOk result (λ found. bytes.now ≡ L.spelling found.0 ++ found.1.now) }
    ensures only { IfOk result (λ found. IsOnlyFront L.fits L.spelling bytes.now found.0 found.1.now) }
    ensures refused { IfErr result (λ e. e ≢ FormError.NoMemory → HasNoFront L.fits L.spelling bytes.now) }
{
    let (function, used) = L::read(alloc, bytes)?;
    let (_front, behind) = bytes.split_at(used);
    Ok((function, behind))
}

/// The certificate that the bytes begin with, and the bytes behind it.
fn certificate_at<'a, P: Pass>(
    alloc: Global,
    input: &<P::In as Language>::Fun,
    output: &<P::Out as Language>::Fun,
    bytes: &'a [u8],
) -> Result<(P::Cert, &'a [u8]), FormError>
    ensures fits { IfOk result (λ found. P.cert_fits input.now output.now found.0) }
    ensures front { IfOk result (λ found. bytes.now ≡ P.cert_spelling input.now output.now found.0 ++ found.1.now) }
    ensures only { IfOk result (λ found. IsOnlyCertificate P.Pass input.now output.now bytes.now found.0 found.1.now) }
    ensures refused { IfErr result (λ e. e ≢ FormError.NoMemory → HasNoCertificate P.Pass input.now output.now bytes.now) }
{
    let (certificate, used) = P::read_cert(alloc, input, output, bytes)?;
    let (_front, behind) = bytes.split_at(used);
    Ok((certificate, behind))
}

/// The parts whose text the bytes begin with, and the bytes behind it.
pub(crate) fn parts_at<P: Pass>(
    alloc: Global,
    bytes: &[u8],
) -> Result<(PartsOf<P>, &[u8]), FormError>
    ensures fits { IfOk result (λ found. PartsFit P.In.fits P.Out.fits P.cert_fits found.0) }
    ensures front { IfOk result (λ found. bytes.now ≡ text_of P.In.Language P.Out.Language P.Pass found.0 ++ found.1.now) }
    ensures only { IfOk result (λ found. IsOnlyText P.In.Language P.Out.Language P.Pass bytes.now found.0 found.1.now) }
    ensures refused { IfErr result (λ e. e ≢ FormError.NoMemory → HasNoText P.In.Language P.Out.Language P.Pass bytes.now) }
    ensures empty { bytes.now ≡ [] → result ≡ Err FormError.Short }
    ensures tag { AnswersOther P.NUMBER bytes.now result (Err FormError.BadTag) }
{
    let behind = after_number(P::NUMBER, bytes)?;
    let (input, behind) = function_at::<P::In>(alloc, behind)?;
    let (output, behind) = function_at::<P::Out>(alloc, behind)?;
    let (certificate, behind) = certificate_at::<P>(alloc, &input, &output, behind)?;
    let parts = Parts {
        input,
        output,
        certificate,
    };
    Ok((parts, behind))
}
