//! Who makes the baselines of a pass, and what is known of them.

ghost use Rattle.std.specs.Prelude.{◌≡◌, ◌≢◌, IfOk, IfErr};

use crate::offer::Offer;
use lang_base::{Language, Pass, PassError};
use std::alloc::Global;

/// Who makes the baselines of a pass. Whoever asks for an offer names one, and so says how much it wants to know of a
/// baseline.
pub trait Baselines<P: Pass> {
    /// What is known of an input, and of its baseline's output and certificate.
    ghost is_baseline: { P.In.Fun → P.Out.Fun → P.Cert → Type 0 };

    /// The baseline of the input.
    fn made(
        alloc: Global,
        input: &<P::In as Language>::Fun,
    ) -> Result<(<P::Out as Language>::Fun, P::Cert), PassError>
        ensures is { IfOk result (λ made. is_baseline input.now made.0 made.1) }
        ensures accepted { IfOk result (λ made. P.accepts input.now made.0 made.1) }
        ensures refused { IfErr result (λ e. e ≢ PassError.NoMemory → P.too_large input.now) };
}

/// The baselines of any pass: it is known that the pass accepts them.
pub struct AcceptedBaselines;

impl<P: Pass> Baselines<P> for AcceptedBaselines {
    ghost is_baseline = { P.accepts };

    fn made(
        alloc: Global,
        input: &<P::In as Language>::Fun,
    ) -> Result<(<P::Out as Language>::Fun, P::Cert), PassError> {
        P::baseline(alloc, input)
    }
}

/// The offer of a baseline.
pub fn baseline_of<P: Pass, B: Baselines<P>>(
    alloc: Global,
    input: &<P::In as Language>::Fun,
) -> Result<Offer<P>, PassError>
    ensures input { IfOk result (λ offer. offer.input ≡ input.now) }
    ensures baseline { IfOk result (λ offer. B.is_baseline offer.input offer.output offer.certificate) }
    ensures refused { IfErr result (λ e. e ≢ PassError.NoMemory → P.too_large input.now) }
{
    let (output, certificate) = B::made(alloc, input)?;
    let copied = P::In::copy(alloc, input)?;
    Ok(Offer::known(copied, output, certificate))
}
