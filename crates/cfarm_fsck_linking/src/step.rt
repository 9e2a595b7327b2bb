//! One pass.

ghost use Rattle.std.specs.Prelude.{◌↔◌, ◌≡◌, IfOk, IfSome, IsTrue, option_copied};
ghost use Rattle.offers.specs.Text.{PartsFit, text_of};
ghost use Rattle.cfarm_fsck_linking.specs.Steps.{IsAnswered, IsEnd};

use lang_base::{FormError, Language, NoMemory, Pass};
use offers::{Offer, PartsOf};
use std::alloc::Global;

/// Whether an offer's input is the function in front of it, where that is known.
fn begins<L: Language>(start: Option<&L::Fun>, input: &L::Fun) -> bool
    ensures { IsTrue result ↔ IfSome start.entry (λ function. input.now ≡ function.now) }
{
    match start {
        None => true,
        Some(function) => input == function,
    }
}

/// The output of these parts, where they go on from the function in front of them.
#[tactic(auto, using(crate::proofs::Steps::seen_some, crate::proofs::Steps::lent_some))]
fn end_of<P: Pass>(
    start: Option<&<P::In as Language>::Fun>,
    parts: PartsOf<P>,
) -> Option<<P::Out as Language>::Fun>
    ensures { IsEnd (option_copied start.entry) parts result }
{
    if begins::<P::In>(start, &parts.input) {
        Some(parts.output)
    } else {
        None
    }
}

/// The function behind this text, where it is known, if the text is of an offer that goes on from the function in front of it.
#[tactic(auto, using(crate::proofs::Steps::none_known, crate::proofs::Steps::no_parts, crate::proofs::Steps::not_behind, crate::proofs::Steps::is_behind))]
pub(crate) fn behind<P: Pass>(
    alloc: Global,
    start: Option<&<P::In as Language>::Fun>,
    text: Option<&[u8]>,
) -> Result<Option<Option<<P::Out as Language>::Fun>>, NoMemory>
    ensures { IfOk result (IsAnswered P.In.Language P.Out.Language P.Pass
        (option_copied start.entry) (option_copied text.entry)) }
{
    let Some(text) = text else {
        return Ok(Some(None));
    };
    let parts = match Offer::<P>::parts(alloc, text) {
        Ok(parts) => parts,
        Err(FormError::NoMemory) => return Err(NoMemory),
        Err(_) => return Ok(None),
    };
    match end_of::<P>(start, parts) {
        Some(end) => Ok(Some(Some(end))),
        None => Ok(None),
    }
}
