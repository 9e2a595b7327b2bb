//! The offers that one node's optimisers make, or the baselines, and their texts.

ghost use Rattle.std.specs.Prelude.{◌≡◌, None, map, IfOk, OnOk};
ghost use Rattle.std.specs.List.{AllByRecursion};
ghost use Rattle.bundle_reading.specs.Texts.{texts_of, OffersFit};
ghost use Rattle.bundle_form.specs.Form.{TextsFit};
ghost use Rattle.cfarm_emit.specs.Made.{AreMade};

use bundle_form::Texts;
use bundle_reading::texts_of;
use chains::Offers;
use chains_made::{Maker, all_offers};
use lang_base::{Named, NoMemory};
use rand_pcg::Pcg32;
use rtl_language::Function;
use std::alloc::Global;

/// Who makes the offers: the baselines, or the optimisers of a first node, which draw from the seed.
fn maker_of(seed: Option<u64>) -> Maker
    ensures { seed ≡ None → result.draws ≡ None }
{
    match seed {
        None => Maker::baselines(),
        Some(seed) => Maker::optimisers(Pcg32::new(seed, 0)),
    }
}

/// The offers of each function.
pub(crate) fn made_offers(
    alloc: Global,
    functions: &[Named<Function>],
    seed: Option<u64>,
) -> Result<Vec<Offers>, NoMemory>
    ensures { IfOk result (λ offers. AreMade functions.now seed offers.items) }
{
    let mut maker = maker_of(seed);
    match all_offers(alloc, functions, &mut maker) {
        Ok(offers) => Ok(offers),
        Err(_) => Err(NoMemory),
    }
}

/// The texts of all offers.
pub(crate) fn all_texts(alloc: Global, offers: &[Offers]) -> Result<Vec<Texts>, NoMemory>
    ensures texts { IfOk result (λ texts. texts.items ≡ map texts_of offers.now) }
    ensures blocks { IfOk result (λ texts. AllByRecursion TextsFit texts.items) }
    ensures fit { OnOk result (AllByRecursion OffersFit offers.now) }
{
    let mut texts = Vec::new(alloc);
    for number in 0..offers.len() {
        texts.push(texts_of(alloc, &offers[number].chain())?)?;
    }
    Ok(texts)
}
