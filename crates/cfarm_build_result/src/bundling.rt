//! The learned offers, and no others, are written.

ghost use Rattle.std.specs.Prelude.{◌≡◌, ◌≤◌, length, IfOk, IsSome};
ghost use Rattle.farm_nodes_link.specs.Learned.{learned_by, learned_four, IsUndecided};
ghost use Rattle.bundle_offers.specs.Texts.{IsBundleOf};
ghost use Rattle.cfarm_build_result.specs.Bundled.{offers_in, AreTextsAt, AreTextsOf, LinksLearned};

use bundle_form::Texts;
use bundle_offers::{texts_of, written};
use farm_nodes_link::{NumberedSeat, chain_of};
use lang_base::NoMemory;
use rooms_hall::Naming;
use std::alloc::Global;

/// The texts of the four offers of a function, all of which are learned and seen.
fn texts_at<H: Naming>(alloc: Global, numbered: &NumberedSeat<H>) -> Result<Texts, NoMemory>
    requires { IsSome (learned_four numbered.now) }
    ensures { IfOk result (AreTextsAt (learned_four numbered.now)) }
{
    match chain_of(numbered) {
        Some(chain) => texts_of(alloc, &chain),
        None => unreachable!(),
    }
}

/// The texts of the offers of all functions.
fn all_texts<H: Naming>(alloc: Global, seats: &[NumberedSeat<H>]) -> Result<Vec<Texts>, NoMemory>
    requires { IsUndecided (learned_by seats.now) → ⊥ }
    ensures { IfOk result (λ texts. AreTextsOf (learned_by seats.now) texts.items) }
{
    let mut texts = Vec::new(alloc);
    for function in 0..seats.len() {
        texts.push(texts_at(alloc, &seats[function])?)?;
    }
    Ok(texts)
}

/// The bytes of the bundle of the offers that the node has learned, of which none is wanting, and of the text's digest: by it whoever
/// trusts no node finds that what they link is the text's program. The time is linear in the offers.
pub fn bundled<H: Naming>(
    alloc: Global,
    digest: &[u8],
    seats: &[NumberedSeat<H>],
) -> Result<Vec<u8>, NoMemory>
    requires digest { length digest.now ≡ 32 }
    requires few { length seats.now ≤ 64 }
    requires decided { IsUndecided (learned_by seats.now) → ⊥ }
    ensures bundle { IfOk result (λ bytes. IsBundleOf bytes.items digest.now (offers_in (learned_by seats.now))) }

    // From whatever program the offers go on, their bundle is that of the program which they link.
    ensures links { IfOk result (λ bytes. LinksLearned bytes.items digest.now (learned_by seats.now)) }
{
    let texts = all_texts(alloc, seats)?;
    match written(alloc, digest, texts) {
        Ok(bytes) => Ok(bytes),
        Err(fault) => Err(fault),
    }
}
