//! The texts of offers.

ghost use Rattle.std.specs.Prelude.{◌≡◌, ◌≤◌, length, IfOk, OnOk};
ghost use Rattle.std.specs.List.{AllByRecursion};
ghost use Rattle.offers.specs.Text.{text_of, PartsFit};
ghost use Rattle.chains.specs.Accepted.{AreAccepted};
ghost use Rattle.bundle_form.specs.Form.{bundle_text, AreBytes, BlockFits, IsBundle, IsShort, TextsFit};
ghost use Rattle.bundle_reading.specs.LentOffers.{lent_offers};
ghost use Rattle.bundle_reading.specs.Texts.{texts_of, OffersFit};

use bundle_form::{Bundle, Texts, write};
use chains::{Alloc, Chain, Cse, Linearize};
use constprop_check::ConstProp;
use lang_base::{NoMemory, Pass, Row};
use lang_helpers::are_bytes;
use offers::Offer;
use std::alloc::Global;

/// Bytes that are held are bytes.
fn held(bytes: Vec<u8>) -> Row<u8>
    ensures same { result ≡ bytes.items }
    ensures bytes { AreBytes result }
{
    are_bytes(bytes.as_slice());
    Row::from_vec(bytes)
}

/// The text of an offer. One whose length four bytes do not say is answered as want of memory.
fn text_of<P: Pass>(alloc: Global, offer: &Offer<P>) -> Result<Row<u8>, NoMemory>
    ensures text { IfOk result (λ text. text ≡ text_of P.In.Language P.Out.Language P.Pass offer.now) }
    ensures block { IfOk result BlockFits }
{
    let mut text = Vec::new(alloc);
    offer.write(&mut text)?;
    if text.len() > 0xFFFF_FFFF {
        return Err(NoMemory);
    }
    Ok(held(text))
}

/// The texts of two offers.
fn two_texts<P: Pass, Q: Pass>(
    alloc: Global,
    first: &Offer<P>,
    second: &Offer<Q>,
) -> Result<(Row<u8>, Row<u8>), NoMemory>
    ensures first { IfOk result (λ texts. texts.0 ≡ text_of P.In.Language P.Out.Language P.Pass first.now) }
    ensures second { IfOk result (λ texts. texts.1 ≡ text_of Q.In.Language Q.Out.Language Q.Pass second.now) }
    ensures blocks { IfOk result (λ texts. BlockFits texts.0 × BlockFits texts.1) }
{
    let one = text_of::<P>(alloc, first)?;
    let other = text_of::<Q>(alloc, second)?;
    Ok((one, other))
}

/// What the type of each offer keeps: its pass accepts it, and it has a text.
fn are_offers(chain: &Chain<'_>)
    ensures accepted { AreAccepted (lent_offers chain.now) }
    ensures fit { OffersFit (lent_offers chain.now) }
{
    chain.first.validated();
    chain.second.validated();
    chain.third.validated();
    chain.fourth.validated();
}

/// The texts of a function's offers.
pub fn texts_of(alloc: Global, chain: &Chain<'_>) -> Result<Texts, NoMemory>
    ensures texts { IfOk result (λ texts. texts ≡ texts_of (lent_offers chain.now)) }
    ensures blocks { IfOk result TextsFit }

    // The offers are such as a bundle is verified by.
    ensures accepted { AreAccepted (lent_offers chain.now) }
    ensures fit { OffersFit (lent_offers chain.now) }
{
    are_offers(chain);
    let (constants, expressions) = two_texts::<ConstProp, Cse>(alloc, chain.first, chain.second)?;
    let (allocation, order) = two_texts::<Alloc, Linearize>(alloc, chain.third, chain.fourth)?;
    Ok(Texts {
        constants,
        expressions,
        allocation,
        order,
    })
}

/// What is needed of a bundle of this digest, of 32 bytes, and of these texts.
fn are_parts(digest: &[u8], functions: &[Texts])
    requires digest { length digest.now ≡ 32 }
    requires few { length functions.now ≤ 64 }
    requires blocks { AllByRecursion TextsFit functions.now }
    ensures form { IsBundle (record { digest = digest.now; functions = functions.now }) }
    ensures short { IsShort (record { digest = digest.now; functions = functions.now }) }
{
    are_bytes(digest);
}

/// The bytes of a bundle of this digest, of 32 bytes, and of these texts, of 64 functions at most.
pub fn written(alloc: Global, digest: &[u8], functions: Vec<Texts>) -> Result<Vec<u8>, NoMemory>
    requires digest { length digest.now ≡ 32 }
    requires few { length functions.items ≤ 64 }
    requires blocks { AllByRecursion TextsFit functions.items }
    ensures text { IfOk result (λ b. b.items ≡ bundle_text (record { digest = digest.now; functions = functions.items })) }
    ensures form { OnOk result (IsBundle (record { digest = digest.now; functions = functions.items })) }
{
    are_parts(digest, functions.as_slice());
    let bundle = Bundle {
        digest: Row::from_vec(Vec::from_slice(alloc, digest)?),
        functions: Row::from_vec(functions),
    };
    let mut bytes = Vec::new(alloc);
    write(&bundle, &mut bytes)?;
    Ok(bytes)
}
