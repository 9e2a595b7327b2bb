ghost use Rattle.std.specs.Prelude.{◌≡◌, IsTrue, ◌↔◌};
ghost use Rattle.linker.specs.Chains.{IsChain};
ghost use Rattle.linker.specs.Valid.{AreAccepted, AreFit};

use lang_base::{Language, Pass};
use offers::Offer;

/// Four offers of one function, all lent: one for each pass, in the order of the passes.
#[derive(Drop)]
pub struct Chain<'a, O1, O2, O3, O4> {
    pub first: &'a O1,
    pub second: &'a O2,
    pub third: &'a O3,
    pub fourth: &'a O4,
}

/// The offers of four passes.
pub type ChainOf<'a, P1, P2, P3, P4> = Chain<'a, Offer<P1>, Offer<P2>, Offer<P3>, Offer<P4>>;

/// A function's name, and perhaps its four offers, all lent.
#[derive(Drop)]
pub struct Named<'a, O1, O2, O3, O4> {
    pub name: &'a [u8],
    pub chain: Option<Chain<'a, O1, O2, O3, O4>>,
}

/// A name, and perhaps the offers of four passes.
pub type NamedOf<'a, P1, P2, P3, P4> = Named<'a, Offer<P1>, Offer<P2>, Offer<P3>, Offer<P4>>;

/// Whether each offer goes on from the output of the one before it, and the first from the function:
/// all of each function is compared.
pub(crate) fn is_chain<
    P1: Pass,
    P2: Pass<In = P1::Out>,
    P3: Pass<In = P2::Out>,
    P4: Pass<In = P3::Out>,
>(function: &<P1::In as Language>::Fun, chain: &ChainOf<'_, P1, P2, P3, P4>) -> bool
    ensures { IsTrue result ↔ IsChain function.now chain.now }
{
    chain.first.input() == function
        && chain.second.input() == chain.first.output()
        && chain.third.input() == chain.second.output()
        && chain.fourth.input() == chain.third.output()
}

/// What the type of offers keeps, for a caller's proof.
pub(crate) fn validated<
    P1: Pass,
    P2: Pass<In = P1::Out>,
    P3: Pass<In = P2::Out>,
    P4: Pass<In = P3::Out>,
>(chain: &ChainOf<'_, P1, P2, P3, P4>)
    ensures fit { AreFit P1.In.fits P1.Out.fits P2.Out.fits P3.Out.fits P4.Out.fits chain.now }
    ensures accepted { AreAccepted P1.accepts P2.accepts P3.accepts P4.accepts chain.now }
{
    chain.first.validated();
    chain.second.validated();
    chain.third.validated();
    chain.fourth.validated();
}
