//! Who makes the offers of a function, and the four offers of one.

ghost use Rattle.std.specs.Prelude.{◌≡◌, ◌≢◌, false, Some, None, IfOk, IfErr};
ghost use Rattle.alloc_check_rules.specs.Rules.{IsTooLarge};
ghost use Rattle.chains.specs.Accepted.{AreAccepted};
ghost use Rattle.chains_made.specs.Baselines.{AreBaselines};
ghost use Rattle.chains_made.specs.Counted.{Counts, IsCounted, one_if};
ghost use Rattle.chains.specs.Offered.{GoOnFrom};
ghost use Rattle.offers.specs.Proposals.{IsElseBaseline};

use crate::baselines::ExactBaselines;
use alloc_check::Alloc;
use chains::Offers;
use constprop_check::ConstProp;
use cse_check::Cse;
use lang_base::{Language, Oracle, Pass, PassError};
use linearize_check::Linearize;
use offers::{Baselines, Choice, Offer, baseline_of, choose};
use oracle_const::ConstOracle;
use oracle_cse::{AllocOracle, CseOracle};
use oracle_order::OrderOracle;
use rand_pcg::Pcg32;
use rtl_language::Function;
use std::alloc::Global;

/// Who makes the offers: the baselines of all passes, where there are no draws, or their optimisers, which draw their
/// choices from the draws. It counts how many of the offers were the optimisers'; the others are baselines'.
#[derive(Drop)]
pub struct Maker {
    pub draws: Option<Pcg32>,
    pub proposals: u64,
}

impl Maker {
    /// The baselines of all passes: nothing is chosen.
    pub fn baselines() -> Maker
        ensures draws { result.draws ≡ None }
        ensures none { result.proposals ≡ 0 }
    {
        Maker {
            draws: None,
            proposals: 0,
        }
    }

    /// The optimisers of all passes.
    pub fn optimisers(draws: Pcg32) -> Maker
        ensures draws { result.draws ≡ Some draws }
        ensures none { result.proposals ≡ 0 }
    {
        Maker {
            draws: Some(draws),
            proposals: 0,
        }
    }

    /// An offer for the input, of the pass that the optimiser is for. Where it is the optimiser's it is counted.
    fn offer_of<P: Pass, B: Baselines<P>, O: Oracle<P = P>>(
        &mut self,
        alloc: Global,
        oracle: &mut O,
        input: &<P::In as Language>::Fun,
    ) -> Result<Choice<P>, PassError>
        ensures input { IfOk result (λ made. made.offer.input ≡ input.now) }
        ensures baseline { IfOk result (λ made. IsElseBaseline B.is_baseline made.is_proposal made.offer) }
        ensures counted { IfOk result (λ made. Counts self.old.proposals self.new.proposals (one_if made.is_proposal)) }

        // With no draws all are baselines, and the maker stays as it was.
        ensures stays { self.old.draws ≡ None → self.new ≡ self.old }
        ensures alone { self.old.draws ≡ None → IfOk result (λ made. made.is_proposal ≡ false) }

        // Only what has no baseline is refused.
        ensures refused { IfErr result (λ e. e ≢ PassError.NoMemory → P.too_large input.now) }
    {
        let Some(draws) = &mut self.draws else {
            return Ok(Choice {
                offer: baseline_of::<P, B>(alloc, input)?,
                is_proposal: false,
            });
        };
        let made = choose::<P, B, O>(alloc, oracle, input, draws)?;
        if made.is_proposal {
            self.proposals = self.proposals.saturating_add(1);
        }
        Ok(made)
    }
}

/// An offer for the output of the last one, which is handed on with what was made before it. So nothing is let go at an
/// exit whose type has many cases.
fn behind<T: Drop, L: Pass, P: Pass<In = <L as Pass>::Out>, B: Baselines<P>, O: Oracle<P = P>>(
    alloc: Global,
    maker: &mut Maker,
    oracle: &mut O,
    before: T,
    last: Offer<L>,
) -> Result<(T, Offer<L>, Choice<P>), PassError>
    ensures before { IfOk result (λ made. (made.0 ≡ before) × (made.1 ≡ last)) }
    ensures input { IfOk result (λ made. made.2.offer.input ≡ last.output) }
    ensures baseline { IfOk result (λ made. IsElseBaseline B.is_baseline made.2.is_proposal made.2.offer) }
    ensures counted { IfOk result (λ made. Counts maker.old.proposals maker.new.proposals (one_if made.2.is_proposal)) }
    ensures stays { maker.old.draws ≡ None → maker.new ≡ maker.old }
    ensures alone { maker.old.draws ≡ None → IfOk result (λ made. made.2.is_proposal ≡ false) }
    ensures refused { IfErr result (λ e. e ≢ PassError.NoMemory → P.too_large last.output) }
{
    let next = maker.offer_of::<P, B, O>(alloc, oracle, last.output())?;
    Ok((before, last, next))
}

/// The four offers of a function, each on the output of the one before it. Passes 1 and 2 keep the number of registers,
/// whatever they accept, so pass 3 refuses only what has too many from the start.
pub(crate) fn offers_of(
    alloc: Global,
    function: &Function,
    maker: &mut Maker,
) -> Result<Offers, PassError>
    ensures chained { IfOk result (λ offers. GoOnFrom function.now offers) }
    ensures accepted { IfOk result AreAccepted }
    ensures counted { IfOk result (IsCounted maker.old.proposals maker.new.proposals) }
    ensures stays { maker.old.draws ≡ None → maker.new ≡ maker.old }
    ensures alone { maker.old.draws ≡ None → IfOk result AreBaselines }
    ensures refused { IfErr result (λ e. e ≢ PassError.NoMemory → IsTooLarge function.now) }
{
    let first = maker.offer_of::<ConstProp, ExactBaselines, ConstOracle>(
        alloc,
        &mut ConstOracle,
        function,
    )?;
    let first = first.offer;
    first.validated();
    let (_, first, second) = behind::<(), ConstProp, Cse, ExactBaselines, CseOracle>(
        alloc,
        maker,
        &mut CseOracle,
        (),
        first,
    )?;
    let second = second.offer;
    second.validated();
    let (constants, expressions, third) = behind::<
        Offer<ConstProp>,
        Cse,
        Alloc,
        ExactBaselines,
        AllocOracle,
    >(alloc, maker, &mut AllocOracle, first, second)?;
    let third = third.offer;
    third.validated();
    let before = (constants, expressions);
    let (before, allocation, fourth) = behind::<
        (Offer<ConstProp>, Offer<Cse>),
        Alloc,
        Linearize,
        ExactBaselines,
        OrderOracle,
    >(alloc, maker, &mut OrderOracle, before, third)?;
    let order = fourth.offer;
    order.validated();
    let (constants, expressions) = before;
    Ok(Offers {
        constants,
        expressions,
        allocation,
        order,
    })
}
