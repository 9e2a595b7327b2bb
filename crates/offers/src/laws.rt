//! What an offer is worth, as contracts of calls that do nothing else.

ghost use Rattle.std.specs.Prelude.{ℕ, List};
ghost use Rattle.lang_base.specs.Keeps.{Keeps};
ghost use Rattle.lang_base.specs.declared.program.Global.{Global};
ghost use Rattle.offers.specs.Fronts.{HasOneText};
ghost use Rattle.offers.specs.OneFunction.{program_of_one};
ghost use Rattle.offers.specs.Text.{text_of, PartsFit};

use crate::offer::Offer;
use lang_base::Pass;

/// The program of an offer's output alone keeps the meaning of the program of its input, whatever
/// the function's name and whatever globals stand beside it.
pub fn offer_keeps<P: Pass>(offer: &Offer<P>)
    ensures { (globals : List Global) (name : List ℕ) →
        Keeps (P.In.run (program_of_one globals name offer.now.input)) (P.Out.run (program_of_one globals name offer.now.output)) }
{
    offer.validated();
}

/// No offer's text is a beginning of another's, and no two offers share one.
pub fn one_text<P: Pass>()
    ensures { HasOneText (PartsFit P.In.fits P.Out.fits P.cert_fits) (text_of P.In.Language P.Out.Language P.Pass) }
{}
