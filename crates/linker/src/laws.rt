//! What texts say of chains, as contracts of calls that change nothing: equal texts are of equal functions.

ghost use Rattle.linker.specs.Texts.{AllTextsChain, TextsChain, TextsChainBeside};

use crate::chain::{ChainOf, NamedOf, validated};
use lang_base::{Language, Pass};

/// Where neighbours have equal texts, the offers chain: a text is that of one function.
pub fn text_chain<P1: Pass, P2: Pass<In = P1::Out>, P3: Pass<In = P2::Out>, P4: Pass<In = P3::Out>>(
    function: &<P1::In as Language>::Fun,
    chain: &ChainOf<'_, P1, P2, P3, P4>,
)
    ensures { TextsChain P1.In.spelling P1.Out.spelling P2.Out.spelling P3.Out.spelling function.now chain.now }
{
    P1::In::known(function);
    validated::<P1, P2, P3, P4>(chain);
}

/// The same of the offers beside a function, if there are any.
fn text_chain_beside<
    P1: Pass,
    P2: Pass<In = P1::Out>,
    P3: Pass<In = P2::Out>,
    P4: Pass<In = P3::Out>,
>(function: &<P1::In as Language>::Fun, chain: &Option<ChainOf<'_, P1, P2, P3, P4>>)
    ensures { TextsChainBeside P1.In.spelling P1.Out.spelling P2.Out.spelling P3.Out.spelling function.now chain.now }
{
    if let Some(chain) = chain {
        text_chain::<P1, P2, P3, P4>(function, chain);
    }
}

/// The same of all functions of a program. The time is linear in their number.
pub fn text_chains<
    P1: Pass,
    P2: Pass<In = P1::Out>,
    P3: Pass<In = P2::Out>,
    P4: Pass<In = P3::Out>,
>(functions: &[lang_base::Named<<P1::In as Language>::Fun>], named: &[NamedOf<'_, P1, P2, P3, P4>])
    ensures { AllTextsChain P1.In.spelling P1.Out.spelling P2.Out.spelling P3.Out.spelling functions.now named.now }
{
    if functions.len() != named.len() {
        return;
    }
    for number in 0..functions.len() {
        text_chain_beside::<P1, P2, P3, P4>(&functions[number].function, &named[number].chain);
    }
}
