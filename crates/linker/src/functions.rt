//! Linking the functions of a program, one after the other.

ghost use Rattle.std.specs.Prelude.{◌≡◌, ◌≢◌, length, map, ℕ, IfOk, IfErr, IfSome, OnOk, Option};
ghost use Rattle.linker.specs.Chains.{Refusal};
ghost use Rattle.linker.specs.Linked.{AreLinked, IsLinked, IsEnd, Tells};
ghost use Rattle.linker.specs.Valid.{AreAccepted, AreFit, EachChain};

use crate::chain::{ChainOf, NamedOf, is_chain, validated};
use crate::errors::LinkError;
use lang_base::{Language, Pass};
use std::alloc::Global;

/// The output of the fourth offer, where the four are there and one goes on from the other.
fn end_of_chain<P1: Pass, P2: Pass<In = P1::Out>, P3: Pass<In = P2::Out>, P4: Pass<In = P3::Out>>(
    alloc: Global,
    number: usize,
    function: &<P1::In as Language>::Fun,
    chain: &Option<ChainOf<'_, P1, P2, P3, P4>>,
) -> Result<<P4::Out as Language>::Fun, LinkError>
    ensures ok { IfOk result (IsEnd function.now chain.now) }
    ensures fit { OnOk result (IfSome chain.now (AreFit P1.In.fits P1.Out.fits P2.Out.fits P3.Out.fits P4.Out.fits)) }
    ensures accepted { OnOk result (IfSome chain.now (AreAccepted P1.accepts P2.accepts P3.accepts P4.accepts)) }
    ensures err { IfErr result (λ e. Tells number function.now chain.now e) }
{
    let Some(chain) = chain else {
        return Err(LinkError::Missing(number));
    };
    if !is_chain::<P1, P2, P3, P4>(function, chain) {
        return Err(LinkError::Unchained(number));
    }
    validated::<P1, P2, P3, P4>(chain);
    let end = P4::Out::copy(alloc, chain.fourth.output())?;
    Ok(end)
}

/// The end of a function's chain, under its name.
fn link_function<P1: Pass, P2: Pass<In = P1::Out>, P3: Pass<In = P2::Out>, P4: Pass<In = P3::Out>>(
    alloc: Global,
    number: usize,
    function: &lang_base::Named<<P1::In as Language>::Fun>,
    named: &NamedOf<'_, P1, P2, P3, P4>,
) -> Result<lang_base::Named<<P4::Out as Language>::Fun>, LinkError>
    ensures ok { IfOk result (IsLinked function.now named.now) }
    ensures fit { OnOk result (IfSome named.now.chain (AreFit P1.In.fits P1.Out.fits P2.Out.fits P3.Out.fits P4.Out.fits)) }
    ensures accepted { OnOk result (IfSome named.now.chain (AreAccepted P1.accepts P2.accepts P3.accepts P4.accepts)) }
    ensures err { IfErr result (λ e. Tells number function.now.function named.now.chain e) }
{
    let end = end_of_chain::<P1, P2, P3, P4>(alloc, number, &function.function, &named.chain)?;
    let name = function.name.copied(alloc)?;
    Ok(lang_base::Named {
        name,
        function: end,
    })
}

/// The ends of all functions' chains, in order.
pub(crate) fn link_functions<
    P1: Pass,
    P2: Pass<In = P1::Out>,
    P3: Pass<In = P2::Out>,
    P4: Pass<In = P3::Out>,
>(
    alloc: Global,
    functions: &[lang_base::Named<<P1::In as Language>::Fun>],
    named: &[NamedOf<'_, P1, P2, P3, P4>],
) -> Result<Vec<lang_base::Named<<P4::Out as Language>::Fun>>, LinkError>
    requires { length functions.now ≡ length named.now }
    ensures ok { IfOk result (λ made. AreLinked functions.now named.now made.items) }
    ensures fit { OnOk result (EachChain (AreFit P1.In.fits P1.Out.fits P2.Out.fits P3.Out.fits P4.Out.fits) named.now) }
    ensures accepted { OnOk result (EachChain (AreAccepted P1.accepts P2.accepts P3.accepts P4.accepts) named.now) }
    ensures err { IfErr result (λ e. e ≢ LinkError.Names) }
    ensures first { IfErr result (λ e. Refusal functions.now named.now e) }
{
    let mut linked = Vec::with_capacity(alloc, functions.len())?;
    for number in 0..functions.len() {
        let made = link_function::<P1, P2, P3, P4>(
            alloc,
            number,
            &functions[number],
            &named[number],
        )?;
        linked.push(made)?;
    }
    Ok(linked)
}
