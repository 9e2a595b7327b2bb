//! The program that offers link.

ghost use Rattle.std.specs.Prelude.{◌≡◌, IfOk, IfErr, OnOk, length};
ghost use Rattle.lang_base.specs.Keeps.{Keeps};
ghost use Rattle.linear_language.specs.Meaning as linear;
ghost use Rattle.linker.specs.Chains.{names_of};
ghost use Rattle.rtl_language.specs.Meaning as rtl;
ghost use Rattle.chains.specs.Lent.{AreBeside};
ghost use Rattle.chains.specs.Offered.{AllGoOn, linked_offers};
ghost use Rattle.chains.specs.Unlinked.{IsUnlinked};

use crate::offering::Offers;
use lang_base::{Named, NoMemory, Program};
use linear_language::{Function, Linear};
use linker::{LinkError, link_translated};
use std::alloc::Global;

/// Each function's name with its offers.
fn named_of<'a>(
    alloc: Global,
    functions: &'a [Named<rtl_language::Function>],
    offers: &'a [Offers],
) -> Result<Vec<linker::Named<'a>>, NoMemory>
    requires { length functions.now ≡ length offers.now }
    ensures { IfOk result (λ named. AreBeside functions.now offers.now named.items) }
{
    let mut named = Vec::with_capacity(alloc, functions.len())?;
    for number in 0..functions.len() {
        named.push(linker::Named {
            name: functions[number].name.as_slice(),
            chain: Some(offers[number].chain()),
        })?;
    }
    Ok(named)
}

/// The Linear program of the fourth offers' outputs, where there are offers for each function, in order, and
/// they chain. It keeps the meaning of the RTL program.
pub fn link_offers(
    alloc: Global,
    program: &Program<rtl_language::Function>,
    offers: &[Offers],
) -> Result<Program<Function>, LinkError>
    ensures ok { IfOk result (λ made. made ≡ linked_offers program.now offers.now) }
    ensures same_names { IfOk result (λ made. names_of made.functions ≡ names_of program.now.functions) }
    ensures chained { OnOk result (AllGoOn program.now.functions offers.now) }
    ensures keeps { IfOk result (λ made. Keeps (rtl.run program.now) (linear.run made)) }

    // As many offers as functions are asked first. Where all chain, only memory can be refused.
    ensures refused { IfErr result (λ e. IsUnlinked program.now.functions offers.now e) }
    ensures whole { AllGoOn program.now.functions offers.now → IfErr result (λ e. e ≡ LinkError.NoMemory) }
{
    if program.functions.len() != offers.len() {
        return Err(LinkError::Names);
    }
    let named = named_of(alloc, program.functions.as_slice(), offers)?;
    let made = link_translated(alloc, program, &named)?;
    Ok(made)
}
