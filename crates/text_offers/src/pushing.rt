//! Whole offers, pass by pass.

ghost use Rattle.lang_base.specs.Texts.{Appends};
ghost use Rattle.text_offers.specs.Shown.{shown_constants, shown_expressions, shown_allocation, shown_layout};

use crate::entry_words::{Constant, Equal, Placed};
use crate::writing::{push_order, push_rows};
use alloc_check::Alloc;
use constprop_check::ConstProp;
use cse_check::Cse;
use lang_base::NoMemory;
use linearize_check::Linearize;
use offers::PartsOf;
use text_keys::push_bytes;

pub(crate) fn push_constants(out: &mut Vec<u8>, parts: &PartsOf<ConstProp>) -> Result<(), NoMemory>
    ensures { Appends result (shown_constants parts.now) out.old.items out.new.items }
{
    push_bytes(out, b"offer pass 1\n")?;
    text_rtl::push_named(out, b"input", &parts.input)?;
    text_rtl::push_named(out, b"output", &parts.output)?;
    push_rows::<Constant>(out, parts.certificate.as_slice())
}

pub(crate) fn push_expressions(out: &mut Vec<u8>, parts: &PartsOf<Cse>) -> Result<(), NoMemory>
    ensures { Appends result (shown_expressions parts.now) out.old.items out.new.items }
{
    push_bytes(out, b"offer pass 2\n")?;
    text_rtl::push_named(out, b"input", &parts.input)?;
    text_rtl::push_named(out, b"output", &parts.output)?;
    push_rows::<Equal>(out, parts.certificate.as_slice())
}

pub(crate) fn push_allocation(out: &mut Vec<u8>, parts: &PartsOf<Alloc>) -> Result<(), NoMemory>
    ensures { Appends result (shown_allocation parts.now) out.old.items out.new.items }
{
    push_bytes(out, b"offer pass 3\n")?;
    text_rtl::push_named(out, b"input", &parts.input)?;
    text_ltl::push_named(out, b"output", &parts.output)?;
    push_rows::<Placed>(out, parts.certificate.as_slice())
}

pub(crate) fn push_layout(out: &mut Vec<u8>, parts: &PartsOf<Linearize>) -> Result<(), NoMemory>
    ensures { Appends result (shown_layout parts.now) out.old.items out.new.items }
{
    push_bytes(out, b"offer pass 4\n")?;
    text_ltl::push_named(out, b"input", &parts.input)?;
    text_linear::push_named(out, b"output", &parts.output)?;
    push_order(out, parts.certificate.as_slice())
}
