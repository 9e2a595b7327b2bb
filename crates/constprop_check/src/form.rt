//! The form of a fact: a register and a word.

ghost use Rattle.lang_base.specs.Reading.{IsRead};
ghost use Rattle.lang_base.specs.Texts.{Appends};
ghost use Rattle.constprop_check.specs.FactForm.{fact, fact_text};

use constprop_check_rules::Fact;
use lang_base::{FormError, NoMemory, push_u16, push_u32, read_u16_below, read_u32};

/// A fact of one of so many registers.
#[tactic(auto, unfolding(crate::specs::FactForm::fact))]
pub(crate) fn read_fact(registers: u32, bytes: &mut &[u8]) -> Result<Fact, FormError>
    ensures { IsRead (fact registers bytes.old.now) result bytes.new.now }
{
    let register = read_u16_below(registers, bytes)?;
    let word = read_u32(bytes)?;
    Ok(Fact { register, word })
}

/// Writes the fact at the end of `out`.
pub(crate) fn push_fact(out: &mut Vec<u8>, fact: &Fact) -> Result<(), NoMemory>
    ensures { Appends result (fact_text fact.now) out.old.items out.new.items }
{
    push_u16(out, fact.register)?;
    push_u32(out, fact.word)
}
