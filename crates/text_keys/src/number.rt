ghost use Rattle.std.specs.Prelude.{decimal};
ghost use Rattle.lang_base.specs.Texts.{Appends};

use lang_base::{NoMemory, push_byte};

/// Writes a number in decimal digits, without leading zeros.
#[tactic(auto, using(crate::proofs::Digits::one_digit))]
pub fn push_number(out: &mut Vec<u8>, number: u64) -> Result<(), NoMemory>
    ensures { Appends result (decimal number) out.old.items out.new.items }
{
    if number < 10 {
        return push_byte(out, b'0' + number as u8);
    }
    push_number(out, number / 10)?;
    push_byte(out, b'0' + (number % 10) as u8)
}
