//! Words that are powers of two.

ghost use Rattle.std.specs.Prelude.{◌≡◌};
ghost use Rattle.native_lowering_definition.specs.Powers.{exponent, power_known};

/// k where the word is 2 ^ k.
pub(crate) fn exponent(word: u32) -> Option<u32>
    ensures { result ≡ exponent word }
{
    let mut k: u32 = 0;
    let mut power: u64 = 1;
    while k < 32 {
        if u64::from(word) == power {
            return Some(k);
        }
        k += 1;
        power *= 2;
    }
    None
}

/// k where the divisor is known to be 2 ^ k; read as signed, 2 ^ 31 is below 0.
pub(crate) fn power_known(known: Option<u32>, signed: bool) -> Option<u32>
    ensures { result ≡ power_known known signed }
{
    match known {
        None => None,
        Some(word) => {
            if signed {
                if word < 0x8000_0000 {
                    exponent(word)
                } else {
                    None
                }
            } else {
                exponent(word)
            }
        }
    }
}
