//! What is true of globals in memory: they begin with words of 32 bits.

ghost use Rattle.std.specs.Prelude.{◌<◌, ◌^◌, All, slice_index, ℕ};
ghost use Rattle.std.specs.List.{AllByRecursion};

use c_program::GlobalVariable;

fn are_words(words: &[u32])
    ensures { (i : ℕ) → slice_index words.now i < 2 ^ 32 }
{}

fn first_words(global: &GlobalVariable)
    ensures { AllByRecursion (λ w. w < 2 ^ 32) global.now.first_words }
{
    are_words(global.first_words.as_slice());
}

/// Each global begins with words.
pub(crate) fn globals_words(globals: &[GlobalVariable])
    ensures { All (λ g. AllByRecursion (λ w. w < 2 ^ 32) g.first_words) globals.now }
{
    for global in globals {
        first_words(global);
    }
}
