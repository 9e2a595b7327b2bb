//! Whether two programs are one.

ghost use Rattle.std.specs.Prelude.{◌≡◌, ◌↔◌, IsTrue, length};
ghost use Rattle.bundle_reading.specs.Chains.{names_of};
ghost use Rattle.bundle_reading.specs.Offered.{ends_of};
ghost use Rattle.bundle_reading.specs.Read.{offers_in};
ghost use Rattle.cfarm_verify_comparing.specs.Compared.{TellsFirstOther};

use bundle_reading::Four;
use lang_base::{Global, Named};
use linear_language::Function;

fn is_name(name: &[u8], other: &[u8]) -> bool
    ensures { IsTrue result ↔ (name.now ≡ other.now) }
{
    name == other
}

/// Whether the functions have the same names, in the same order.
pub fn same_names<F, G>(functions: &[Named<F>], others: &[Named<G>]) -> bool
    ensures { IsTrue result ↔ (names_of others.now ≡ names_of functions.now) }
{
    if functions.len() != others.len() {
        return false;
    }
    for number in 0..functions.len() {
        if !is_name(
            functions[number].name.as_slice(),
            others[number].name.as_slice(),
        ) {
            return false;
        }
    }
    true
}

fn same_function(function: &Function, other: &Function) -> bool
    ensures { IsTrue result ↔ (other.now ≡ function.now) }
{
    function == other
}

/// The first function that is not the last output of its offers, if one is not.
pub fn first_other(
    begun: &[Named<rtl_language::Function>],
    fours: &[Four],
    functions: &[Named<Function>],
) -> Option<usize>
    requires many { length fours.now ≡ length begun.now }
    requires names { names_of functions.now ≡ names_of begun.now }
    ensures { TellsFirstOther (ends_of begun.now (offers_in fours.now)) functions.now result }
{
    for number in 0..begun.len() {
        if !same_function(&fours[number].order.output, &functions[number].function) {
            return Some(number);
        }
    }
    None
}

fn same_words(words: &[u32], others: &[u32]) -> bool
    ensures { IsTrue result ↔ (words.now ≡ others.now) }
{
    words == others
}

fn same_global(global: &Global, other: &Global) -> bool
    ensures { IsTrue result ↔ (other.now ≡ global.now) }
{
    global.cells == other.cells
        && same_words(global.first_words.as_slice(), other.first_words.as_slice())
}

/// Whether the globals are the same, in the same order.
pub fn same_globals(globals: &[Global], others: &[Global]) -> bool
    ensures { IsTrue result ↔ (others.now ≡ globals.now) }
{
    if globals.len() != others.len() {
        return false;
    }
    for number in 0..globals.len() {
        if !same_global(&globals[number], &others[number]) {
            return false;
        }
    }
    true
}
