ghost use Rattle.std.specs.Prelude.{◌≡◌, map, IsTrue, ◌↔◌};
ghost use Rattle.linker.specs.Chains.{names_beside, names_of};

use crate::chain::Named;

fn is_name(name: &[u8], other: &[u8]) -> bool
    ensures { IsTrue result ↔ (name.now ≡ other.now) }
{
    name == other
}

/// Whether the names beside the offers are those of the functions, in order and no more of them.
pub fn are_names<F, O1, O2, O3, O4>(
    functions: &[lang_base::Named<F>],
    named: &[Named<'_, O1, O2, O3, O4>],
) -> bool
    ensures { IsTrue result ↔ (names_beside named.now ≡ names_of functions.now) }
{
    if functions.len() != named.len() {
        return false;
    }
    for number in 0..functions.len() {
        if !is_name(functions[number].name.as_slice(), named[number].name) {
            return false;
        }
    }
    true
}
