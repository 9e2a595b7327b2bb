ghost use Rattle.std.specs.Prelude.{◌≡◌, ◌↔◌, IsTrue, MatchOption};
ghost use Rattle.cfarm_judge.specs.Under.{HasNone, IsPlaceOf};

use lang_base::Named;

fn is_name(name: &[u8], other: &[u8]) -> bool
    ensures { IsTrue result ↔ (name.now ≡ other.now) }
{
    name == other
}

/// The number of the function of this name.
pub(crate) fn place_of<F>(functions: &[Named<F>], name: &[u8]) -> Option<usize>
    ensures { MatchOption result (HasNone functions.now name.now) (IsPlaceOf functions.now name.now) }
{
    for number in 0..functions.len() {
        if is_name(functions[number].name.as_slice(), name) {
            return Some(number);
        }
    }
    None
}
