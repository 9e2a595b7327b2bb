ghost use Rattle.std.specs.Prelude.{◌≡◌};
ghost use Rattle.rtl_passes_filled.specs.Rules.{facts_at};

use rtl_passes_marks::Row;

/// The facts at a node.
pub fn list_at<T>(lists: &[Row<T>], node: usize) -> &[T]
    ensures { result.now ≡ facts_at lists.now node }
{
    match lists.get(node) {
        Some(facts) => facts.as_slice(),
        None => &[],
    }
}
