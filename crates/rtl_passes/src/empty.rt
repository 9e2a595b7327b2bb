ghost use Rattle.std.specs.Prelude.{◌≡◌, [], replicate, IfOk};

use lang_base::{NoMemory, Row};
use std::alloc::Global;

/// An empty list for each of so many nodes.
pub fn empty_lists<T: Drop>(alloc: Global, nodes: usize) -> Result<Row<Row<T>>, NoMemory>
    ensures { IfOk result (λ lists. lists ≡ replicate nodes []) }
{
    let mut lists = Vec::with_capacity(alloc, nodes)?;
    for _ in 0..nodes {
        lists.push(Row::from_vec(Vec::new(alloc)))?;
    }
    Ok(Row::from_vec(lists))
}
