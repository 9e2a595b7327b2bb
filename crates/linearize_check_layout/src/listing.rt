//! The order that lists what is reached, the entry first.

ghost use Rattle.std.specs.Prelude.{◌<◌, ◌^◌, length, IfOk};
ghost use Rattle.linearize_check_proof.specs.Orders.{IsOrder};
ghost use Rattle.linearize_check_layout.specs.Marks.{IsMarked};
ghost use Rattle.linearize_check_layout.specs.Reach.{IsFirstThenRising, IsRising};

use crate::reach::reachable;
use lang_base::NoMemory;
use ltl::Function;
use std::alloc::Global;

/// The nodes that are reached: the entry first, and the others rising.
pub fn rising(alloc: Global, function: &Function) -> Result<Vec<u16>, NoMemory>
    ensures rising { IfOk result (λ order. IsRising function.now order.items) }
    ensures allowed { IfOk result (λ order. IsOrder function.now order.items) }
{
    let marks = reachable(alloc, function)?;
    let _in_range = function.blocks();
    let order = rising_marked(alloc, function.entry(), marks.as_slice())?;
    Ok(order)
}

/// The marked numbers: the entry first, whether it has a mark or not, and the others rising.
fn rising_marked(alloc: Global, entry: u16, marks: &[bool]) -> Result<Vec<u16>, NoMemory>
    requires { length marks.now < 2 ^ 16 }
    ensures { IfOk result (λ order. IsFirstThenRising (IsMarked marks.now) entry order.items) }
{
    let mut order = vec![in alloc; entry]?;
    for (place, mark) in marks.iter().enumerate() {
        let node = place as u16;
        if *mark && node != entry {
            order.push(node)?;
        }
    }
    Ok(order)
}
