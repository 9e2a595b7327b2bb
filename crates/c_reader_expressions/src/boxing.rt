//! Two expressions in boxes.

ghost use Rattle.std.specs.Prelude.{◌≡◌, IfOk, IfErr};

use c_reader_tokens::Fault;
use std::alloc::Global;

/// Two values, each in a box.
pub(crate) fn boxes<A: Drop>(alloc: Global, first: A, second: A) -> Result<(Box<A>, Box<A>), Fault>
    ensures ok { IfOk result (λ both. (both.0.value ≡ first) × (both.1.value ≡ second)) }
    ensures err { IfErr result (λ e. e ≡ Fault.NoMemory) }
{
    let first = Box::new(alloc, first)?;
    Ok((first, Box::new(alloc, second)?))
}
