ghost use Rattle.std.specs.Prelude.{◌≡◌, [], ◌∷◌, IfOk};

use lang_base::NoMemory;
use std::alloc::Global;

/// Two values as a list.
pub fn pair<A: Drop>(alloc: Global, first: A, second: A) -> Result<Vec<A>, NoMemory>
    ensures { IfOk result (λ both. both.items ≡ first ∷ second ∷ []) }
{
    let mut both = Vec::new(alloc);
    both.push(first)?;
    both.push(second)?;
    Ok(both)
}

/// Two values, each in a box.
pub fn boxes<A: Drop>(alloc: Global, first: A, second: A) -> Result<(Box<A>, Box<A>), NoMemory>
    ensures { IfOk result (λ both. (both.0.value ≡ first) × (both.1.value ≡ second)) }
{
    let first = Box::new(alloc, first)?;
    Ok((first, Box::new(alloc, second)?))
}
