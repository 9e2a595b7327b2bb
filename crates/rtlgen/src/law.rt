//! What is in range, as contracts of calls that do nothing else.

ghost use Rattle.rtlgen.specs.InRange.{GeneratedFits, GeneratedIsSmall};

/// A Cminor function in range is translated to an RTL function in range where the nodes can be
/// numbered.
pub fn generated_fits()
    ensures { GeneratedFits }
{}

/// A Cminor function in range is translated to an RTL function of at most 2,048 registers.
pub fn generated_is_small()
    ensures { GeneratedIsSmall }
{}
