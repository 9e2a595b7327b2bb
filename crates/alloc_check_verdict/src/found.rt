ghost use Rattle.std.specs.Prelude.{◌≡◌};
ghost use Rattle.alloc_check_verdict.specs.Walk.{found_in};

use alloc_check_rules::Equation;

/// The equations where an instruction can go on: those of one row, or a list of their own.
#[derive(Drop)]
pub(crate) enum Found<'a> {
    Borrowed(&'a [Equation]),
    Taken(Vec<Equation>),
}

pub(crate) fn equations_in<'b>(found: &'b Found) -> &'b [Equation]
    ensures { result.now ≡ found_in found.now }
{
    match found {
        Found::Borrowed(equations) => equations,
        Found::Taken(equations) => equations.as_slice(),
    }
}
