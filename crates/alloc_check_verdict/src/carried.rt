//! Lists of equations that are carried on: in order, each equation once.

ghost use Rattle.std.specs.Prelude.{◌↔◌, IsTrue};
ghost use Rattle.alloc_check_proof.specs.Sets.{SameSet};
ghost use Rattle.alloc_check_lists.specs.Ranks.{RiseFrom};

use alloc_check_proof::{rank, tidy};
use alloc_check_rules::Equation;

/// Whether each rank is above those before it.
fn rise(equations: &[Equation]) -> bool
    ensures { IsTrue result ↔ RiseFrom 0 equations.now }
{
    let mut lower = 0;
    for equation in equations {
        let current = rank(equation);
        if current < lower {
            return false;
        }
        lower = current + 1;
    }
    true
}

/// Puts the equations in order and leaves each of them once, which mostly is so already.
pub(crate) fn put_in_order(equations: &mut Vec<Equation>)
    ensures { SameSet equations.old.items equations.new.items }
{
    if !rise(equations.as_slice()) {
        tidy(equations);
    }
}
