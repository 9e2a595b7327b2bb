//! Equations in order, each once.

ghost use Rattle.std.specs.Prelude.{◌≡◌, ◌↔◌, ◌<◌, IsTrue};
ghost use Rattle.alloc_check_fill.specs.Ranks.{location_rank, rank as rank_of};
ghost use Rattle.alloc_check_fill.specs.Sets.{SameSet};

use alloc_check_blocks::is_at;
use alloc_check_rules::Equation;
use locations::Location;

fn location_rank(location: &Location) -> u64
    ensures location_rank { result ≡ location_rank location.now }
    ensures small { result < 131072 }
{
    match location {
        Location::InRegister(register) => u64::from(*register),
        Location::InSlot(slot) => u64::from(*slot) + 65536,
    }
}

/// Where an equation stands in the order.
pub fn rank(equation: &Equation) -> u64
    ensures rank { result ≡ rank_of equation.now }
    ensures small { result < 8589934592 }
{
    u64::from(equation.register) * 131072 + location_rank(&equation.location)
}

pub fn is_same(equation: &Equation, other: &Equation) -> bool
    ensures { IsTrue result ↔ (equation.now ≡ other.now) }
{
    equation.register == other.register && is_at(&equation.location, &other.location)
}

/// Puts the equations in order and leaves each of them once, so that lists that are carried on do not
/// grow by what they have.
pub fn tidy(equations: &mut Vec<Equation>)
    ensures { SameSet equations.old.items equations.new.items }
{
    equations.sort_unstable_by_key(rank);
    equations.dedup_by(|one, other| is_same(one, other));
}
