//! What two offers that go on from each other keep, as the contract of a call that does nothing.

ghost use Rattle.std.specs.Prelude.{◌≡◌, ◌≤◌};

use farm_nodes_open_nodes::ConstProp;
use offers::Offer;
use oracle_cse::Cse;

/// The first two passes keep the number of registers, whatever they accept. So where the function that they begin with has at
/// most 2,048, as each that was translated has, the third pass has a baseline for what they end with.
pub fn stays_small(first: &Offer<ConstProp>, second: &Offer<Cse>)
    ensures { second.now.input ≡ first.now.output → first.now.input.registers ≤ 2048 → second.now.output.registers ≤ 2048 }
{
    first.validated();
    second.validated();
}
