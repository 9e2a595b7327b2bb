//! One seat over kept parts.

ghost use Rattle.std.specs.Prelude.{◌≡◌, ◌<◌, ◌↔◌, length, Some, slice_get, IsTrue};

use farm_nodes_restart_seat::Seat;
use lang_base::Pass;
use paxos_core_world::kept::Kept;

/// Whether the part at the place is what the seat keeps.
pub(crate) fn is_kept_in<P: Pass>(parts: &[Kept], place: usize, seat: &Seat<P>) -> bool
    requires { place < length parts.now }
    ensures { IsTrue result ↔ (slice_get parts.now place ≡ Some seat.now.words.node.kept) }
{
    is_part(parts, place, seat.kept())
}

/// Whether this is the part at the place.
fn is_part(parts: &[Kept], place: usize, kept: Kept) -> bool
    requires { place < length parts.now }
    ensures { IsTrue result ↔ (slice_get parts.now place ≡ Some kept) }
{
    same_part(parts[place], kept)
}

fn same_part(part: Kept, kept: Kept) -> bool
    ensures { IsTrue result ↔ (part ≡ kept) }
{
    part == kept
}
