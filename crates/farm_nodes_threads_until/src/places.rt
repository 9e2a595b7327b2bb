//! The places in the order of turns, and the rooms that stand there.

ghost use Rattle.std.specs.Prelude.{◌≡◌, ◌<◌, ℕ};
ghost use Rattle.farm_nodes_threads_until.specs.Places.{IsRoomOf, room_until};

use farm_nodes_turn_node::Which;

/// How many functions have rooms with numbers.
const MOST_FUNCTIONS: usize = 16_384;

/// How many rooms so many functions, of those that have rooms with numbers, have in the passes up to this one.
pub(crate) fn places_of(functions: usize, until: Which) -> u32
    ensures { (place : ℕ) → place < result → IsRoomOf functions (room_until until place) }
{
    let Ok(functions) = u32::try_from(functions.min(MOST_FUNCTIONS)) else {
        return 0;
    };
    match until {
        Which::Constants => functions,
        Which::Expressions => functions.saturating_mul(2),
        Which::Allocation => functions.saturating_mul(3),
        Which::Order => functions.saturating_mul(4),
    }
}

/// The room at this place.
pub(crate) fn room_at(place: u16, until: Which) -> u16
    requires { room_until until place < 65536 }
    ensures { result ≡ room_until until place }
{
    match until {
        Which::Constants => 4 * place,
        Which::Expressions => 4 * (place / 2) + place % 2,
        Which::Allocation => 4 * (place / 3) + place % 3,
        Which::Order => place,
    }
}
