ghost use Rattle.std.specs.Prelude.{◌≡◌};
ghost use Rattle.farm_nodes_turn_passes.specs.Numbers.{pass_of, place_of};

/// A pass by its place in the order.
#[derive(Clone, Copy, Debug, PartialEq, Eq)]
pub enum Which {
    Constants,
    Expressions,
    Allocation,
    Order,
}

impl Which {
    /// The pass whose room has this number: a function's four rooms follow each other.
    pub fn of_room(room: u16) -> Which
        ensures { result ≡ pass_of room }
    {
        match room % 4 {
            0 => Which::Constants,
            1 => Which::Expressions,
            2 => Which::Allocation,
            _ => Which::Order,
        }
    }
    /// Its place in the order, the first pass's being 0.
    pub fn place(self) -> u16
        ensures { result ≡ place_of self }
    {
        match self {
            Which::Constants => 0,
            Which::Expressions => 1,
            Which::Allocation => 2,
            Which::Order => 3,
        }
    }
}
