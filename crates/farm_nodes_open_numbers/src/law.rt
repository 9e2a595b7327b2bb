ghost use Rattle.farm_nodes_open_numbers.specs.StaySettled.{LeftIsSettled};

/// What a run of a room's nodes leaves is settled: a room whose nodes have all crashed opens again. It does nothing.
pub fn left_is_settled()
    ensures { LeftIsSettled }
{}
