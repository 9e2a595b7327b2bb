use farm_nodes_turn_function::Halt;

/// What stopped a node, and in which room: the turn there failed.
#[derive(Drop)]
pub struct Halted {
    pub room: u16,
    pub halt: Halt,
}
