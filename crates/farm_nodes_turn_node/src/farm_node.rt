ghost use Rattle.std.specs.Prelude.{◌≡◌, length};
ghost use Rattle.std.specs.Arc.{arc_value};

use crate::halted::Halted;
use acceptor_log::Log;
use farm_nodes_turn_function::{Function, NumberedSeat};
use lang_base::Program;
use rand_pcg::Pcg32;
use rooms_hall::Naming;
use std::alloc::Global;
use std::sync::Arc;

/// A node of a farm. Its seats stand in the order of the program's functions.
#[derive(Drop)]
pub struct FarmNode<D, O, H: Naming> {
    pub alloc: Global,
    pub log: Log<D>,
    pub seats: Vec<NumberedSeat<H>>,
    /// The program with which the first pass begins, shared by the nodes of a farm.
    pub program: Arc<Program<Function>>,
    pub oracles: O,
    pub draws: Pcg32,
    /// What stopped it, if it is stopped.
    pub halted: Option<Halted>,
    pub ghost covers: { length seats.items ≡ length (arc_value program).functions },
}
