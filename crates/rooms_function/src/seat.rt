use alloc_check::Alloc;
use constprop_check::ConstProp;
use cse_check::Cse;
use linearize_check::Linearize;
use rooms::Seat;

/// A node's seat of a function: its rights in the room of each pass, all in one table.
#[derive(Drop)]
pub struct FunctionSeat {
    pub first: Seat<ConstProp>,
    pub second: Seat<Cse>,
    pub third: Seat<Alloc>,
    pub fourth: Seat<Linearize>,
}
