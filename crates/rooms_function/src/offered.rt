//! Offers of a node in a function's rooms: one of any of the four passes, which says in which room it is made.

ghost use Rattle.std.specs.Prelude.{◌≡◌, ◌<◌, ◌≤◌, true};
ghost use Rattle.rooms_cells.specs.declared.sight.Put.TheVariants as put;
ghost use Rattle.rooms_function.specs.Cells.{count_in, has_offered, IsChainOffered, IsFetched, IsReadIn};

use crate::seat::FunctionSeat;
use alloc_check::Alloc;
use constprop_check::ConstProp;
use cse_check::Cse;
use linearize_check::Linearize;
use offers::Offer;
use rooms_cells::Put;
use std::alloc::Global;
use std::sync::Arc;

/// An offer in the room of its pass.
#[derive(Drop)]
pub enum ChainOffer {
    Constants(Arc<Offer<ConstProp>>),
    Expressions(Arc<Offer<Cse>>),
    Allocation(Arc<Offer<Alloc>>),
    Order(Arc<Offer<Linearize>>),
}

/// An offer that a seat has seen, lent.
pub enum SeenOffer<'a> {
    Constants(&'a Offer<ConstProp>),
    Expressions(&'a Offer<Cse>),
    Allocation(&'a Offer<Alloc>),
    Order(&'a Offer<Linearize>),
}

impl FunctionSeat {
    /// Makes the node's offer in the room of its pass, in a cell that all seats of the function can read. No word is loaded or stored.
    pub fn offer(&mut self, alloc: Global, offer: ChainOffer) -> Put<ChainOffer>
        ensures offered { IsChainOffered result offer self.old self.new }
        ensures stands { has_offered self.old offer ≡ true → result ≡ put.No offer }
    {
        match offer {
            ChainOffer::Constants(offer) => match self.first.offer(alloc, offer) {
                Put::Yes => Put::Yes,
                Put::No(back) => Put::No(ChainOffer::Constants(back)),
                Put::NoMemory(back) => Put::NoMemory(ChainOffer::Constants(back)),
            },
            ChainOffer::Expressions(offer) => match self.second.offer(alloc, offer) {
                Put::Yes => Put::Yes,
                Put::No(back) => Put::No(ChainOffer::Expressions(back)),
                Put::NoMemory(back) => Put::NoMemory(ChainOffer::Expressions(back)),
            },
            ChainOffer::Allocation(offer) => match self.third.offer(alloc, offer) {
                Put::Yes => Put::Yes,
                Put::No(back) => Put::No(ChainOffer::Allocation(back)),
                Put::NoMemory(back) => Put::NoMemory(ChainOffer::Allocation(back)),
            },
            ChainOffer::Order(offer) => match self.fourth.offer(alloc, offer) {
                Put::Yes => Put::Yes,
                Put::No(back) => Put::No(ChainOffer::Order(back)),
                Put::NoMemory(back) => Put::NoMemory(ChainOffer::Order(back)),
            },
        }
    }

    /// Reads node `j`'s cell in the room of a pass, from 1 to 4, which is no word. What was seen stays.
    pub fn see(&mut self, pass: u8, j: u8)
        requires some { 0 < pass }
        requires most { pass ≤ 4 }
        requires number { j < count_in pass self.old }
        ensures { IsReadIn pass j self.old self.new }
    {
        match pass {
            1 => self.first.see(j),
            2 => self.second.see(j),
            3 => self.third.see(j),
            _ => self.fourth.see(j),
        }
    }

    /// Node `j`'s offer in the room of a pass, from 1 to 4, as the seat has seen it.
    pub fn fetch(&self, pass: u8, j: u8) -> Option<SeenOffer<'_>>
        requires some { 0 < pass }
        requires most { pass ≤ 4 }
        requires number { j < count_in pass self.now }
        ensures { IsFetched pass j self.now result }
    {
        match pass {
            1 => Some(SeenOffer::Constants(self.first.fetch(j)?)),
            2 => Some(SeenOffer::Expressions(self.second.fetch(j)?)),
            3 => Some(SeenOffer::Allocation(self.third.fetch(j)?)),
            _ => Some(SeenOffer::Order(self.fourth.fetch(j)?)),
        }
    }
}
