//! The form of an order: how many nodes it lists, and the nodes.

ghost use Rattle.std.specs.Prelude.{◌<◌, ◌^◌, length};
ghost use Rattle.std.specs.Int.{w16};
ghost use Rattle.lang_base.specs.Reading.{Reads, items_of, number, below};
ghost use Rattle.lang_base.specs.Texts.{Appends};
ghost use Rattle.linearize_check.specs.OrderForm.{order, order_text};

use lang_base::{FormError, NoMemory, push_u16, read_u16, read_u16_below};
use linearize_check_layout::{Half, ReadOne, push_each, read_so_many};
use std::alloc::Global;

/// Reads nodes of so many.
#[derive(Drop)]
struct Nodes {
    nodes: u32,
}

impl ReadOne for Nodes {
    type Item = u16;

    ghost part = { λ reader _. below reader.nodes (number w16) };

    fn read(
        &mut self,
        _alloc: Global,
        _before: &[u16],
        bytes: &mut &[u8],
    ) -> Result<u16, FormError> {
        read_u16_below(self.nodes, bytes)
    }
}

/// The listed nodes, each of them one of so many.
#[tactic(auto, unfolding(crate::specs::OrderForm::order))]
pub(crate) fn read_order(
    alloc: Global,
    nodes: u32,
    bytes: &mut &[u8],
) -> Result<Vec<u16>, FormError>
    ensures { Reads (order nodes bytes.old.now) (items_of result) bytes.new.now }
{
    let count = read_u16(bytes)?;
    read_so_many(alloc, Nodes { nodes }, u32::from(count), bytes)
}

/// Writes the order at the end of `out`.
pub(crate) fn push_order(out: &mut Vec<u8>, order: &[u16]) -> Result<(), NoMemory>
    requires { length order.now < 2 ^ 16 }
    ensures { Appends result (order_text order.now) out.old.items out.new.items }
{
    push_u16(out, order.len() as u16)?;
    push_each::<Half>(out, order)
}
