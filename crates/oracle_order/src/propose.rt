use crate::chains::chained;
use lang_base::{NoMemory, Oracle};
use linearize_check::{Linearize, Order, arrange, rising};
use ltl::Function;
use rand_core::utils::NextWord;
use rand_pcg::Pcg32;
use std::alloc::Global;

/// Proposes orders of what is reached: the entry first, and at each later place one of the nodes that
/// are left, which the next word chooses.
#[derive(Clone, Copy, Debug)]
pub struct OrderOracle;

impl Oracle for OrderOracle {
    type P = Linearize;

    fn propose(
        &mut self,
        alloc: Global,
        input: &Function,
        draws: &mut Pcg32,
    ) -> Result<Option<(linear_language::Function, Order)>, NoMemory> {
        let reached = rising(alloc, input)?;
        let nodes = drawn(alloc, reached.as_slice(), draws)?;
        arrange(alloc, input, nodes)
    }
}

/// Proposes orders in which what is run most falls through, and loops have their test behind their body.
#[derive(Clone, Copy, Debug)]
pub struct OrderSpeed;

impl Oracle for OrderSpeed {
    type P = Linearize;

    fn propose(
        &mut self,
        alloc: Global,
        input: &Function,
        _draws: &mut Pcg32,
    ) -> Result<Option<(linear_language::Function, Order)>, NoMemory> {
        let reached = rising(alloc, input)?;
        let nodes = chained(alloc, input.blocks().as_slice(), reached.as_slice())?;
        arrange(alloc, input, nodes)
    }
}

/// The first node, and then the others as they are drawn.
fn drawn(alloc: Global, nodes: &[u16], draws: &mut Pcg32) -> Result<Vec<u16>, NoMemory> {
    let mut order = Vec::new(alloc);
    let Some((first, others)) = nodes.split_first() else {
        return Ok(order);
    };
    order.push(*first)?;
    let mut left = others.to_vec(alloc)?;
    while !left.is_empty() {
        let place = draws.next_word() as usize % left.len();
        order.push(left.swap_remove(place))?;
    }
    Ok(order)
}
