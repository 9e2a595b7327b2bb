//! Optimisers that propose what they were given before what their own choose.

ghost use Rattle.std.specs.Prelude.{◌≡◌, length, IfOk};

use crate::given::NodeOffers;
use constprop_check::FactLists;
use cse_check::EquationLists;
use farm_nodes_turn_passes::{EquationLists as PlaceLists, Oracles};
use lang_base::NoMemory;
use linearize_check::Order;
use rand_pcg::Pcg32;
use std::alloc::Global;

/// A node's own optimisers, and the offers that it is given, where it is. No word is drawn for an offer that is given.
#[derive(Drop)]
pub struct Outside<'a, O> {
    given: Option<&'a mut NodeOffers>,
    own: O,
}

impl<O: Oracles> Oracles for Outside<'_, O> {
    fn propose_constants(
        &mut self,
        alloc: Global,
        number: u16,
        input: &rtl_language::Function,
        draws: &mut Pcg32,
    ) -> Result<Option<(rtl_language::Function, FactLists)>, NoMemory> {
        let outside = match &mut self.given {
            Some(given) => given.constants.next_for(number, input),
            None => None,
        };
        match outside {
            Some(proposed) => Ok(Some(proposed)),
            None => self.own.propose_constants(alloc, number, input, draws),
        }
    }

    fn propose_expressions(
        &mut self,
        alloc: Global,
        number: u16,
        input: &rtl_language::Function,
        draws: &mut Pcg32,
    ) -> Result<Option<(rtl_language::Function, EquationLists)>, NoMemory> {
        let outside = match &mut self.given {
            Some(given) => given.expressions.next_for(number, input),
            None => None,
        };
        match outside {
            Some(proposed) => Ok(Some(proposed)),
            None => self.own.propose_expressions(alloc, number, input, draws),
        }
    }

    fn propose_allocation(
        &mut self,
        alloc: Global,
        number: u16,
        input: &rtl_language::Function,
        draws: &mut Pcg32,
    ) -> Result<Option<(ltl::Function, PlaceLists)>, NoMemory> {
        let outside = match &mut self.given {
            Some(given) => given.allocation.next_for(number, input),
            None => None,
        };
        match outside {
            Some(proposed) => Ok(Some(proposed)),
            None => self.own.propose_allocation(alloc, number, input, draws),
        }
    }

    fn propose_order(
        &mut self,
        alloc: Global,
        number: u16,
        input: &ltl::Function,
        draws: &mut Pcg32,
    ) -> Result<Option<(linear_language::Function, Order)>, NoMemory> {
        let outside = match &mut self.given {
            Some(given) => given.order.next_for(number, input),
            None => None,
        };
        match outside {
            Some(proposed) => Ok(Some(proposed)),
            None => self.own.propose_order(alloc, number, input, draws),
        }
    }
}

/// The optimisers of each node, with what the node is given, where it is given anything.
pub fn outside_of<'a, O: Oracles + Drop>(
    alloc: Global,
    given: &'a mut [NodeOffers],
    own: Vec<O>,
) -> Result<Vec<Outside<'a, O>>, NoMemory>
    ensures { IfOk result (λ made. length made.items ≡ length own.items) }
{
    let mut made = Vec::new(alloc);
    let mut nodes = given.iter_mut();
    for one in own {
        match made.push(Outside {
            given: nodes.next(),
            own: one,
        }) {
            Ok(()) => {}
            Err(_) => return Err(NoMemory),
        }
    }
    Ok(made)
}
