ghost use Rattle.std.specs.Prelude.{◌≡◌, length, IfOk};

use farm_nodes_open_nodes::Order;
use farm_nodes_threads::Oracles;
use lang_base::{NoMemory, Oracle};
use oracle_alloc_speed::{AllocOracle, AllocSpeed};
use oracle_const::{ConstOracle, ConstSpeed};
use oracle_cse::{CseOracle, CseSpeed};
use oracle_order::{OrderOracle, OrderSpeed};
use rand_pcg::Pcg32;
use std::alloc::Global;

/// What a farm's optimisers are after.
#[derive(Clone, Copy, Debug, PartialEq, Eq)]
pub enum Optimising {
    /// Nothing: each choice is drawn from the node's words.
    Drawn,
    /// Code that runs fast.
    Speed,
}

/// A node's optimisers, one for each pass of the compiler.
#[derive(Clone, Copy, Debug, PartialEq, Eq)]
pub enum Optimisers {
    /// They hold nothing: what they choose is drawn from the node's words.
    Drawn,
    /// They choose what is thought to run fast, and draw only between registers of the machine that are all free.
    Speed,
}

impl Oracles for Optimisers {
    fn propose_constants(
        &mut self,
        alloc: Global,
        _number: u16,
        input: &rtl_language::Function,
        draws: &mut Pcg32,
    ) -> Result<Option<(rtl_language::Function, farm_nodes_open_nodes::FactLists)>, NoMemory> {
        match self {
            Optimisers::Drawn => ConstOracle.propose(alloc, input, draws),
            Optimisers::Speed => ConstSpeed.propose(alloc, input, draws),
        }
    }

    fn propose_expressions(
        &mut self,
        alloc: Global,
        _number: u16,
        input: &rtl_language::Function,
        draws: &mut Pcg32,
    ) -> Result<Option<(rtl_language::Function, oracle_cse::EquationLists)>, NoMemory> {
        match self {
            Optimisers::Drawn => CseOracle.propose(alloc, input, draws),
            Optimisers::Speed => CseSpeed.propose(alloc, input, draws),
        }
    }

    fn propose_allocation(
        &mut self,
        alloc: Global,
        _number: u16,
        input: &rtl_language::Function,
        draws: &mut Pcg32,
    ) -> Result<Option<(ltl::Function, farm_nodes_open_nodes::EquationLists)>, NoMemory> {
        match self {
            Optimisers::Drawn => AllocOracle.propose(alloc, input, draws),
            Optimisers::Speed => AllocSpeed.propose(alloc, input, draws),
        }
    }

    fn propose_order(
        &mut self,
        alloc: Global,
        _number: u16,
        input: &ltl::Function,
        draws: &mut Pcg32,
    ) -> Result<Option<(linear_language::Function, Order)>, NoMemory> {
        match self {
            Optimisers::Drawn => OrderOracle.propose(alloc, input, draws),
            Optimisers::Speed => OrderSpeed.propose(alloc, input, draws),
        }
    }
}

/// The optimisers that are after this.
fn optimisers_for(kind: Optimising) -> Optimisers {
    match kind {
        Optimising::Drawn => Optimisers::Drawn,
        Optimising::Speed => Optimisers::Speed,
    }
}

/// The optimisers of each of so many nodes.
pub fn optimisers_of(
    alloc: Global,
    nodes: usize,
    kind: Optimising,
) -> Result<Vec<Optimisers>, NoMemory>
    ensures { IfOk result (λ made. length made.items ≡ nodes) }
{
    let mut made = Vec::new(alloc);
    for _node in 0..nodes {
        match made.push(optimisers_for(kind)) {
            Ok(()) => {}
            Err(_) => return Err(NoMemory),
        }
    }
    Ok(made)
}
