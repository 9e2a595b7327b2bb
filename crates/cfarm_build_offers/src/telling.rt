//! What is told of offers that were not used.

use crate::given::{NodeOffers, PassOffers};
use cfarm_options::{Ignored, Meter};
use lang_base::Pass;

fn tell_pass<P: Pass, M: Meter>(meter: &mut M, of: &PassOffers<P>) {
    for given in &of.given {
        match given.fault {
            Some(fault) => meter.ignored(Ignored {
                path: given.path.as_str(),
                number: fault.number(),
                name: fault.name(),
            }),
            None => {}
        }
    }
}

/// Tells what was not used, by node, then by pass, then by function: for a fault of its own, or since the node asked for the function's with
/// another input. Of an offer that nobody asked for nothing is known.
pub fn tell_ignored<M: Meter>(meter: &mut M, nodes: &[NodeOffers]) {
    for node in nodes {
        tell_pass(meter, &node.constants);
        tell_pass(meter, &node.expressions);
        tell_pass(meter, &node.allocation);
        tell_pass(meter, &node.order);
    }
}
