ghost use Rattle.std.specs.Prelude.{◌≡◌, ◌≢◌, ◌<◌, ◌≤◌, ◌++◌, ◌∷◌, [], All, length, IfOk, OnOk, IfErr};
ghost use Rattle.farm_nodes_open_stored.specs.Nodes.{InFront};
ghost use Rattle.farm_nodes_open_stored.specs.Checked.{AreAccepted, AreAsMany, AreChecked, HasRefusedAt};

use crate::accepting::check_node;
use crate::one::StoredOf;
use crate::reading::BadNode;
use constprop_check::ConstProp;
use cse_check::Cse;
use farm_nodes_open_offers::{Alloc, Passes, RecordFault};
use lang_base::NoMemory;
use linearize_check::Linearize;
use offers::Offer;
use std::alloc::Global;
use std::sync::Wait;
use std::thread::Threads;

/// The offers of nodes, of each pass node by node: of each function the offer, if the node has made one.
pub type OffersOf = Passes<
    Vec<Vec<Option<Offer<ConstProp>>>>,
    Vec<Vec<Option<Offer<Cse>>>>,
    Vec<Vec<Option<Offer<Alloc>>>>,
    Vec<Vec<Option<Offer<Linearize>>>>,
>;

/// The offers of one node more.
fn add<A: Drop, B: Drop, C: Drop, E: Drop>(
    found: &mut Passes<Vec<A>, Vec<B>, Vec<C>, Vec<E>>,
    more: Passes<A, B, C, E>,
) -> Result<(), NoMemory>
    ensures constants { OnOk result (found.new.constants.items ≡ found.old.constants.items ++ more.constants ∷ []) }
    ensures expressions { OnOk result (found.new.expressions.items ≡ found.old.expressions.items ++ more.expressions ∷ []) }
    ensures allocation { OnOk result (found.new.allocation.items ≡ found.old.allocation.items ++ more.allocation ∷ []) }
    ensures order { OnOk result (found.new.order.items ≡ found.old.order.items ++ more.order ∷ []) }
{
    let Passes {
        constants,
        expressions,
        allocation,
        order,
    } = more;
    if found.constants.push(constants).is_err() || found.expressions.push(expressions).is_err() {
        return Err(NoMemory);
    }
    if found.allocation.push(allocation).is_err() || found.order.push(order).is_err() {
        return Err(NoMemory);
    }
    Ok(())
}

/// The offers of each node, by function, once so many threads have checked all of them again. The first node in order is told that has one
/// which its pass does not accept.
pub(crate) fn checked_nodes<R: Threads + Wait + Sync>(
    rt: &R,
    alloc: Global,
    functions: u16,
    workers: usize,
    stored: Vec<StoredOf>,
) -> Result<OffersOf, BadNode>
    requires workers { 0 < workers }
    requires nodes { length stored.items ≤ 255 }
    requires rooms { All AreAsMany stored.items }
    ensures checked { IfOk result (λ offers. AreChecked functions stored.items (length stored.items) offers) }

    // The node that is told has an offer that its pass does not accept, and those in front of it have none.
    ensures fault { IfErr result (λ it. it.fault ≢ RecordFault.NoMemory → it.fault ≡ RecordFault.Refused) }
    ensures refused { IfErr result (λ it. it.fault ≢ RecordFault.NoMemory → HasRefusedAt stored.items it.node) }
    ensures in_front { IfErr result (λ it. InFront AreAccepted it.node stored.items) }
{
    let count = stored.len() as u8;
    let mut behind = stored.into_iter();
    let mut found = Passes {
        constants: Vec::new(alloc),
        expressions: Vec::new(alloc),
        allocation: Vec::new(alloc),
        order: Vec::new(alloc),
    };
    for node in 0..count {
        let Some(one) = behind.next() else {
            unreachable!();
        };
        match check_node::<R>(rt, alloc, functions, workers, one) {
            Ok(offers) => match add(&mut found, offers) {
                Ok(()) => {}
                Err(NoMemory) => {
                    return Err(BadNode {
                        node,
                        fault: RecordFault::NoMemory,
                    });
                }
            },
            Err(fault) => return Err(BadNode { node, fault }),
        }
    }
    Ok(found)
}
