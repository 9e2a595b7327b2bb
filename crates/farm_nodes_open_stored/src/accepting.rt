ghost use Rattle.std.specs.Prelude.{◌≡◌, ◌<◌, All, length, IfOk, OnOk, IfErr};
ghost use Rattle.farm_nodes_open_offers.specs.Faults.{IsRefusal};
ghost use Rattle.farm_nodes_open_offers.specs.Known.{AreKnown, IsAccepted, HasUnaccepted};
ghost use Rattle.farm_nodes_open_stored.specs.Checked.{AreAccepted, AreAsMany, AreKnownOf, HasRefused};

use crate::one::StoredOf;
use constprop_check::ConstProp;
use cse_check::Cse;
use farm_nodes_open_offers::{Alloc, Passes, RecordFault, Stored, known_offers};
use lang_base::{NoMemory, Pass};
use linearize_check::Linearize;
use offers::{Offer, PartsOf};
use parallel_validate::{OpenGate, check_all};
use std::alloc::Global;
use std::sync::Wait;
use std::thread::Threads;

/// The offers of a node, of each pass: of each function the offer, if the node has made one.
pub(crate) type NodeOffers = Passes<
    Vec<Option<Offer<ConstProp>>>,
    Vec<Option<Offer<Cse>>>,
    Vec<Option<Offer<Alloc>>>,
    Vec<Option<Offer<Linearize>>>,
>;

/// The offer of each of so many functions, if it has one among these, each of which so many threads have checked again. Where the pass
/// does not accept one, all are refused.
fn checked_offers<P: Pass + Sync, R: Threads + Wait + Sync>(
    rt: &R,
    alloc: Global,
    functions: u16,
    workers: usize,
    stored: Stored<PartsOf<P>>,
) -> Result<Vec<Option<Offer<P>>>, RecordFault>
where
    P::In: Sync,
    P::Out: Sync,
    requires workers { 0 < workers }
    requires rooms { length stored.rooms.items ≡ length stored.parts.items }
    ensures known { IfOk result (λ offers. AreKnown functions stored offers.items) }
    ensures accepted { OnOk result (All (IsAccepted P.accepts) stored.parts.items) }
    ensures refused { IfErr result (IsRefusal (HasUnaccepted P.accepts stored.parts.items)) }
{
    let jobs = stored.parts.as_slice();
    let answers = match check_all::<P, OpenGate, R>(rt, alloc, jobs, workers, &OpenGate) {
        Ok(answers) => answers,
        Err(NoMemory) => return Err(RecordFault::NoMemory),
    };
    match known_offers::<P>(alloc, functions, stored, answers.as_slice()) {
        Ok(offers) => Ok(offers),
        Err(fault) => Err(fault),
    }
}

/// The same of all passes, in their order.
pub(crate) fn check_node<R: Threads + Wait + Sync>(
    rt: &R,
    alloc: Global,
    functions: u16,
    workers: usize,
    stored: StoredOf,
) -> Result<NodeOffers, RecordFault>
    requires workers { 0 < workers }
    requires rooms { AreAsMany stored }
    ensures known { IfOk result (λ offers. AreKnownOf functions stored offers) }
    ensures accepted { OnOk result (AreAccepted stored) }
    ensures refused { IfErr result (IsRefusal (HasRefused stored)) }
{
    let Passes {
        constants,
        expressions,
        allocation,
        order,
    } = stored;
    let constants = match checked_offers::<ConstProp, R>(rt, alloc, functions, workers, constants) {
        Ok(offers) => offers,
        Err(fault) => return Err(fault),
    };
    let expressions = match checked_offers::<Cse, R>(rt, alloc, functions, workers, expressions) {
        Ok(offers) => offers,
        Err(fault) => return Err(fault),
    };
    let allocation = match checked_offers::<Alloc, R>(rt, alloc, functions, workers, allocation) {
        Ok(offers) => offers,
        Err(fault) => return Err(fault),
    };
    let order = match checked_offers::<Linearize, R>(rt, alloc, functions, workers, order) {
        Ok(offers) => offers,
        Err(fault) => return Err(fault),
    };
    Ok(Passes {
        constants,
        expressions,
        allocation,
        order,
    })
}
