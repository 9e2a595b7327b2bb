//! Optimisers that are known: what they offer stands in the journals.

use crate::linking::disks_of;
use crate::turning::{open_three, turned};
use acceptor_log::Log;
use acceptor_log_form::{Header, Record};
use alloc_check_verdict::EquationLists as PlaceLists;
use constprop_check::FactLists;
use cse_check::EquationLists;
use durable_pair_memory::MemoryPair;
use farm_nodes::{Farm, FarmNode, Oracles};
use lang_base::NoMemory;
use linearize_check::{Linearize, Order, arrange};
use linearize_check_layout::rising;
use offers::Offer;
use rand_pcg::Pcg32;
use rooms_hall::{Hall, Naming};
use std::alloc::Global;
use std::sync::Wait;
use std::thread::Threads;
use worked_row_files::{owned, some};

/// Proposes only in the fourth pass, and there one order.
#[derive(Clone, Copy, Debug, PartialEq, Eq)]
struct Fixed;

/// The room of the first function's fourth pass.
const ROOM: u16 = 3;

/// What is reached: the entry, and behind it the others, falling.
fn falling(alloc: Global, input: &ltl::Function) -> Result<Vec<u16>, NoMemory> {
    let rises = rising(alloc, input)?;
    let mut order = Vec::new(alloc);
    let Some((first, others)) = rises.as_slice().split_first() else {
        return Ok(order);
    };
    order.push(*first)?;
    for node in others.iter().rev() {
        order.push(*node)?;
    }
    Ok(order)
}

impl Oracles for Fixed {
    fn propose_constants(
        &mut self,
        _alloc: Global,
        _number: u16,
        _input: &rtl_language::Function,
        _draws: &mut Pcg32,
    ) -> Result<Option<(rtl_language::Function, FactLists)>, NoMemory> {
        Ok(None)
    }

    fn propose_expressions(
        &mut self,
        _alloc: Global,
        _number: u16,
        _input: &rtl_language::Function,
        _draws: &mut Pcg32,
    ) -> Result<Option<(rtl_language::Function, EquationLists)>, NoMemory> {
        Ok(None)
    }

    fn propose_allocation(
        &mut self,
        _alloc: Global,
        _number: u16,
        _input: &rtl_language::Function,
        _draws: &mut Pcg32,
    ) -> Result<Option<(ltl::Function, PlaceLists)>, NoMemory> {
        Ok(None)
    }

    fn propose_order(
        &mut self,
        alloc: Global,
        _number: u16,
        input: &ltl::Function,
        _draws: &mut Pcg32,
    ) -> Result<Option<(linear_language::Function, Order)>, NoMemory> {
        let nodes = falling(alloc, input)?;
        arrange(alloc, input, nodes)
    }
}

/// Whether a written offer of the fourth pass is the one that is made for its input.
fn is_falling(alloc: Global, bytes: &[u8]) -> bool {
    let Ok(parts) = Offer::<Linearize>::parts(alloc, bytes) else {
        return false;
    };
    let Ok(order) = falling(alloc, &parts.input) else {
        return false;
    };
    order.len() > 2 && parts.certificate.as_slice() == order.as_slice()
}

/// How many offers of the room stand in a journal; none where one of them is another.
fn offers_in(alloc: Global, disk: MemoryPair, header: &Header) -> Option<usize> {
    let Ok((_log, records)) = Log::open(alloc, disk, header) else {
        return None;
    };
    let mut count = 0usize;
    for entry in records.as_slice() {
        if let Record::Offered(room, bytes) = entry {
            if *room == ROOM {
                if !is_falling(alloc, bytes.as_slice()) {
                    return None;
                }
                count = count.saturating_add(1);
            }
        }
    }
    Some(count)
}

/// The same in the journals of all nodes.
fn all_offers<H: Naming>(
    alloc: Global,
    nodes: &[FarmNode<MemoryPair, Fixed, H>],
    digest: [u8; 32],
) -> Option<usize> {
    let mut words = Pcg32::new(1, 0);
    let mut count = 0usize;
    let mut number = 0u8;
    for node in nodes {
        let Ok(disk) = node.disk().crash(alloc, &mut words) else {
            return None;
        };
        let header = Header {
            nodes: 3,
            promise: 2,
            accept: 2,
            node: number,
            digest,
        };
        count = count.saturating_add(some!(offers_in(alloc, disk, &header)));
        number = number.saturating_add(1);
    }
    Some(count)
}

/// Whether all offers of the fourth pass of the first function are the known one, and at least one stands in the journals.
pub(crate) fn fixed_told<H: Naming + Send, R: Threads + Wait + Sync>(
    threads: &R,
    alloc: Global,
    hall: &Hall<H>,
    text: &[u8],
) -> Option<String> {
    let disks = some!(disks_of(alloc, 3));
    let Ok(oracles) = vec![in alloc; Fixed; 3] else {
        return None;
    };
    let Ok(farm) = open_three(threads, alloc, hall, text, disks, oracles, 1) else {
        return None;
    };
    let Farm { source, nodes } = farm;
    let nodes = some!(turned(threads, alloc, nodes));
    let Some(count) = all_offers(alloc, &nodes, source.digest) else {
        return owned(alloc, "another");
    };
    owned(alloc, if count > 0 { "one" } else { "none" })
}
