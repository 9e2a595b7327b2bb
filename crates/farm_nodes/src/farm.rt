ghost use Rattle.std.specs.Prelude.{◌≡◌, ◌≤◌, None, All, length, map, IfOk, IfErr};
ghost use Rattle.std.specs.Arc.{arc_value};
ghost use Rattle.std.specs.List.{AllByRecursion};
ghost use Rattle.farm_nodes_open_nodes.specs.FarmNodes.{AllCompile};
ghost use Rattle.farm_nodes_open_nodes.specs.Words.{generators};
ghost use Rattle.farm_nodes_link.specs.Asked.{MayBeAsked};
ghost use Rattle.farm_nodes.specs.OpenFarm.{HasJournalsOn, HasOpenRooms};
ghost use Rattle.farm_nodes.specs.Prepared.{IsSourceOf};
ghost use Rattle.farm_nodes.specs.Refused.{AreRefusedOver, LeavesPairs, TellsDisks};

use crate::error::FarmError;
use durable_pair::Pair;
use farm_nodes_link::FarmNode;
use farm_nodes_open_nodes::{OpenFault, open_nodes};
use farm_nodes_source::{Source, prepare};
use paxos_core_world::quorum::Quorums;
use rooms_hall::{Hall, Naming};
use std::alloc::Global;
use std::sync::Wait;
use std::thread::Threads;

/// A farm: what it compiles, and its nodes in their order.
#[derive(Drop)]
pub struct Farm<D, O, H: Naming> {
    pub source: Source,
    pub nodes: Vec<FarmNode<D, O, H>>,
}

impl<P: Pair + Drop, O: Drop, H: Naming> Farm<P, O, H> {
    /// The farm of a C text with these quorums, and a node for each pair of disks: each has the journal on its pair, the seats that come from
    /// what stands there, its optimisers, and the generator of the seed and its number. An old journal that counts is migrated, and a pair
    /// with none gets one. The text comes first, then the journals in the order of the nodes (401 to 404, and 403 for the order of an old
    /// one), then what stands in them (403), then that the passes accept each offer, which as many threads as there are nodes check again
    /// (301), then the rooms in order (510, 511). The first fault is told, and all pairs come back; old journals may have been migrated.
    pub fn open<R: Threads + Wait + Sync>(
        rt: &R,
        alloc: Global,
        hall: &Hall<H>,
        text: &[u8],
        pairs: Vec<P>,
        oracles: Vec<O>,
        seed: u64,
        quorums: Quorums,
    ) -> Result<Farm<P, O, H>, (Vec<P>, FarmError)>
        requires size { length pairs.items ≡ quorums.nodes }
        requires oracles { length oracles.items ≡ length pairs.items }

        // It compiles the program of the text. Each node has its share of the translation, its optimisers and its generator.
        ensures source { IfOk result (λ farm. IsSourceOf text.now farm.source) }
        ensures program { IfOk result (λ farm. AllCompile (arc_value farm.source.translated) farm.nodes.items) }
        ensures oracles { IfOk result (λ farm. map (λ n. n.oracles) farm.nodes.items ≡ oracles.items) }
        ensures draws { IfOk result (λ farm.
            map (λ n. n.draws) farm.nodes.items ≡ generators seed (length pairs.items)) }

        // Each has the journal on its pair, and may be asked; none is stopped. The rooms open from what the journals have acknowledged.
        ensures journals { IfOk result (HasJournalsOn P.Disk P.Pair.own quorums pairs.items) }
        ensures going { IfOk result (λ farm. All (λ n. n.halted ≡ None) farm.nodes.items) }
        ensures fit { IfOk result (λ farm. AllByRecursion (MayBeAsked P.Disk) farm.nodes.items) }
        ensures rooms { IfOk result (HasOpenRooms P.Disk quorums) }

        // A text that is not compiled leaves the pairs as they are.
        ensures untouched { IfErr result (LeavesPairs text.now pairs) }

        // What is refused of the pairs is refused over the source of the text, and all of them come back.
        ensures refused { IfErr result (TellsDisks P.Disk P.Pair.own quorums text.now pairs.items) }
    {
        let source = match prepare(alloc, text) {
            Ok(source) => source,
            Err(fault) => return Err((pairs, FarmError::Source(fault))),
        };
        match Farm::over(rt, alloc, hall, source, pairs, oracles, seed, quorums) {
            Ok(farm) => Ok(farm),
            Err((pairs, fault)) => Err((pairs, FarmError::Disks(fault))),
        }
    }

    /// The farm of a text that was made ready, as `open` opens it behind the text.
    pub fn over<R: Threads + Wait + Sync>(
        rt: &R,
        alloc: Global,
        hall: &Hall<H>,
        source: Source,
        pairs: Vec<P>,
        oracles: Vec<O>,
        seed: u64,
        quorums: Quorums,
    ) -> Result<Farm<P, O, H>, (Vec<P>, OpenFault)>
        requires size { length pairs.items ≡ quorums.nodes }
        requires oracles { length oracles.items ≡ length pairs.items }
        requires functions { length (arc_value source.translated).functions ≤ 64 }

        // It compiles the source. Each node has its share of the translation, its optimisers and its generator.
        ensures source { IfOk result (λ farm. farm.source ≡ source) }
        ensures program { IfOk result (λ farm. AllCompile (arc_value farm.source.translated) farm.nodes.items) }
        ensures oracles { IfOk result (λ farm. map (λ n. n.oracles) farm.nodes.items ≡ oracles.items) }
        ensures draws { IfOk result (λ farm.
            map (λ n. n.draws) farm.nodes.items ≡ generators seed (length pairs.items)) }

        // Each has the journal on its pair, and may be asked; none is stopped. The rooms open from what the journals have acknowledged.
        ensures journals { IfOk result (HasJournalsOn P.Disk P.Pair.own quorums pairs.items) }
        ensures going { IfOk result (λ farm. All (λ n. n.halted ≡ None) farm.nodes.items) }
        ensures fit { IfOk result (λ farm. AllByRecursion (MayBeAsked P.Disk) farm.nodes.items) }
        ensures rooms { IfOk result (HasOpenRooms P.Disk quorums) }

        // What is told is the first fault of the pairs, and all of them come back.
        ensures refused { IfErr result (λ it. AreRefusedOver P.Disk P.Pair.own quorums source pairs.items it.0.items it.1) }
    {
        let workers = usize::from(quorums.nodes());
        let opened = open_nodes(
            rt,
            alloc,
            hall,
            &source.digest,
            &source.translated,
            pairs,
            oracles,
            seed,
            workers,
            quorums,
        );
        match opened {
            Ok(nodes) => Ok(Farm { source, nodes }),
            Err(refused) => Err(refused),
        }
    }
}
