ghost use Rattle.std.specs.Prelude.{◌≡◌, ◌≤◌, ◌<◌, is_some, length, IfOk, IfErr};
ghost use Rattle.std.specs.Arc.{arc_value};
ghost use Rattle.std.specs.List.{AllByRecursion};
ghost use Rattle.c_checker_rules.specs.Checked.{program_tree};
ghost use Rattle.cminor_lowering.specs.Programs.{low};
ghost use Rattle.cminor_program_ranges.specs.Names.{HaveNames};
ghost use Rattle.rtlgen_definition.specs.Gen.{gen};
ghost use Rattle.cfarm_build.specs.Built.{GivesBuilt};
ghost use Rattle.cfarm_build.specs.Gone.{HaveGone};
ghost use Rattle.cfarm_build.specs.Refused.{GivesUnbuilt};
ghost use Rattle.cfarm_build_turns.specs.Asked.{MayBeAsked};

use crate::host::Host;
use cfarm_build_folder::{BuildError, Farm};
use cfarm_build_linking::built_by;
use cfarm_build_offers::Oracles;
use cfarm_build_turns::{Built, FarmNode, disks_back, met_all, run_rounds};
use cfarm_options::Meter;
use durable_pair::Pair;
use farm_nodes_source::Source;
use paxos_core_world::quorum::Quorums;
use rooms_hall::Naming;
use std::sync::Wait;
use std::thread::Threads;

/// The nodes of a farm that opened take so many turns at most, and each two neighbours meet. What is linked then, if it is, and the nodes.
fn gone<
    D: Pair + Drop + Send,
    O: Oracles + Drop + Send,
    H: Naming + Send,
    R: Threads + Wait + Sync,
    M: Meter,
>(
    host: &Host<'_, H, R>,
    source: &Source,
    nodes: Vec<FarmNode<D, O, H>>,
    turns: u64,
    bundles: bool,
    meter: &mut M,
) -> (Result<Built, BuildError>, Vec<FarmNode<D, O, H>>)
    requires some { 0 < length nodes.items }
    requires fit { AllByRecursion (MayBeAsked D.Disk) nodes.items }
    requires translated { arc_value source.now.translated ≡ gen (low (program_tree source.now.program)) }
    requires names { HaveNames (program_tree source.now.program) }
    requires count { length (arc_value source.now.translated).functions ≤ 64 }
    requires program { AllByRecursion (λ n. arc_value n.program ≡ arc_value source.now.translated) nodes.items }
    ensures gone { HaveGone D.Disk turns source.now nodes.items result.1.items result.0 }
    ensures asked { IfOk result.0 (λ built. is_some built.bundle ≡ bundles) }
{
    let (rt, alloc) = (host.threads, host.alloc);
    let nodes = match run_rounds(rt, alloc, nodes, turns, meter) {
        Ok(nodes) => nodes,
        Err((nodes, fault)) => return (Err(fault), nodes),
    };
    let nodes = match met_all(nodes) {
        Ok(nodes) => nodes,
        Err((nodes, fault)) => return (Err(fault), nodes),
    };
    let made = built_by(alloc, source, &nodes, bundles);
    (made, nodes)
}

/// Compiles a C text that was made ready by a farm with these quorums and a node for each pair of disks, a thread for each node, each of which
/// takes so many turns at most. Then each two neighbours meet, and the program is linked, with its bundle where that is asked for. Between
/// rounds of turns it is told how far they are. Whatever it comes to, the disks are given back, in their order: those of the nodes, or the pairs
/// where the farm did not open.
pub fn build<
    D: Pair + Drop + Send,
    O: Oracles + Drop + Send,
    H: Naming + Send,
    R: Threads + Wait + Sync,
    M: Meter,
>(
    host: &Host<'_, H, R>,
    source: Source,
    disks: Vec<D>,
    oracles: Vec<O>,
    turns: u64,
    seed: u64,
    quorums: Quorums,
    bundles: bool,
    meter: &mut M,
) -> (Result<Built, BuildError>, Vec<D>)
    requires size { length disks.items ≡ quorums.nodes }
    requires oracles { length oracles.items ≡ length disks.items }

    // What is compiled was made ready.
    requires translated { arc_value source.translated ≡ gen (low (program_tree source.program)) }
    requires names { HaveNames (program_tree source.program) }
    requires count { length (arc_value source.translated).functions ≤ 64 }

    // Each two neighbours of the nodes met, and all functions were counted. So every node has learned the same offers, and what each would link
    // is one program: the bytes are its text, it keeps the meaning of the C program, and the report tells the offers. The disks of the nodes come
    // back, and each one's holds its journal.
    ensures built { IfOk result.0 (GivesBuilt D.Disk D.Pair.own H.Naming quorums seed turns source disks result.1) }

    // There is a bundle where it is asked for: that of the offers of which the program is linked.
    ensures asked { IfOk result.0 (λ built. is_some built.bundle ≡ bundles) }

    // The disks come first, then the lowest node that failed, for which there is a cause, then what is not counted, or not linked. Behind the
    // opening the disks of the nodes come back, and each one's holds its journal.
    ensures refused { IfErr result.0 (GivesUnbuilt D.Disk D.Pair.own H.Naming quorums seed turns source disks result.1) }

    // There are as many as were given.
    ensures back { length result.1.items ≡ length disks.items }
{
    let (rt, alloc, hall) = (host.threads, host.alloc, host.hall);
    // There is one node at least.
    let _nodes = quorums.nodes();
    let Ok(spare) = Vec::with_capacity(alloc, disks.len()) else {
        return (Err(BuildError::NoMemory), disks);
    };
    let farm = match Farm::over(rt, alloc, hall, source, disks, oracles, seed, quorums) {
        Ok(farm) => farm,
        Err((disks, fault)) => return (Err(BuildError::Disks(fault)), disks),
    };
    meter.opened();
    let Farm { source, nodes } = farm;
    let (made, nodes) = gone(host, &source, nodes, turns, bundles, meter);
    (made, disks_back(nodes, spare))
}
