ghost use Rattle.std.specs.Prelude.{◌≡◌, None, All, length, map, IfOk, IfErr};
ghost use Rattle.std.specs.Arc.{arc_value};
ghost use Rattle.farm_nodes_turn_node.specs.Waiting.{IsWaiting};
ghost use Rattle.farm_nodes_open_join.specs.FarmNodes.{AllCompile, HasSoundJournal};
ghost use Rattle.farm_nodes_open_join.specs.Joined.{AreHeldOn};
ghost use Rattle.farm_nodes_open_join.specs.Words.{generators};

use crate::pieces::{Pieces, made_of, pieces_of};
use acceptor_log::Log;
use acceptor_log_form::Record;
use durable_model::Disk;
use farm_nodes_turn_node::{FarmNode, NumberedSeat};
use lang_base::{NoMemory, Program};
use rooms_hall::Naming;
use rtl_language::Function;
use std::alloc::Global;
use std::sync::Arc;

/// As many shares of the program.
fn shares<F: Drop>(
    alloc: Global,
    program: &Arc<Program<F>>,
    count: usize,
) -> Result<Vec<Arc<Program<F>>>, NoMemory>
    ensures count { IfOk result (λ shares. length shares.items ≡ count) }
    ensures same { IfOk result (λ shares. All (λ p. arc_value p ≡ arc_value program.now) shares.items) }
{
    let mut shares = Vec::new(alloc);
    for _share in 0..count {
        let Ok(share) = program.clone() else {
            return Err(NoMemory);
        };
        match shares.push(share) {
            Ok(()) => {}
            Err(_) => return Err(NoMemory),
        }
    }
    Ok(shares)
}

/// A node of its pieces, which is not stopped.
fn node_of<D, O, H: Naming>(
    pieces: Pieces<(Log<D>, Vec<Record>), Vec<NumberedSeat<H>>, Arc<Program<Function>>, O>,
) -> FarmNode<D, O, H>
    requires { length pieces.seats.items ≡ length (arc_value pieces.program).functions }
    ensures log { result.log ≡ pieces.journal.0 }
    ensures seats { result.seats ≡ pieces.seats }
    ensures program { result.program ≡ pieces.program }
    ensures oracles { result.oracles ≡ pieces.oracles }
    ensures draws { result.draws ≡ pieces.draws }
    ensures going { result.halted ≡ None }
{
    let Pieces {
        alloc,
        journal,
        seats,
        program,
        oracles,
        draws,
    } = pieces;
    let (log, _records) = journal;
    FarmNode {
        alloc,
        log,
        seats,
        program,
        oracles,
        draws,
        halted: None,
    }
}

/// The nodes of a farm, each of its journal, its seats and its optimisers, none of them stopped. Where there is no memory the journals
/// come back.
pub fn join_nodes<D, O, H>(
    alloc: Global,
    journals: Vec<(Log<D>, Vec<Record>)>,
    seats: Vec<Vec<NumberedSeat<H>>>,
    program: &Arc<Program<Function>>,
    oracles: Vec<O>,
    seed: u64,
) -> Result<Vec<FarmNode<D, O, H>>, Vec<(Log<D>, Vec<Record>)>>
where
    D: Disk + Drop,
    O: Drop,
    H: Naming,
    requires held { AreHeldOn D.Disk journals.items seats.items }
    requires functions { All (λ s. length s.items ≡ length (arc_value program.now).functions) seats.items }
    requires oracles { length oracles.items ≡ length journals.items }

    // They are made of the pieces, in their order.
    ensures logs { IfOk result (λ nodes. map (λ n. n.log) nodes.items ≡ map (λ j. j.0) journals.items) }
    ensures seats { IfOk result (λ nodes. map (λ n. n.seats) nodes.items ≡ seats.items) }
    ensures oracles { IfOk result (λ nodes. map (λ n. n.oracles) nodes.items ≡ oracles.items) }
    ensures program { IfOk result (λ nodes. AllCompile (arc_value program.now) nodes.items) }
    ensures draws { IfOk result (λ nodes. map (λ n. n.draws) nodes.items ≡ generators seed (length journals.items)) }

    // Each may be asked, and is not stopped.
    ensures going { IfOk result (λ nodes. All (λ n. n.halted ≡ None) nodes.items) }
    ensures sound { IfOk result (λ nodes. All (HasSoundJournal D.Disk) nodes.items) }
    ensures waiting { IfOk result (λ nodes. All (λ n. IsWaiting n.seats.items n.halted) nodes.items) }
    ensures back { IfErr result (λ back. back ≡ journals) }
{
    let count = journals.len();
    let Ok(nodes) = Vec::with_capacity(alloc, count) else {
        return Err(journals);
    };
    let Ok(spare) = Vec::with_capacity(alloc, count) else {
        return Err(journals);
    };
    let shares = match shares(alloc, program, count) {
        Ok(shares) => shares,
        Err(NoMemory) => return Err(journals),
    };
    let pieces = pieces_of(alloc, spare, journals, seats, shares, oracles, seed);
    Ok(made_of(nodes, pieces, node_of::<D, O, H>))
}
