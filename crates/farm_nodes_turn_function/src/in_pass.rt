ghost use Rattle.std.specs.Prelude.{◌≡◌, ◌<◌, ℕ, true, None, Some, IfOk, IfErr, OnOk};
ghost use Rattle.rand_pcg.specs.Pcg.{pcg32};
ghost use Rattle.acceptor_log.specs.Acknowledged.{IsSound};
ghost use Rattle.farm_nodes_turn_room.specs.SeatAct.TheVariants as asked;
ghost use Rattle.farm_nodes_turn_room.specs.Would.{would};
ghost use Rattle.farm_nodes_turn_room.specs.Served.{IsServed};
ghost use Rattle.farm_nodes_turn_room.specs.Quiet.{IsQuiet};
ghost use Rattle.farm_nodes_turn_room.specs.Leading.{DrawsToLead, HasDrawn, LeadsByLot};
ghost use Rattle.farm_nodes_turn_room.specs.Logged.{HaltsBefore, LogsTurn, MayHaltFor};
ghost use Rattle.farm_nodes_turn_room.specs.Played.{IsMadeOn, StaysInTurn};
ghost use Rattle.farm_nodes_turn_passes.specs.Fours.{four_of};
ghost use Rattle.farm_nodes_turn_passes.specs.Pending.{HasPending};
ghost use Rattle.farm_nodes_turn_function.specs.InRoom.{HaltsInPass, LogsTurnIn};
ghost use Rattle.farm_nodes_turn_function.specs.Turned.{DrawsIn, HasLearned, IsMadeFrom, IsMadeIn, IsTooLargeFrom};
ghost use Rattle.farm_nodes_turn_function.specs.Turned.{OthersStay, StandsAfter, StaysIn};

use acceptor_log::Log;
use durable_model::Disk;
use farm_nodes_turn_passes::{
    AllocationOf, ConstantsOf, ExpressionsOf, Halt, NumberedSeat, Oracles, OrderOf, Which,
};
use farm_nodes_turn_room::{Progress, Seat, learned_output, play};
use lang_base::{Language, Oracle, Pass};
use rand_pcg::Pcg32;
use rooms_hall::Naming;
use rtl_language::Function;
use std::alloc::Global;

/// One turn in the room of one pass of the function. The input of the first pass is the function, that of each other one the
/// output that the node has learned in the pass before it. The optimiser is asked with the function's number.
pub fn play_in<D: Disk, O: Oracles, H: Naming>(
    alloc: Global,
    log: &mut Log<D>,
    numbered: &mut NumberedSeat<H>,
    pass: Which,
    room: u16,
    function: &Function,
    oracles: &mut O,
    draws: &mut Pcg32,
) -> Result<Progress, Halt>
    requires { IsSound D.Disk log.old }
    ensures served { IsServed D.Disk log.old log.new }
    ensures going { IfOk result (λ progress. log.new.going ≡ log.old.going) }
    ensures stays { StaysIn pass (four_of numbered.old) (four_of numbered.new) }

    // The seats of the other passes are as they were, and the rooms keep their number.
    ensures others { OthersStay pass (four_of numbered.old) (four_of numbered.new) }

    // An offer of the first pass goes on from the function, one of another from the output learned in the pass before.
    ensures made { IsMadeIn function.now pass (four_of numbered.old) (four_of numbered.new) }

    // What stands after it, and what it draws.
    ensures after { OnOk result (StandsAfter pass draws.old draws.new (four_of numbered.old) (four_of numbered.new)) }
    ensures draws { DrawsIn pass draws.old draws.new (four_of numbered.old) (four_of numbered.new) }

    // Where it halts it had not done what is pending.
    ensures left { IfErr result (λ halt. HasPending numbered.new room pass halt.pending) }

    // What it tells is what it learned, and whether the journal has more records.
    ensures journal { LogsTurnIn D.Disk pass log.old log.new room numbered.old numbered.new result }
    ensures cause { HaltsInPass D.Disk function.now pass log.old log.new room numbered.old numbered.new result }
{
    let number = room / 4;
    match pass {
        Which::Constants => play_first(
            alloc,
            log,
            &mut numbered.seat.first,
            room,
            function,
            &mut ConstantsOf { oracles, number },
            draws,
        ),
        Which::Expressions => play_behind(
            alloc,
            log,
            &numbered.seat.first,
            &mut numbered.seat.second,
            room,
            &mut ExpressionsOf { oracles, number },
            draws,
        ),
        Which::Allocation => play_behind(
            alloc,
            log,
            &numbered.seat.second,
            &mut numbered.seat.third,
            room,
            &mut AllocationOf { oracles, number },
            draws,
        ),
        Which::Order => play_behind(
            alloc,
            log,
            &numbered.seat.third,
            &mut numbered.seat.fourth,
            room,
            &mut OrderOf { oracles, number },
            draws,
        ),
    }
}

/// One turn in the room of the first pass of the function.
fn play_first<D: Disk, P: Pass, O: Oracle<P = P>>(
    alloc: Global,
    log: &mut Log<D>,
    seat: &mut Seat<P>,
    room: u16,
    function: &<P::In as Language>::Fun,
    oracle: &mut O,
    draws: &mut Pcg32,
) -> Result<Progress, Halt>
    requires { IsSound D.Disk log.old }
    ensures served { IsServed D.Disk log.old log.new }
    ensures going { IfOk result (λ progress. log.new.going ≡ log.old.going) }
    ensures stays { StaysInTurn seat.old seat.new }
    ensures made { IsMadeOn (Some function.now) seat.old seat.new }
    ensures offered { OnOk result (seat.new.words.node.kept.offered ≡ true) }
    ensures quiet { OnOk result ((j : ℕ) → j < seat.new.words.node.quorums.nodes
        → IsQuiet j seat.new.words) }
    ensures proposed { OnOk result (would seat.new.words asked.Propose ≡ None) }
    ensures led { OnOk result (LeadsByLot (pcg32 draws.old).0 seat.old.words seat.new.words) }
    ensures by_lot { DrawsToLead draws.old draws.new seat.old.words seat.new.words }
    ensures drawn { OnOk result (HasDrawn draws.old draws.new seat.old.words seat.new.words) }
    ensures left { IfErr result (HaltsBefore P.In.Language P.Out.Language P.Pass room seat.new) }
    ensures journal { LogsTurn D.Disk P.In.Language P.Out.Language P.Pass
        log.old log.new room seat.old seat.new result }
    ensures cause { MayHaltFor D.Disk (P.too_large function.now) log.old log.new room seat.new.words result }
{
    play(alloc, log, seat, room, Some(function), oracle, draws)
}

/// One turn in the room of a pass whose input is learned in the room before.
fn play_behind<D: Disk, B: Pass, P: Pass<In = B::Out>, O: Oracle<P = P>>(
    alloc: Global,
    log: &mut Log<D>,
    before: &Seat<B>,
    seat: &mut Seat<P>,
    room: u16,
    oracle: &mut O,
    draws: &mut Pcg32,
) -> Result<Progress, Halt>
    requires { IsSound D.Disk log.old }
    ensures served { IsServed D.Disk log.old log.new }
    ensures going { IfOk result (λ progress. log.new.going ≡ log.old.going) }
    ensures stays { StaysInTurn seat.old seat.new }
    ensures made { IsMadeFrom before.now seat.old seat.new }
    ensures offered { OnOk result (HasLearned before.now → seat.new.words.node.kept.offered ≡ true) }
    ensures quiet { OnOk result ((j : ℕ) → j < seat.new.words.node.quorums.nodes
        → IsQuiet j seat.new.words) }
    ensures proposed { OnOk result (would seat.new.words asked.Propose ≡ None) }
    ensures led { OnOk result (LeadsByLot (pcg32 draws.old).0 seat.old.words seat.new.words) }
    ensures by_lot { DrawsToLead draws.old draws.new seat.old.words seat.new.words }
    ensures drawn { OnOk result (HasDrawn draws.old draws.new seat.old.words seat.new.words) }
    ensures left { IfErr result (HaltsBefore B.Out.Language P.Out.Language P.Pass room seat.new) }
    ensures journal { LogsTurn D.Disk B.Out.Language P.Out.Language P.Pass
        log.old log.new room seat.old seat.new result }
    ensures cause { MayHaltFor D.Disk (IsTooLargeFrom P.too_large before.now)
        log.old log.new room seat.new.words result }
{
    let input = learned_output(before);
    play(alloc, log, seat, room, input, oracle, draws)
}
