ghost use Rattle.std.specs.Prelude.{◌≡◌, ◌<◌, ◌||◌, ℕ, true, None, Some, IfOk, IfErr, OnOk, IsSome, option_copied};
ghost use Rattle.rand_pcg.specs.Pcg.{pcg32};
ghost use Rattle.acceptor_log.specs.Acknowledged.{IsSound};
ghost use Rattle.rooms_seat_state.specs.declared.act.SeatAct.TheVariants as asked;
ghost use Rattle.rooms_seat_state.specs.Would.{would};
ghost use Rattle.farm_nodes_turn_offer.specs.SeatValue.{IsOneRoom};
ghost use Rattle.farm_nodes_turn_offer.specs.Served.{IsServed};
ghost use Rattle.farm_nodes_turn_offer.specs.Quiet.{IsQuiet};
ghost use Rattle.farm_nodes_turn_leading.specs.Leading.{DrawsToLead, HasDrawn, LeadsByLot};
ghost use Rattle.farm_nodes_turn_room.specs.Logged.{HaltsBefore, HaltsOver, LogsSteps, LogsTurn};
ghost use Rattle.farm_nodes_turn_room.specs.Played.{IsMadeOn, SeesOn, StaysInTurn};

use crate::offering::offer_on;
use crate::progress::Progress;
use acceptor_log::Log;
use durable_model::Disk;
use farm_nodes_turn_leading::take_part;
use farm_nodes_turn_offer::{Halt, Seat};
use lang_base::{Language, Oracle, Pass};
use rand_pcg::Pcg32;
use std::alloc::Global;

/// One turn in a room whose input is this, if the node knows it: it offers, hears every node, its own number too, leads,
/// and fetches the offer that it has learned.
pub fn play<D: Disk, P: Pass, O: Oracle<P = P>>(
    alloc: Global,
    log: &mut Log<D>,
    seat: &mut Seat<P>,
    room: u16,
    input: Option<&<P::In as Language>::Fun>,
    oracle: &mut O,
    draws: &mut Pcg32,
) -> Result<Progress, Halt>
    requires { IsSound D.Disk log.old }
    ensures served { IsServed D.Disk log.old log.new }
    ensures going { IfOk result (λ progress. log.new.going ≡ log.old.going) }
    ensures stays { StaysInTurn seat.old seat.new }

    // An offer that it makes has the input.
    ensures made { IsMadeOn (option_copied input.entry) seat.old seat.new }

    // What stands after it: it has offered if it knows the input; nothing is left to accept, to promise or to propose;
    // and where it had offered before, it has led if its generator's next word said so.
    ensures offered { OnOk result (IsSome input.entry → seat.new.words.node.kept.offered ≡ true) }
    ensures quiet { OnOk result ((j : ℕ) → j < seat.new.words.node.quorums.nodes → IsQuiet j seat.new.words) }
    ensures proposed { OnOk result (would seat.new.words asked.Propose ≡ None) }
    ensures led { OnOk result (LeadsByLot (pcg32 draws.old).0 seat.old.words seat.new.words) }

    // It starts no ballot without cause; and but for an offer it draws a word where it might start, else none.
    ensures by_lot { DrawsToLead draws.old draws.new seat.old.words seat.new.words }
    ensures drawn { OnOk result (HasDrawn draws.old draws.new seat.old.words seat.new.words) }

    // Where it halts it had not done what is pending: an act asked of a node of the room, or its offer.
    ensures left { IfErr result (HaltsBefore P.In.Language P.Out.Language P.Pass room seat.new) }

    // What it tells is what it learned, and whether the journal has more records.
    ensures journal { LogsTurn D.Disk P.In.Language P.Out.Language P.Pass
        log.old log.new room seat.old seat.new result }
    ensures cause { HaltsOver D.Disk P.too_large (option_copied input.entry)
        log.old log.new room seat.new.words result }
{
    let before = seat.learned();
    let moved = match take_steps(alloc, log, seat, room, input, oracle, draws) {
        Ok(moved) => moved,
        Err(halt) => return Err(halt),
    };
    fetch_learned(seat);
    Ok(Progress::of(before, seat.learned(), moved))
}

/// The turn's steps. Answers whether it took one.
fn take_steps<D: Disk, P: Pass, O: Oracle<P = P>>(
    alloc: Global,
    log: &mut Log<D>,
    seat: &mut Seat<P>,
    room: u16,
    input: Option<&<P::In as Language>::Fun>,
    oracle: &mut O,
    draws: &mut Pcg32,
) -> Result<bool, Halt>
    requires { IsSound D.Disk log.old }
    ensures served { IsServed D.Disk log.old log.new }
    ensures going { IfOk result (λ moved. log.new.going ≡ log.old.going) }
    ensures stays { StaysInTurn seat.old seat.new }
    ensures made { IsMadeOn (option_copied input.entry) seat.old seat.new }
    ensures offered { OnOk result (IsSome input.entry → seat.new.words.node.kept.offered ≡ true) }
    ensures quiet { OnOk result ((j : ℕ) → j < seat.new.words.node.quorums.nodes → IsQuiet j seat.new.words) }
    ensures proposed { OnOk result (would seat.new.words asked.Propose ≡ None) }
    ensures led { OnOk result (LeadsByLot (pcg32 draws.old).0 seat.old.words seat.new.words) }
    ensures by_lot { DrawsToLead draws.old draws.new seat.old.words seat.new.words }
    ensures drawn { OnOk result (HasDrawn draws.old draws.new seat.old.words seat.new.words) }
    ensures left { IfErr result (HaltsBefore P.In.Language P.Out.Language P.Pass room seat.new) }
    ensures journal { LogsSteps D.Disk P.In.Language P.Out.Language P.Pass
        log.old log.new room seat.old seat.new result }
    ensures cause { HaltsOver D.Disk P.too_large (option_copied input.entry)
        log.old log.new room seat.new.words result }
{
    let offered = match offer_on(alloc, log, seat, room, input, oracle, draws) {
        Ok(offered) => offered,
        Err(halt) => return Err(halt),
    };
    match take_part(log, &mut seat.words, room, draws) {
        Ok(moved) => Ok(either(offered, moved)),
        Err(stop) => Err(Halt::stopped(stop)),
    }
}

/// Reads the cell of the node whose offer was learned.
fn fetch_learned<P: Pass>(seat: &mut Seat<P>)
    ensures words { seat.new.words ≡ seat.old.words }
    ensures room { IsOneRoom seat.old seat.new }
    ensures seen { SeesOn seat.old seat.new }
{
    let Some(value) = seat.learned() else {
        return;
    };
    if value < seat.count() {
        seat.see(value);
    }
}

fn either(first: bool, second: bool) -> bool
    ensures { result ≡ (first || second) }
{
    first || second
}
