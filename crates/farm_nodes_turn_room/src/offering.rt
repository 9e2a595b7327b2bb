ghost use Rattle.std.specs.Prelude.{◌≡◌, true, IfOk, IfErr, OnOk, IsSome, option_copied};
ghost use Rattle.acceptor_log.specs.Acknowledged.{IsSound};
ghost use Rattle.farm_nodes_turn_offer.specs.Served.{IsServed};
ghost use Rattle.farm_nodes_turn_leading.specs.Leading.{OffersNone};
ghost use Rattle.farm_nodes_turn_room.specs.Logged.{HaltsBefore, HaltsOver, LogsSteps};
ghost use Rattle.farm_nodes_turn_room.specs.Played.{HeldOffer, IsMadeOn};

use crate::choosing::choose;
use acceptor_log::Log;
use durable_model::Disk;
use farm_nodes_turn_offer::{Halt, Seat, make_offer};
use lang_base::{Language, Oracle, Pass};
use rand_pcg::Pcg32;
use std::alloc::Global;

/// Makes the node's offer where it has made none in the room and knows the input. Answers whether it did.
pub fn offer_on<D: Disk, P: Pass, O: Oracle<P = P>>(
    alloc: Global,
    log: &mut Log<D>,
    seat: &mut Seat<P>,
    room: u16,
    input: Option<&<P::In as Language>::Fun>,
    oracle: &mut O,
    draws: &mut Pcg32,
) -> Result<bool, Halt>
    requires { IsSound D.Disk log.old }
    ensures served { IsServed D.Disk log.old log.new }
    ensures going { IfOk result (λ moved. log.new.going ≡ log.old.going) }
    ensures seat { HeldOffer seat.old seat.new }

    // Words are drawn for an offer alone.
    ensures words { seat.old.words.node.kept.offered ≡ true → draws.new ≡ draws.old }
    ensures drawn { OnOk result (OffersNone seat.old.words seat.new.words → draws.new ≡ draws.old) }

    // The offer has the input, and it is made wherever there is one.
    ensures made { IsMadeOn (option_copied input.entry) seat.old seat.new }
    ensures offered { OnOk result (IsSome input.entry → seat.new.words.node.kept.offered ≡ true) }

    // Where it halts over its offer, the record is of that, which is not made yet.
    ensures left { IfErr result (HaltsBefore P.In.Language P.Out.Language P.Pass room seat.new) }

    ensures journal { LogsSteps D.Disk P.In.Language P.Out.Language P.Pass
        log.old log.new room seat.old seat.new result }
    ensures cause { HaltsOver D.Disk P.too_large (option_copied input.entry)
        log.old log.new room seat.new.words result }
{
    if seat.kept().offered() {
        return Ok(false);
    }
    let Some(input) = input else {
        return Ok(false);
    };
    match choose(alloc, oracle, input, draws) {
        Ok(offer) => {
            offer.validated();
            make_offer(alloc, log, seat, room, offer)
        }
        Err(fault) => Err(Halt::idle(fault)),
    }
}
