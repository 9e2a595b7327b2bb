ghost use Rattle.std.specs.Prelude.{◌≡◌, ◌⊎◌, true, false, IfOk, IfErr, OnOk, OnErr};
ghost use Rattle.std.specs.Arc.{arc_value};
ghost use Rattle.offers.specs.Text.{text_of};
ghost use Rattle.acceptor_log_form.specs.declared.record.Record.TheVariants as entry;
ghost use Rattle.acceptor_log.specs.Acknowledged.{IsSound, WhileGoing};
ghost use Rattle.farm_nodes_turn_step.specs.Served.{IsServed};
ghost use Rattle.rooms.specs.SeatValue.{IsOneRoom};
ghost use Rattle.farm_nodes_turn_offer.specs.Halted.{HaltsFor, IsPutDown};
ghost use Rattle.farm_nodes_turn_offer.specs.Making.{MayPend, TellsOffer};
ghost use Rattle.farm_nodes_turn_offer.specs.Offered.{PutsOffer};

use crate::halt::{Fault, Halt};
use acceptor_log::Log;
use acceptor_log_form::Record;
use durable_model::Disk;
use lang_base::{NoMemory, Pass, Row};
use offers::Offer;
use rooms::Seat;
use rooms_cells::Put;
use std::alloc::Global;
use std::sync::Arc;

/// Makes the node's offer: puts down its record, and then lays it into the node's cell. Where the node halts over it,
/// what is pending has the offer's bytes.
pub fn make_offer<D: Disk, P: Pass>(
    alloc: Global,
    log: &mut Log<D>,
    seat: &mut Seat<P>,
    room: u16,
    offer: Offer<P>,
) -> Result<bool, Halt>
    requires sound { IsSound D.Disk log.old }
    requires first { seat.old.words.node.kept.offered ≡ false }
    ensures served { IsServed D.Disk log.old log.new }
    ensures going { IfOk result (λ moved. log.new.going ≡ log.old.going) }
    ensures ok { OnOk result (PutsOffer offer seat.old seat.new) }
    ensures room { IsOneRoom seat.old seat.new }

    // It has not offered where the record may be missing, nor where its cell refuses the offer behind the record.
    ensures err { OnErr result (seat.new ≡ seat.old) }
    ensures pending { IfErr result
        (λ halt. MayPend P.In.Language P.Out.Language P.Pass room offer halt.pending) }
    ensures refused { WhileGoing D.Disk log.old
        (IfErr result (IsPutDown D.seen log.old log.new room seat.new.words)) }

    // Where it is made, its record has its text.
    ensures journal { TellsOffer P.In.Language P.Out.Language P.Pass D.Disk
        log.old log.new room seat.old seat.new result }
    ensures cause { log.old.going ≡ true → IfErr result (HaltsFor D.Disk ⊥ log.old log.new room seat.new.words) }
{
    offer.validated();
    let (entry, shared) = match prepared(alloc, room, offer) {
        Ok(made) => made,
        Err(_) => return Err(Halt::idle(Fault::NoMemory)),
    };
    match log.append(&entry) {
        Ok(()) => match lay(alloc, seat, shared) {
            Ok(()) => Ok(true),
            Err(fault) => Err(Halt::offering(fault, entry)),
        },
        Err(error) => Err(Halt::offering(Fault::of(error), entry)),
    }
}

/// The record of an offer, and the offer where all seats of the room can read it.
fn prepared<P: Pass>(
    alloc: Global,
    room: u16,
    offer: Offer<P>,
) -> Result<(Record, Arc<Offer<P>>), NoMemory>
    ensures entry { IfOk result (λ made.
        made.0 ≡ entry.Offered room (text_of P.In.Language P.Out.Language P.Pass offer)) }
    ensures shared { IfOk result (λ made. arc_value made.1 ≡ offer) }
{
    let mut text = Vec::new(alloc);
    offer.write(&mut text)?;
    let Ok(shared) = Arc::new(alloc, offer) else {
        return Err(NoMemory);
    };
    Ok((Record::Offered(room, Row::from_vec(text)), shared))
}

/// Lays an offer into the node's cell.
fn lay<P: Pass>(alloc: Global, seat: &mut Seat<P>, offer: Arc<Offer<P>>) -> Result<(), Fault>
    requires { seat.old.words.node.kept.offered ≡ false }
    ensures ok { OnOk result (PutsOffer (arc_value offer) seat.old seat.new) }
    ensures err { OnErr result (seat.new ≡ seat.old) }
    ensures faults { IfErr result (λ fault. (fault ≡ Fault.CellRefused) ⊎ (fault ≡ Fault.NoMemory)) }
    ensures room { IsOneRoom seat.old seat.new }
{
    match seat.offer(alloc, offer) {
        Put::Yes => Ok(()),
        Put::No(_back) => Err(Fault::CellRefused),
        Put::NoMemory(_back) => Err(Fault::NoMemory),
    }
}
