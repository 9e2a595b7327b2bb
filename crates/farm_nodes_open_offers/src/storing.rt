ghost use Rattle.std.specs.Prelude.{◌≡◌, ◌++◌, ◌∷◌, [], IfOk, OnOk, IfErr, option_map};
ghost use Rattle.offers.specs.Reading.{IsNoText};
ghost use Rattle.offers.specs.Text.{text_of, PartsFit};
ghost use Rattle.farm_nodes_open_offers.specs.Faults.{IsBadRecord};
ghost use Rattle.farm_nodes_open_offers.specs.Stored.{HasNoParts, IsStored};
ghost use Rattle.farm_nodes_open_offers.specs.Written.{written};

use crate::fault::RecordFault;
use acceptor_log_form::Record;
use farm_nodes_turn_passes::Which;
use lang_base::{FormError, NoMemory, Pass};
use offers::{Offer, PartsOf};
use std::alloc::Global;

/// Offers of one pass that were found among a node's records, in their order: the room of each, and the offer.
#[derive(Drop)]
pub struct Stored<T> {
    pub rooms: Vec<u16>,
    pub parts: Vec<T>,
}

/// Reads the offers of a pass among a node's records, whether the pass accepts them or not. The first whose bytes are no offer of the
/// pass is refused.
pub fn stored_offers<P: Pass>(
    alloc: Global,
    pass: Which,
    records: &[Record],
) -> Result<Stored<PartsOf<P>>, RecordFault>
    ensures stored { IfOk result (IsStored P.In.Language P.Out.Language P.Pass pass records.now) }
    ensures refused { IfErr result (IsBadRecord
        (HasNoParts P.In.Language P.Out.Language P.Pass pass records.now)) }
{
    let mut found = Stored {
        rooms: Vec::new(alloc),
        parts: Vec::new(alloc),
    };
    for entry in records {
        if let Some((room, text)) = written_offer(pass, entry) {
            match parts_of::<P>(alloc, text) {
                Ok(parts) => match add(&mut found, room, parts) {
                    Ok(()) => {}
                    Err(NoMemory) => return Err(RecordFault::NoMemory),
                },
                Err(fault) => return Err(fault),
            }
        }
    }
    Ok(found)
}

/// One offer more.
fn add<T: Drop>(found: &mut Stored<T>, room: u16, parts: T) -> Result<(), NoMemory>
    ensures rooms { OnOk result (found.new.rooms.items ≡ found.old.rooms.items ++ room ∷ []) }
    ensures parts { OnOk result (found.new.parts.items ≡ found.old.parts.items ++ parts ∷ []) }
{
    if found.rooms.push(room).is_err() {
        return Err(NoMemory);
    }
    match found.parts.push(parts) {
        Ok(()) => Ok(()),
        Err(_) => Err(NoMemory),
    }
}

/// The room and the bytes of an offer, if the record is one in a room of the pass.
fn written_offer(pass: Which, entry: &Record) -> Option<(u16, &[u8])>
    ensures { written pass entry.now ≡ option_map (λ found. (found.0, found.1.now)) result }
{
    match entry {
        Record::Offered(room, text) if *room % 4 == pass.place() => {
            Some((*room, text.as_slice()))
        }
        _ => None,
    }
}

/// The parts that the bytes spell.
fn parts_of<P: Pass>(alloc: Global, text: &[u8]) -> Result<PartsOf<P>, RecordFault>
    ensures fits { IfOk result (PartsFit P.In.fits P.Out.fits P.cert_fits) }
    ensures spelled { IfOk result (λ parts. text.now ≡ text_of P.In.Language P.Out.Language P.Pass parts) }
    ensures refused { IfErr result (IsBadRecord (IsNoText P.In.Language P.Out.Language P.Pass text.now)) }
{
    match Offer::<P>::parts(alloc, text) {
        Ok(parts) => Ok(parts),
        Err(FormError::NoMemory) => Err(RecordFault::NoMemory),
        Err(_) => Err(RecordFault::BadRecord),
    }
}
