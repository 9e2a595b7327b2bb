//! The offers that are chosen in the rooms of functions.

ghost use Rattle.std.specs.Prelude.{◌≡◌, ◌<◌, ◌≤◌, ◌↔◌, length, option_copied, IfOk, IsTrue};
ghost use Rattle.farm_nodes_open_seats.specs.Written.{last_offer_in};
ghost use Rattle.cfarm_fsck_linking.specs.Chained.{texts_of};
ghost use Rattle.cfarm_fsck_chosen.specs.Linking.{GoesOn, IsAnsweredFirst, chosen_text, chosen_texts, offer_after, offer_voted};

use crate::chosen::chosen_in;
use crate::parts::room_parts;
use acceptor_log_form::Record;
use cfarm_fsck_linking::{Texts, are_chained};
use lang_base::{Named, NoMemory};
use paxos_core_world::kept::Kept;
use paxos_core_world::vote::Vote;
use rtl_language::Function;
use std::alloc::Global;

/// The text of the offer in a room, once the record is put down.
fn offer_behind<'a>(before: Option<&'a [u8]>, entry: &'a Record, room: u16) -> Option<&'a [u8]>
    ensures { option_copied result ≡ offer_after room (option_copied before.entry) entry.now }
{
    match entry {
        Record::Offered(at, text) if *at == room => Some(text.as_slice()),
        _ => before,
    }
}

/// The text of the offer in a room, if there is one among a node's records.
fn offer_in(records: &[Record], room: u16) -> Option<&[u8]>
    ensures { option_copied result ≡ last_offer_in records.now room }
{
    let mut found = None;
    for number in 0..records.len() {
        found = offer_behind(found, &records[number], room);
    }
    found
}

/// The text of the offer that a vote in the room names.
fn offer_voted(journals: &[(usize, Vec<Record>)], room: u16, vote: Option<Vote>) -> Option<&[u8]>
    ensures { option_copied result ≡ offer_voted journals.now room vote }
{
    let Some(vote) = vote else {
        return None;
    };
    match journals.get(usize::from(vote.value)) {
        Some(journal) => offer_in(journal.1.as_slice(), room),
        None => None,
    }
}

/// The text of the offer that is chosen in a room, if there is one.
fn chosen_text<'a>(
    alloc: Global,
    accept: u8,
    journals: &'a [(usize, Vec<Record>)],
    kept: &[Vec<Kept>],
    room: u16,
) -> Result<Option<&'a [u8]>, NoMemory>
    ensures { IfOk result (λ found. option_copied found ≡ chosen_text accept journals.now kept.now room) }
{
    match room_parts(alloc, kept, room) {
        Ok(parts) => Ok(offer_voted(journals, room, chosen_in(accept, parts.as_slice()))),
        Err(NoMemory) => Err(NoMemory),
    }
}

/// Those of the four rooms of a function.
#[tactic(auto, using(crate::proofs::LinkingLemmas::four_texts))]
fn chosen_texts<'a>(
    alloc: Global,
    accept: u8,
    journals: &'a [(usize, Vec<Record>)],
    kept: &[Vec<Kept>],
    number: u16,
) -> Result<Texts<'a>, NoMemory>
    requires { number < 64 }
    ensures { IfOk result (λ texts. texts_of texts ≡ chosen_texts accept journals.now kept.now number) }
{
    Ok(Texts {
        first: chosen_text(alloc, accept, journals, kept, 4 * number)?,
        second: chosen_text(alloc, accept, journals, kept, 4 * number + 1)?,
        third: chosen_text(alloc, accept, journals, kept, 4 * number + 2)?,
        fourth: chosen_text(alloc, accept, journals, kept, 4 * number + 3)?,
    })
}

/// Whether the offers that are chosen of this function go on from it and one from the other.
#[tactic(auto, using(crate::proofs::LinkingLemmas::chain_of))]
fn goes_on(
    alloc: Global,
    accept: u8,
    journals: &[(usize, Vec<Record>)],
    kept: &[Vec<Kept>],
    number: u16,
    function: &Function,
) -> Result<bool, NoMemory>
    requires { number < 64 }
    ensures { IfOk result (λ yes. IsTrue yes ↔ GoesOn accept journals.now kept.now number function.now) }
{
    match chosen_texts(alloc, accept, journals, kept, number) {
        Ok(texts) => are_chained(alloc, function, texts),
        Err(NoMemory) => Err(NoMemory),
    }
}

/// The first function whose chosen offers do not go on so.
#[tactic(auto, using(crate::proofs::LinkingLemmas::none_go_on, crate::proofs::LinkingLemmas::more_go_on, crate::proofs::LinkingLemmas::first_unchained))]
pub fn unchained_in(
    alloc: Global,
    accept: u8,
    journals: &[(usize, Vec<Record>)],
    kept: &[Vec<Kept>],
    functions: &[Named<Function>],
) -> Result<Option<usize>, NoMemory>
    requires { length functions.now ≤ 64 }
    ensures { IfOk result (IsAnsweredFirst accept journals.now kept.now functions.now) }
{
    for number in 0..functions.len() {
        let function = &functions[number].function;
        match goes_on(alloc, accept, journals, kept, number as u16, function) {
            Ok(true) => {}
            Ok(false) => return Ok(Some(number)),
            Err(NoMemory) => return Err(NoMemory),
        }
    }
    Ok(None)
}
