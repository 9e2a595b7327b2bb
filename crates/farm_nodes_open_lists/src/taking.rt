ghost use Rattle.std.specs.Prelude.{◌≡◌, ◌≢◌, ℕ, None, slice_set, IfOk, OnOk};
ghost use Rattle.rooms.specs.Opened.{offer_at};
ghost use Rattle.farm_nodes_open_lists.specs.Rows.{offers_of, rows_of, AreForOthers};

use lang_base::NoMemory;
use std::alloc::Global;

/// Takes the offer for a function out of a node's list, if it has one.
fn take_at<T: Drop>(offers: &mut Vec<Option<T>>, function: u16) -> Option<T>
    ensures offer { result ≡ offer_at offers.old.items function }
    ensures rest { offers.new.items ≡ slice_set offers.old.items function None }
{
    match offers.get_mut(usize::from(function)) {
        Some(slot) => slot.take(),
        None => None,
    }
}

/// Takes the offers for a function out of the nodes' lists; those for others stay.
pub fn take_each<T: Drop>(
    alloc: Global,
    lists: &mut Vec<Vec<Option<T>>>,
    function: u16,
) -> Result<Vec<Option<T>>, NoMemory>
    ensures offers { IfOk result (λ found. found.items ≡ offers_of (rows_of lists.old.items) function) }
    ensures others { OnOk result (AreForOthers function (rows_of lists.old.items) (rows_of lists.new.items)) }
{
    let mut offers = Vec::new(alloc);
    for list in lists.iter_mut() {
        let offer = take_at(list, function);
        match offers.push(offer) {
            Ok(()) => {}
            Err(_) => return Err(NoMemory),
        }
    }
    Ok(offers)
}
