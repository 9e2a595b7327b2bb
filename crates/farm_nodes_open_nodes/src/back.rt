ghost use Rattle.std.specs.Prelude.{◌≡◌, ◌≤◌, ◌+◌, ◌++◌, length, map, option_to_list, vec_capacity};
ghost use Rattle.farm_nodes_open_nodes.specs.Back.{HasCapacityForAll, with_all_of};

use acceptor_log::Log;
use acceptor_log_form::Record;
use durable_model::Disk;
use durable_pair::Pair;
use farm_nodes_open_journals::RefusedPair;

/// The disks of journals, in their order, put behind those that are there; they fit there.
pub(crate) fn with_disks<D: Disk + Drop>(
    back: Vec<D>,
    journals: Vec<(Log<D>, Vec<Record>)>,
) -> Vec<D>
    requires { length back.items + length journals.items ≤ vec_capacity back }
    ensures disks { result.items ≡ back.items ++ map (λ j. j.0.disk) journals.items }
    ensures capacity { vec_capacity back ≤ vec_capacity result }
{
    let mut back = back;
    for journal in journals {
        let (log, _records) = journal;
        match back.push(log.into_disk()) {
            Ok(()) => {}
            Err(_) => unreachable!(),
        }
    }
    back
}

/// All pairs, of which one is refused.
pub(crate) fn with_refused<P: Pair + Drop>(back: Vec<P>, refused: RefusedPair<P>) -> Vec<P>
    requires { HasCapacityForAll back refused }
    ensures { result.items ≡ with_all_of back.items refused }
{
    let RefusedPair {
        opened,
        pair,
        behind,
        ..
    } = refused;
    let mut back = with_one(with_disks(back, opened), pair);
    for pair in behind {
        match back.push(pair) {
            Ok(()) => {}
            Err(_) => unreachable!(),
        }
    }
    back
}

/// One more put behind those that are there, where there is one; it fits there.
fn with_one<P: Drop>(back: Vec<P>, pair: Option<P>) -> Vec<P>
    requires { length back.items + length (option_to_list pair) ≤ vec_capacity back }
    ensures items { result.items ≡ back.items ++ option_to_list pair }
    ensures capacity { vec_capacity back ≤ vec_capacity result }
{
    let mut back = back;
    let Some(pair) = pair else {
        return back;
    };
    match back.push(pair) {
        Ok(()) => {}
        Err(_) => unreachable!(),
    }
    back
}
