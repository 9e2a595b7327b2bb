ghost use Rattle.cfarm_build_crash.specs.Again.{LinksAgain, OpensAgain};

use alloc_check::Alloc;
use cfarm_build::Built;
use constprop_check::ConstProp;
use cse_check::Cse;
use durable_pair::Pair;
use farm_nodes_source::Source;
use farm_nodes_turn_node::NumberedSeat;
use linearize_check::Linearize;
use offers::one_text;
use paxos_core_world::quorum::Quorums;
use rooms_hall::Naming;

/// What a crash of all disks that a build gave back, those of its nodes, leaves on them is refused neither with 401 to 404, but for want of
/// memory or where a device fails, nor with 301 or 510: it opens, but for memory, a device, or a cell that refuses (511); it does nothing.
pub fn opens_again<D: Pair, H: Naming>(
    quorums: Quorums,
    source: &Source,
    given: &[D],
    back: &[D],
    built: &Built,
    left: &[D],
)
    ensures { OpensAgain D.Disk D.Pair.own H.Naming quorums source.now given.now back.now built.now left.now }
{
    let _count = quorums.nodes();
    one_text::<ConstProp>();
    one_text::<Cse>();
    one_text::<Alloc>();
    one_text::<Linearize>();
}

/// What a node links of a farm that opened over that, whatever it did since, is what was built; it does nothing.
pub fn links_again<D: Pair, H: Naming, L: Naming>(
    quorums: Quorums,
    source: &Source,
    given: &[D],
    back: &[D],
    built: &Built,
    left: &[D],
    later: &[NumberedSeat<L>],
)
    ensures { LinksAgain D.Disk D.Pair.own H.Naming quorums source.now given.now back.now built.now left.now later.now }
{
    let _count = quorums.nodes();
    one_text::<ConstProp>();
    one_text::<Cse>();
    one_text::<Alloc>();
    one_text::<Linearize>();
}
