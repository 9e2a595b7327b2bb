ghost use Rattle.std.specs.Prelude.{◌≡◌, ◌≤◌, ◌<◌, SomeIff};
ghost use Rattle.paxos_core_late_offers.specs.NextBallot.{if_ballot, least_above};

/// The least ballot above `floor` that node `me` of `count` owns, if there is one.
pub fn next_ballot(me: u8, count: u8, floor: u16) -> Option<u16>
    requires { me < count }
    ensures is { result ≡ if_ballot (least_above me count floor) }
    ensures value { SomeIff result (least_above me count floor ≤ 65535) (least_above me count floor) }
{
    let count = u32::from(count);
    let first = u32::from(floor) + 1;
    let ahead = (u32::from(me) + count - first % count) % count;
    u16::try_from(first + ahead).ok()
}
