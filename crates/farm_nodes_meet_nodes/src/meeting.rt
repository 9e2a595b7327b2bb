ghost use Rattle.std.specs.Prelude.{◌≡◌, ◌≤◌, length};
ghost use Rattle.farm_nodes_meet_nodes.specs.Meeting.{AreLeft, AreStrangers, IsOneStopped, MeetInAll, StaysButSeats, StaysSound, StaysWaiting};

use durable_model::Disk;
use farm_nodes_meet_seats::meet_all_seats;
use farm_nodes_turn_node::FarmNode;
use rooms_hall::Naming;

/// Two nodes meet, in all rooms of all functions. Answers how many functions both link, with all four offers seen: 0 for nodes of
/// two farms, and where one of the two is stopped, since then no word is loaded.
pub fn meet_nodes<D: Disk, O, H: Naming>(
    first: &mut FarmNode<D, O, H>,
    second: &mut FarmNode<D, O, H>,
) -> u16
    requires { length first.old.seats.items ≤ 65535 }

    // Where one of the two is stopped both are left as they were.
    ensures stopped { IsOneStopped first.old second.old → AreLeft first.old second.old first.new second.new result }
    ensures met { MeetInAll first.old second.old first.new second.new result }

    // Nodes of two farms link nothing: `are_strangers` tells such.
    ensures strangers { AreStrangers first.old second.old → result ≡ 0 }

    // Of a node nothing but its seats changes, and those stand for what its journal holds as they did.
    ensures first_stays { StaysButSeats first.old first.new }
    ensures second_stays { StaysButSeats second.old second.new }
    ensures first_sound { StaysSound D.Disk first.old first.new }
    ensures second_sound { StaysSound D.Disk second.old second.new }
    ensures first_waiting { StaysWaiting first.old first.new }
    ensures second_waiting { StaysWaiting second.old second.new }
{
    if first.halted.is_some() {
        return 0;
    }
    if second.halted.is_some() {
        return 0;
    }
    meet_all_seats(&mut first.seats, &mut second.seats)
}
