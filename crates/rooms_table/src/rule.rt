use crate::view::{Openings, Views};
use atomic_table::{Join, Split, TableRule};

/// The rule of a table's words.
pub struct TableLaw;

impl TableRule<(), Views, Openings> for TableLaw {
    ghost use Rattle.rooms_table.specs.Deal.{dealing_all};
    ghost use Rattle.rooms_table.specs.Family.{FamilyRule};

    ghost holds = { λ o s. FamilyRule o s };

    ghost first = { dealing_all };
}

/// The first room that a token has rights in is cut off it.
pub struct DealsRoom;

impl Split<Views> for DealsRoom {
    ghost use Rattle.rooms_table.specs.Deal.{first_room, other_rooms};

    ghost left = { other_rooms };

    ghost right = { first_room };
}

/// The seat of the first node that a token has rights for is cut off it.
pub struct DealsNode;

impl Split<Views> for DealsNode {
    ghost use Rattle.rooms_table.specs.Deal.{first_node, other_nodes};

    ghost left = { other_nodes };

    ghost right = { first_node };
}

/// A seat makes a witness of what it has seen, and another seat takes that in.
pub struct Tells;

impl Split<Views> for Tells {
    ghost use Rattle.rooms_table.specs.Deal.{witnesses};

    ghost left = { λ v. v };

    ghost right = { witnesses };
}

impl Join<Views> for Tells {
    ghost use Rattle.rooms_table.specs.Deal.{all_informed, nowhere};

    ghost both = { all_informed };

    ghost spent = { nowhere };
}
