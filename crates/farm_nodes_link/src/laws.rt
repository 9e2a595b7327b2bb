//! What two nodes link, as the contract of a call that does nothing.

ghost use Rattle.c_checker_rules.specs.Checked.{program_tree};
ghost use Rattle.cminor_lowering.specs.Programs.{low};
ghost use Rattle.rtlgen_definition.specs.Gen.{gen};
ghost use Rattle.farm_nodes_link.specs.Alike.{CountedLinkOne, MeetingCounts};

use c_checker_rules::CProgram;
use farm_nodes_turn_node::FarmNode;
use rooms_hall::Naming;

/// Two nodes that met, all functions being counted, link one program, whatever they met since: neither is undecided, and where
/// `linked` answers a program of both it is the same.
pub fn one_program<D, O, H: Naming>(
    program: &CProgram,
    first: &FarmNode<D, O, H>,
    second: &FarmNode<D, O, H>,
)
    ensures now { MeetingCounts first.now.seats.items second.now.seats.items }
    ensures one { CountedLinkOne
        (gen (low (program_tree program.now))) first.now.seats.items second.now.seats.items }
{}
