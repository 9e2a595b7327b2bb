//! The lines that a user is shown.

use crate::error::BuildError;
use crate::names::{fault_name, journal_name, link_name};
use farm_nodes::{OpenFault, RoomFault};
use farm_nodes_turn_offer::Fault;
use std::fmt;

/// What is told of a node, by the number and the name of its fault: want of memory is told as such.
#[derive(Clone, Copy)]
struct NodeLine<'a> {
    number: u16,
    name: &'a str,
    node: usize,
}

impl fmt::Display for NodeLine<'_> {
    ghost use Rattle.std.specs.Prelude.{Some};
    ghost use Rattle.cfarm_build_faults.specs.Lines.{node_line};

    ghost output = { λ line. Some (node_line line.number line.name.now line.node) };

    fn fmt<W: fmt::Write>(&self, f: &mut fmt::Formatter<W>) -> fmt::Result {
        let number = self.number;
        let name = self.name;
        let node = self.node;
        match number {
            1 => write!(f, "memory"),
            _ => write!(f, "journal {number} {name} node {node}"),
        }
    }
}

/// Why the disks are refused.
#[derive(Clone, Copy)]
struct DisksLine(OpenFault);

impl fmt::Display for DisksLine {
    ghost use Rattle.std.specs.Prelude.{Some};
    ghost use Rattle.cfarm_build_faults.specs.Lines.{disks_line};

    ghost output = { λ line. Some (disks_line line.0) };

    fn fmt<W: fmt::Write>(&self, f: &mut fmt::Formatter<W>) -> fmt::Result {
        match self.0 {
            OpenFault::NoMemory => write!(f, "memory"),
            OpenFault::Journal(node, fault) => {
                let line = NodeLine {
                    number: fault.number(),
                    name: journal_name(fault),
                    node: usize::from(node),
                };
                write!(f, "{line}")
            }
            OpenFault::Refused(node) => write!(f, "journal 301 Refused node {node}"),
            OpenFault::Room(room, fault) => {
                let line = RoomLine(room, fault);
                write!(f, "{line}")
            }
        }
    }
}

/// Why a room is not opened.
#[derive(Clone, Copy)]
struct RoomLine(u16, RoomFault);

impl fmt::Display for RoomLine {
    ghost use Rattle.std.specs.Prelude.{Some};
    ghost use Rattle.cfarm_build_faults.specs.Lines.{room_line};

    ghost output = { λ line. Some (room_line line.0 line.1) };

    fn fmt<W: fmt::Write>(&self, f: &mut fmt::Formatter<W>) -> fmt::Result {
        let room = self.0;
        match self.1 {
            RoomFault::NoMemory | RoomFault::Spent => write!(f, "memory"),
            RoomFault::Unsettled => write!(f, "journal 510 Unsettled room {room}"),
            RoomFault::CellRefused => write!(f, "journal 511 CellRefused room {room}"),
        }
    }
}

/// What stopped a node.
#[derive(Clone, Copy)]
struct FailedLine(usize, Fault);

impl fmt::Display for FailedLine {
    ghost use Rattle.std.specs.Prelude.{Some};
    ghost use Rattle.cfarm_build_faults.specs.Lines.{failed_line};

    ghost output = { λ line. Some (failed_line line.0 line.1) };

    fn fmt<W: fmt::Write>(&self, f: &mut fmt::Formatter<W>) -> fmt::Result {
        let line = NodeLine {
            number: self.1.number(),
            name: fault_name(self.1),
            node: self.0,
        };
        write!(f, "{line}")
    }
}

impl fmt::Display for BuildError {
    ghost use Rattle.std.specs.Prelude.{Some};
    ghost use Rattle.cfarm_build_faults.specs.Lines.{build_line};

    ghost output = { λ fault. Some (build_line fault) };

    fn fmt<W: fmt::Write>(&self, f: &mut fmt::Formatter<W>) -> fmt::Result {
        match self {
            BuildError::NoMemory | BuildError::NoThread => write!(f, "memory"),
            BuildError::Source(fault) => write!(f, "{fault}"),
            BuildError::Disks(fault) => {
                let line = DisksLine(*fault);
                write!(f, "{line}")
            }
            BuildError::Failed(node, fault) => {
                let line = FailedLine(*node, *fault);
                write!(f, "{line}")
            }
            BuildError::Undecided => write!(f, "undecided"),
            BuildError::Unlinked(fault, function) => {
                let number = fault.number();
                let name = link_name(*fault);
                write!(f, "link {number} {name} in {function}")
            }
            BuildError::Names => write!(f, "link 603 Names"),
        }
    }
}

impl std::error::Error for BuildError {}
