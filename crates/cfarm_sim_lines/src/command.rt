use std::fmt;

/// A line of a schedule behind the first: what a node is asked to do.
#[derive(Clone, Copy, Debug, PartialEq, Eq)]
pub enum Command {
    Offer(u8),
    Start(u8),
    Propose(u8),
    Restart(u8),
    /// The node is handed the message with this number: messages are counted from 1, in the order of sending.
    Deliver(u8, u64),
}

impl fmt::Display for Command {
    ghost use Rattle.std.specs.Prelude.{Some};
    ghost use Rattle.cfarm_sim_lines.specs.Commands.{line_of};

    ghost output = { λ c. Some (line_of c) };

    fn fmt<W: fmt::Write>(&self, f: &mut fmt::Formatter<W>) -> fmt::Result {
        match self {
            Command::Offer(node) => write!(f, "offer {node}"),
            Command::Start(node) => write!(f, "start {node}"),
            Command::Propose(node) => write!(f, "propose {node}"),
            Command::Restart(node) => write!(f, "restart {node}"),
            Command::Deliver(node, message) => write!(f, "deliver {node} {message}"),
        }
    }
}
