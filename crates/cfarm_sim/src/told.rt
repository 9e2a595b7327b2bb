use paxos_core_world::msg::Msg;
use std::fmt;

/// What is printed of one call of a node.
#[derive(Clone, Copy, Debug, PartialEq, Eq)]
pub enum Told {
    Offered,
    Restarted,
    /// Nothing was sent, and nothing is learned first.
    Nothing,
    /// None of the node's own ballots is left.
    Refused,
    /// The node learned this value, which it had not learned before.
    Learned(u8),
    /// The node sent this message, which has this number.
    Sent(u64, u8, Msg),
}

impl fmt::Display for Told {
    ghost use Rattle.std.specs.Prelude.{Some};
    ghost use Rattle.cfarm_sim.specs.Told.{told_text};

    ghost output = { λ t. Some (told_text t) };

    fn fmt<W: fmt::Write>(&self, f: &mut fmt::Formatter<W>) -> fmt::Result {
        match self {
            Told::Offered => write!(f, "offered\n"),
            Told::Restarted => write!(f, "restarted\n"),
            Told::Nothing => write!(f, "none\n"),
            Told::Refused => write!(f, "refused 501\n"),
            Told::Learned(value) => write!(f, "learned {value}\n"),
            Told::Sent(number, node, message) => match message {
                Msg::Prepare(ballot) => write!(f, "#{number} prepare {ballot} from {node}\n"),
                Msg::Promise(_, ballot, None) => {
                    write!(f, "#{number} promise {ballot} from {node} none\n")
                }
                Msg::Promise(_, ballot, Some(vote)) => {
                    let (accepted, value) = (vote.ballot, vote.value);
                    write!(
                        f,
                        "#{number} promise {ballot} from {node} {accepted}:{value}\n"
                    )
                }
                Msg::Propose(ballot, value) => {
                    write!(f, "#{number} propose {ballot} {value} from {node}\n")
                }
                Msg::Accepted(_, ballot, value) => {
                    write!(f, "#{number} accepted {ballot} {value} from {node}\n")
                }
            },
        }
    }
}
