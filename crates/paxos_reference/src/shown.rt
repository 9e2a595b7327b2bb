ghost use Rattle.std.specs.Prelude.{◌≡◌, ◌∷◌, ◌++◌, ◌<◌, ◌≤◌, IfOk, OnOk, OnErr, length};
ghost use Rattle.paxos_core_world.specs.World.{nodes_of, shown, shown_start, shown_vote};

use paxos_core_world::kept::Kept;
use paxos_core_world::msg::Msg;
use paxos_core_world::vote::Vote;
use std::alloc::{AllocError, Global};

/// The messages that the parts show to have been sent, the last node's first.
pub fn shown(alloc: Global, parts: &[Kept]) -> Result<Vec<Msg>, AllocError>
    requires { length parts.now ≤ 256 }
    ensures { IfOk result (λ sent. sent.items ≡ shown (length parts.now) (nodes_of parts.now)) }
{
    let mut sent = Vec::new(alloc);
    for node in 0..parts.len() {
        let part = parts[node];
        show_vote(&mut sent, node as u8, part.accepted())?;
        show_start(&mut sent, part.started())?;
    }
    Ok(sent)
}

fn show_start(sent: &mut Vec<Msg>, started: u16) -> Result<(), AllocError>
    ensures { OnOk result (sent.new.items ≡ shown_start started ++ sent.old.items) }
{
    if started != 0 {
        push_front(sent, Msg::Prepare(started))?;
    }
    Ok(())
}

fn show_vote(sent: &mut Vec<Msg>, node: u8, accepted: Option<Vote>) -> Result<(), AllocError>
    ensures { OnOk result (sent.new.items ≡ shown_vote node accepted ++ sent.old.items) }
{
    if let Some(vote) = accepted {
        push_front(sent, Msg::Accepted(node, vote.ballot, vote.value))?;
    }
    Ok(())
}

/// Puts the item before all others; the list is unchanged where memory is wanting.
pub fn push_front<T: Drop>(list: &mut Vec<T>, item: T) -> Result<(), AllocError>
    ensures ok { OnOk result (list.new.items ≡ item ∷ list.old.items) }
    ensures err { OnErr result (list.new.items ≡ list.old.items) }
{
    list.insert(0, item)?;
    Ok(())
}
