ghost use Rattle.std.specs.Prelude.{◌≤◌, IfSome, IsNone};
ghost use Rattle.rooms_meeting.specs.Met.{LookedAtAll, LookedBefore, LooksOnFrom};

use crate::seat::{WordSeat, note};

impl WordSeat {
    /// Loads every word of the room once.
    #[inline(always)]
    pub(crate) fn look_at_all(&mut self)
        ensures { LookedAtAll self.old self.new }
    {
        if let Some(first) = self.sweep() {
            self.look_from(first);
        }
    }

    /// Where all nodes' words are heard, loads them node by node until there is something new. Answers from which node on there
    /// is still to look, and none if it has looked at all.
    #[inline(always)]
    fn sweep(&mut self) -> Option<u8>
        ensures all { IsNone result → LookedAtAll self.old self.new }
        ensures from { IfSome result (λ first. LookedBefore first self.old self.new) }
    {
        let count = self.node.count();
        if self.heard < count {
            return Some(0);
        }
        let (j, found) = self.rights.sweep(&mut self.seen, count)?;
        note(&mut self.node, &mut self.seen[usize::from(j)], j, found);
        Some(j + 1)
    }

    /// Loads the words of the nodes from that one on.
    #[inline(never)]
    fn look_from(&mut self, first: u8)
        requires { first ≤ self.old.node.quorums.nodes }
        ensures { LooksOnFrom first self.old self.new }
    {
        for j in first..self.node.count() {
            let _proposer = self.look_proposer(j);
            let _acceptor = self.look_acceptor(j);
        }
    }
}
