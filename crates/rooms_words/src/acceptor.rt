ghost use Rattle.std.specs.Prelude.{◌≡◌, ◌<◌, ◌≤◌, IfSome};
ghost use Rattle.rooms_words.specs.Words.{acceptor_word, accepted_in, promised_in, IsAcceptorWord, IsVoteInWord};

use paxos_core_world::vote::Vote;

/// The word of a node's acceptor.
///
/// Bits 0 to 15 are the ballot that it promised, bits 16 to 31 that of its vote, 0 for none, and bits 32 to 39 the
/// value of its vote; all higher bits are 0.
#[derive(Clone, Copy, Debug, PartialEq, Eq)]
pub struct AcceptorWord {
    pub promised: u16,
    pub accepted: Option<Vote>,
}

impl AcceptorWord {
    /// The number that stands for it.
    pub fn pack(self) -> u64
        requires { IfSome self.accepted IsVoteInWord }
        ensures value { result ≡ acceptor_word self.promised self.accepted }
        ensures word { IsAcceptorWord result self.promised self.accepted }
    {
        let vote = match self.accepted {
            Some(vote) => u64::from(vote.ballot) | u64::from(vote.value) << 16,
            None => 0,
        };
        u64::from(self.promised) | vote << 16
    }

    /// What the number stands for.
    pub fn unpack(word: u64) -> Self
        ensures promised { result.promised ≡ promised_in word }
        ensures accepted { result.accepted ≡ accepted_in word }
    {
        let ballot = (word >> 16 & 0xffff) as u16;
        let value = (word >> 32 & 0xff) as u16;
        AcceptorWord {
            promised: (word & 0xffff) as u16,
            accepted: if ballot == 0 {
                None
            } else {
                Some(Vote { ballot, value })
            },
        }
    }
}
