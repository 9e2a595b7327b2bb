//! What a node keeps between its turns.

use lang_base::Oracle;
use rand_pcg::Pcg32;
use rooms_words::acceptor::AcceptorWord;
use rooms_words::proposer::ProposerWord;

/// What a node has for its turns beside its seat. No contract speaks of it: it decides what is proposed, and when.
#[derive(Drop)]
pub(crate) struct Player<O: Oracle + Drop> {
    pub oracle: O,
    pub draws: Pcg32,
    pub seen: Seen,
}

impl<O: Oracle + Drop> Player<O> {
    /// Node `me`, which has taken no turn.
    pub(crate) fn new(oracle: O, me: u8) -> Self {
        Player {
            oracle,
            draws: Pcg32::new(1, u64::from(me)),
            seen: Seen::new(),
        }
    }
}

/// What a node saw last of each node's two words.
#[derive(Drop)]
pub(crate) struct Seen {
    words: [(ProposerWord, AcceptorWord); 7],
}

impl Seen {
    /// Fresh words.
    fn new() -> Seen {
        let proposer = ProposerWord {
            started: 0,
            proposed: None,
        };
        let acceptor = AcceptorWord {
            promised: 0,
            accepted: None,
        };
        Seen {
            words: [(proposer, acceptor); 7],
        }
    }

    /// Notes what was seen of node `j`, and answers whether it is new.
    pub(crate) fn note(&mut self, j: u8, proposer: ProposerWord, acceptor: AcceptorWord) -> bool {
        let Some(last) = self.words.get_mut(usize::from(j)) else {
            return false;
        };
        let is_new = last.0 != proposer || last.1 != acceptor;
        *last = (proposer, acceptor);
        is_new
    }
}
