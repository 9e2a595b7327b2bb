//! Words as numbers.

use paxos_core_world::vote::Vote;
use rooms_words::acceptor::AcceptorWord;
use rooms_words::proposer::ProposerWord;

/// Whether the acceptor's word is this number, which stands for it.
fn is_acceptor(word: AcceptorWord, packed: u64, number: u64) -> bool {
    packed == number && AcceptorWord::unpack(number) == word
}

/// Whether the proposer's word is this number, which stands for it.
fn is_proposer(word: ProposerWord, packed: u64, number: u64) -> bool {
    packed == number && ProposerWord::unpack(number) == word
}

fn are_these_acceptors() -> bool {
    let vote = Vote {
        ballot: 3,
        value: 0,
    };
    let word = AcceptorWord {
        promised: 4,
        accepted: Some(vote),
    };
    let fresh = AcceptorWord {
        promised: 0,
        accepted: None,
    };
    is_acceptor(word, word.pack(), 196_612) && is_acceptor(fresh, fresh.pack(), 0)
}

fn are_these_proposers() -> bool {
    let word = ProposerWord {
        started: 4,
        proposed: Some(0),
    };
    let fresh = ProposerWord {
        started: 0,
        proposed: None,
    };
    is_proposer(word, word.pack(), 65_540) && is_proposer(fresh, fresh.pack(), 0)
}

#[test]
fn words_are_these_numbers(rt: HostRuntime) {
    assert!(rt; are_these_acceptors() && are_these_proposers());
}
