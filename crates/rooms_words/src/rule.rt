use crate::view::View;
use atomic_table::Play;

/// A look at a proposer's word.
pub struct LooksAtProposer;

impl Play<(), View> for LooksAtProposer {
    ghost use Rattle.rooms_words.specs.Steps.{ProposerLook};

    ghost then = { λ s v n w. ProposerLook s v n w };
}

/// A look at an acceptor's word.
pub struct LooksAtAcceptor;

impl Play<(), View> for LooksAtAcceptor {
    ghost use Rattle.rooms_words.specs.Steps.{AcceptorLook};

    ghost then = { λ s v n w. AcceptorLook s v n w };
}

/// The store of a start.
pub struct Starts;

impl Play<(), View> for Starts {
    ghost use Rattle.rooms_words.specs.Steps.{StartStore};

    ghost then = { λ s v n w. StartStore s v n w };
}

/// The store of a proposal.
pub struct Proposes;

impl Play<(), View> for Proposes {
    ghost use Rattle.rooms_words.specs.Steps.{ProposeStore};

    ghost then = { λ s v n w. ProposeStore s v n w };
}

/// The store of a promise.
pub struct Promises;

impl Play<(), View> for Promises {
    ghost use Rattle.rooms_words.specs.Steps.{PromiseStore};

    ghost then = { λ s v n w. PromiseStore s v n w };
}

/// The store of a vote.
pub struct Accepts;

impl Play<(), View> for Accepts {
    ghost use Rattle.rooms_words.specs.Steps.{AcceptStore};

    ghost then = { λ s v n w. AcceptStore s v n w };
}

/// A look at an own word, with which the node forgets.
pub struct Forgets;

impl Play<(), View> for Forgets {
    ghost use Rattle.rooms_words.specs.Steps.{ForgetLook};

    ghost then = { λ s v n w. ForgetLook s v n w };
}
