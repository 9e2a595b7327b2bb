use crate::errors::NoMemory;
use crate::language::Language;
use crate::pass::Pass;
use rand_pcg::Pcg32;
use std::alloc::Global;

/// An optimiser that nobody trusts: it promises nothing of what it proposes.
pub trait Oracle {
    /// The pass that it proposes for.
    type P: Pass;

    /// An output and a certificate for the input, or none; `words` makes its choices. Where memory
    /// is wanting, words may have been drawn and the oracle may have changed.
    fn propose(
        &mut self,
        alloc: Global,
        input: &<<Self::P as Pass>::In as Language>::Fun,
        draws: &mut Pcg32,
    ) -> Result<
        Option<
            (
                <<Self::P as Pass>::Out as Language>::Fun,
                <Self::P as Pass>::Cert,
            ),
        >,
        NoMemory,
    >;
}
