//! The same of the pass that is asked for.

use crate::passes::{again_in, baseline_in, input_in, judged_in, name_in, proposed_in, refusal_in};
use alloc_check::Alloc;
use constprop_check::ConstProp;
use cse_check::Cse;
use lang_base::Fault;
use linearize_check::Linearize;
use oracle_alloc::AllocOracle;
use oracle_const::ConstOracle;
use oracle_cse::CseOracle;
use oracle_order::OrderOracle;
use std::alloc::Global;

/// Which pass.
#[derive(Clone, Copy)]
pub enum Kind {
    Constants,
    Subexpressions,
    Allocations,
    Linearized,
}

/// The number of the refusal of a written offer, or 0.
pub fn refusal(alloc: Global, kind: Kind, bytes: &[u8]) -> u16 {
    match kind {
        Kind::Constants => refusal_in::<ConstProp>(alloc, bytes),
        Kind::Subexpressions => refusal_in::<Cse>(alloc, bytes),
        Kind::Allocations => refusal_in::<Alloc>(alloc, bytes),
        Kind::Linearized => refusal_in::<Linearize>(alloc, bytes),
    }
}

/// Whether the offer that the bytes are is written as just these.
pub fn is_written_again(alloc: Global, kind: Kind, bytes: &[u8]) -> Option<bool> {
    match kind {
        Kind::Constants => again_in::<ConstProp>(alloc, bytes),
        Kind::Subexpressions => again_in::<Cse>(alloc, bytes),
        Kind::Allocations => again_in::<Alloc>(alloc, bytes),
        Kind::Linearized => again_in::<Linearize>(alloc, bytes),
    }
}

/// The name of a written offer.
pub fn name_of(alloc: Global, kind: Kind, bytes: &[u8]) -> Option<[u8; 32]> {
    match kind {
        Kind::Constants => name_in::<ConstProp>(alloc, bytes),
        Kind::Subexpressions => name_in::<Cse>(alloc, bytes),
        Kind::Allocations => name_in::<Alloc>(alloc, bytes),
        Kind::Linearized => name_in::<Linearize>(alloc, bytes),
    }
}

/// The bytes of a written offer's input, if these are an offer, accepted or not.
pub fn input_of(alloc: Global, kind: Kind, bytes: &[u8]) -> Option<Vec<u8>> {
    match kind {
        Kind::Constants => input_in::<ConstProp>(alloc, bytes),
        Kind::Subexpressions => input_in::<Cse>(alloc, bytes),
        Kind::Allocations => input_in::<Alloc>(alloc, bytes),
        Kind::Linearized => input_in::<Linearize>(alloc, bytes),
    }
}

/// What is wrong with a written offer, if anything is, and if the two calls that judge it agree; or the number of the fault in its bytes.
pub fn fault_of(alloc: Global, kind: Kind, bytes: &[u8]) -> Option<Result<Option<Fault>, u16>> {
    match kind {
        Kind::Constants => judged_in::<ConstOracle>(alloc, bytes),
        Kind::Subexpressions => judged_in::<CseOracle>(alloc, bytes),
        Kind::Allocations => judged_in::<AllocOracle>(alloc, bytes),
        Kind::Linearized => judged_in::<OrderOracle>(alloc, bytes),
    }
}

/// The written offer of the baseline of an input, or the number of its refusal.
pub fn baseline_of(alloc: Global, kind: Kind, input: &[u8]) -> Option<Result<Vec<u8>, u16>> {
    match kind {
        Kind::Constants => baseline_in::<ConstProp>(alloc, input),
        Kind::Subexpressions => baseline_in::<Cse>(alloc, input),
        Kind::Allocations => baseline_in::<Alloc>(alloc, input),
        Kind::Linearized => baseline_in::<Linearize>(alloc, input),
    }
}

/// The output that is proposed for an input with the words of a seed, if it is accepted.
pub fn proposed(alloc: Global, kind: Kind, input: &[u8], seed: u64) -> Option<Vec<u8>> {
    match kind {
        Kind::Constants => proposed_in(alloc, &mut ConstOracle, input, seed),
        Kind::Subexpressions => proposed_in(alloc, &mut CseOracle, input, seed),
        Kind::Allocations => proposed_in(alloc, &mut AllocOracle, input, seed),
        Kind::Linearized => proposed_in(alloc, &mut OrderOracle, input, seed),
    }
}
