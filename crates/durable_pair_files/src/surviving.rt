//! What a crash leaves of the files of a pair, as the contract of a call that does nothing else.

ghost use Rattle.durable_pair_files.specs.Surviving.{CountingPairsSurvive, PairsSurvive, SpentPairsSurvive};

/// A pair that is opened over the files of another one shows what a crash may have left of that, if the files were honest: after its last
/// call, or since any moment of it.
pub fn pair_survives()
    ensures at_rest { PairsSurvive }
    ensures spent { SpentPairsSurvive }
    ensures counts { CountingPairsSurvive }
{}
