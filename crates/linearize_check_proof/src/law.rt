//! What a layout is worth, as the contract of a call that does nothing else.

ghost use Rattle.linearize_check_proof.specs.Theorem.{LaidOutKeeps};

/// A program keeps the meaning of one of LTL where each of its functions is laid out from the
/// function of the same number by some order, under the same name and beside the same globals.
pub fn laid_out_keeps()
    ensures { LaidOutKeeps }
{}
