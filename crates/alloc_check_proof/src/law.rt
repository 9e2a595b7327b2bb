//! What accepted outputs are worth, as the contracts of calls that do nothing else.

ghost use Rattle.alloc_check_proof.specs.Theorem.{RightKeep, AllocatedKeeps};

/// A program of LTL keeps the meaning of one of RTL where each of its functions stands for the function
/// of the same number with lists of equations that are right at each node, of any length and in any
/// order, under the same name and beside the same globals.
pub fn right_keep()
    ensures { RightKeep }
{}

/// A program of LTL keeps the meaning of one of RTL where each of its functions is accepted for the
/// function of the same number with some rows, under the same name and beside the same globals.
pub fn allocated_keeps()
    ensures { AllocatedKeeps }
{}
