//! What accepted outputs are worth, as the contract of a call that does nothing else.

ghost use Rattle.lang_base.specs.Keeps.{Keeps};
ghost use Rattle.lang_base.specs.declared.program.Program.{Program};
ghost use Rattle.lang_base.specs.Soundness.{AllFit, Accepted};
ghost use Rattle.rtl_passes_filled.specs.Function.{FunctionData, IsFunction};
ghost use Rattle.rtl_passes_filled.specs.Meaning.{run};
ghost use Rattle.rtl_passes_filled.specs.Rules.{AreRight};
ghost use Rattle.cse_check_rules.specs.Rules.{elimination, IsEliminated};

/// A program of RTL keeps the meaning of another where the functions of one number have one shape, one name and beside
/// them the same globals, and at each node of the first stand equations, in a list of any length and order, that speak of
/// registers which are there and are right. Rows that are accepted beside functions in range are filled to such lists.
pub fn eliminated_keeps()
    ensures lists { (p q : Program FunctionData) → Accepted (AreRight elimination) p q → Keeps (run p) (run q) }
    ensures rows { (p q : Program FunctionData) → AllFit IsFunction p → Accepted IsEliminated p q → Keeps (run p) (run q) }
{}
