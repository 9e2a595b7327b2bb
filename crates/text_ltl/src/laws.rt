//! The law of the texts, as the contract of a call that does nothing else.

ghost use Rattle.text_common.specs.Programs.{AreTold};
ghost use Rattle.ltl.specs.Function.{IsFunction};
ghost use Rattle.text_ltl.specs.Shown.{shown_ltl};

/// Programs of LTL with one text are one program.
pub fn one_program_shown()
    ensures { AreTold IsFunction shown_ltl }
{}
