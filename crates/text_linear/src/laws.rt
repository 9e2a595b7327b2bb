//! The law of the texts, as the contract of a call that does nothing else.

ghost use Rattle.text_common.specs.Programs.{AreTold};
ghost use Rattle.linear_language.specs.Function.{IsFunction};
ghost use Rattle.text_linear.specs.Shown.{shown_linear};

/// Programs of Linear with one text are one program.
pub fn one_program_shown()
    ensures { AreTold IsFunction shown_linear }
{}
