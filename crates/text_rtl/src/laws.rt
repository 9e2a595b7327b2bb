//! The law of the texts, as the contract of a call that does nothing else.

ghost use Rattle.text_common.specs.Programs.{AreTold};
ghost use Rattle.rtl_language.specs.Function.{IsFunction};
ghost use Rattle.text_rtl.specs.Shown.{shown_rtl};

/// Programs of RTL with one text are one program.
pub fn one_program_shown()
    ensures { AreTold IsFunction shown_rtl }
{}
