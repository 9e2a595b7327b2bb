//! The law of the texts, as the contract of a call that does nothing else.

ghost use Rattle.text_common.specs.Programs.{AreTold};
ghost use Rattle.cminor_syntax.specs.Fits.{IsFunction};
ghost use Rattle.text_cminor.specs.Shown.{shown_cminor};

/// Programs of Cminor with one text are one program.
pub fn one_program_shown()
    ensures { AreTold IsFunction shown_cminor }
{}
