//! The law of programs' spellings, as the contract of a call that does nothing else.

ghost use Rattle.std.specs.Prelude.{◌≡◌, ℕ, List, ◌++◌};
ghost use Rattle.lang_base.specs.declared.program.Program.{Program};
ghost use Rattle.lang.specs.Form.{IsProgram, program_text};

use lang_base::Language;

/// No program's text is a beginning of another's, and no two programs share one.
pub fn one_program<L: Language>()
    ensures { (p q : Program L.Fun) (x y : List ℕ) → IsProgram L.fits p → IsProgram L.fits q →
        program_text L.TAG L.spelling p ++ x ≡ program_text L.TAG L.spelling q ++ y → (p ≡ q) × (x ≡ y) }
{}
