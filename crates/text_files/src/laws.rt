//! The law of the texts of files, as the contract of a call that does nothing else.

ghost use Rattle.std.specs.Prelude.{◌≡◌, ℕ, List};
ghost use Rattle.text_files.specs.Files.{IsShownText};

/// Files with one text are one file, so what `diff` says of texts it says of programs.
pub fn one_file()
    ensures { (bytes others text : List ℕ) → IsShownText bytes text → IsShownText others text → bytes ≡ others }
{}
