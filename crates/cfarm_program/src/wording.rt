//! The text of what `clap` answers.

use std::alloc::{AllocError, Global};

/// What a user is shown of an answer of `clap`: help, the version, or what is wrong with the words.
pub trait Wording {
    ghost use Rattle.std.specs.Prelude.{ℕ, List, IfOk};
    ghost use Rattle.std.specs.String.{string_bytes};
    ghost use Rattle.clap.specs.declared.error.Error.{Error};

    /// The texts that may be shown of an answer.
    ghost may_show: { Self → Error → List ℕ → Type 0 } = { λ _ _ _. Unit {0} };

    /// The text of the answer.
    fn text_of(&self, alloc: Global, answer: &clap::Error) -> Result<String, AllocError>
        ensures { IfOk result (λ text. may_show self.now answer.now (string_bytes text)) };
}

/// What `clap` says of the option by which compilers are told where to put what they make: that it is unknown,
const UNKNOWN: &str = "error: unexpected argument '-o' found\n";

/// and, where a file may still be named, how to name it so.
const TIP: &str = "  tip: to pass '-o' as a value, use '-- -o'";

/// What is said in place of that.
const FOLDER: &str =
    "  tip: `build` puts what it makes into the folder of `--dir`, and `emit` writes to standard output";

/// The words of `clap` itself, of which nothing is known, but for `-o`.
#[derive(Clone, Copy, Debug)]
pub struct OwnWords;

/// The text with what helps at `-o`.
fn with_folder(alloc: Global, text: &str) -> Result<String, AllocError> {
    if let Some((front, behind)) = text.split_once(TIP) {
        return format!(in alloc; "{front}{FOLDER}{behind}");
    }
    match text.strip_prefix(UNKNOWN) {
        Some(behind) => format!(in alloc; "{UNKNOWN}\n{FOLDER}\n{behind}"),
        None => text.to_string(alloc),
    }
}

impl Wording for OwnWords {
    fn text_of(&self, alloc: Global, answer: &clap::Error) -> Result<String, AllocError> {
        let text = format!(in alloc; "{answer}")?;
        with_folder(alloc, text.as_str())
    }
}
