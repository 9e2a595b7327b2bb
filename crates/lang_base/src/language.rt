ghost use Rattle.std.specs.Prelude.{◌≡◌, ◌≢◌, ◌≤◌, ℕ, List, ◌++◌, length, take, true, ◌↔◌, OnOk, OnErr, IfOk, IfErr};
ghost use Rattle.lang_base.specs.Behaviour.{Behaviour, IsRun};
ghost use Rattle.lang_base.specs.declared.program.Program.{Program};

use crate::errors::{FormError, NoMemory};
use std::alloc::Global;

/// A language of the pipeline: its functions, the one spelling of each, and what whole programs do.
pub trait Language {
    /// A function. A contract sees it as plain data, and `fits` holds of it.
    type Fun: Eq + Drop + Send + Sync;

    /// The first byte of a spelling.
    const TAG: u8;

    /// The first byte of a spelling.
    ghost TAG: { ℕ };

    /// What the type of functions keeps: each part is in its range, so it has a spelling.
    ghost fits: { Self.Fun → Type 0 };

    /// The bytes of a function.
    ghost spelling: { Self.Fun → List ℕ };

    /// What the run of a program shows at each bound.
    ghost run: { Program Self.Fun → Behaviour };

    /// Every function fits.
    fn known(function: &Self::Fun)
        ensures { fits function.now };

    /// An equal function.
    fn copy(alloc: Global, function: &Self::Fun) -> Result<Self::Fun, NoMemory>
        ensures { IfOk result (λ copied. copied ≡ function.now) };

    /// Writes the spelling at the end of `out`, which a refusal leaves as it was.
    fn write(function: &Self::Fun, out: &mut Vec<u8>) -> Result<(), NoMemory>
        ensures ok { OnOk result (out.new.items ≡ out.old.items ++ spelling function.now) }
        ensures err { OnErr result (out.new.items ≡ out.old.items) };

    /// Reads the function whose spelling is a front of the bytes, and says how long that front is.
    fn read(alloc: Global, bytes: &[u8]) -> Result<(Self::Fun, usize), FormError>
        ensures within { IfOk result (λ found. found.1 ≤ length bytes.now) }
        ensures fits { IfOk result (λ found. fits found.0) }
        ensures front { IfOk result (λ found. take found.1 bytes.now ≡ spelling found.0) }
        ensures refused { IfErr result (λ e. e ≢ FormError.NoMemory →
            (f : Self.Fun) (rest : List ℕ) → fits f → bytes.now ≡ spelling f ++ rest → ⊥) };

    /// No spelling is a beginning of another, and no two functions share one.
    ghost one_spelling: { (f g : Self.Fun) (x y : List ℕ) → fits f → fits g → spelling f ++ x ≡ spelling g ++ y → (f ≡ g) × (x ≡ y) };

    /// From one bound to the next the output only grows, and an end or a fault stays.
    ghost runs_on: { (p : Program Self.Fun) → IsRun (run p) };

    /// `==` says of two functions whether they are one.
    ghost eq_decides: { (f g : Self.Fun) → (Self.Fun.eq f g ≡ true) ↔ (f ≡ g) };
}
