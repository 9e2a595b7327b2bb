ghost use Rattle.std.specs.Prelude.{◌≡◌, ◌≢◌, ◌≤◌, ℕ, List, ◌++◌, length, take, IsTrue, ◌↔◌, OnOk, OnErr, IfOk, IfErr};
ghost use Rattle.lang_base.specs.Keeps.{Keeps};
ghost use Rattle.lang_base.specs.declared.program.Program.{Program};
ghost use Rattle.lang_base.specs.Soundness.{AllFit, Accepted};

use crate::errors::{FormError, NoMemory, PassError};
use crate::language::Language;
use std::alloc::Global;

/// A validated pass: anybody may propose an output and a certificate for an input, and `check`
/// decides. What is accepted keeps the meaning of whole programs.
pub trait Pass {
    /// The language that the pass goes from.
    type In: Language;

    /// The language that it goes to.
    type Out: Language;

    /// What shows a proposer's output to be right. A contract sees it as plain data.
    type Cert: Drop + Send + Sync;

    /// The number of the pass, from 1 to 4: the first byte of a written offer.
    const NUMBER: u8;

    /// The number of the pass.
    ghost NUMBER: { ℕ };

    /// The rules of the pass, for an input, an output and a certificate.
    ghost accepts: { Self.In.Fun → Self.Out.Fun → Self.Cert → Type 0 };

    /// The certificates that have a spelling beside this input and output.
    ghost cert_fits: { Self.In.Fun → Self.Out.Fun → Self.Cert → Type 0 };

    /// The bytes of a certificate beside this input and output.
    ghost cert_spelling: { Self.In.Fun → Self.Out.Fun → Self.Cert → List ℕ };

    /// The inputs that have no baseline: too many registers.
    ghost too_large: { Self.In.Fun → Type 0 };

    /// Whether the rules hold.
    fn check(
        alloc: Global,
        input: &<Self::In as Language>::Fun,
        output: &<Self::Out as Language>::Fun,
        cert: &Self::Cert,
    ) -> Result<bool, NoMemory>
        ensures { IfOk result (λ yes. IsTrue yes ↔ accepts input.now output.now cert.now) };

    /// An output that is accepted, made with no choice.
    fn baseline(
        alloc: Global,
        input: &<Self::In as Language>::Fun,
    ) -> Result<(<Self::Out as Language>::Fun, Self::Cert), PassError>
        ensures accepted { IfOk result (λ made. accepts input.now made.0 made.1) }
        ensures refused { IfErr result (λ e. e ≢ PassError.NoMemory → too_large input.now) };

    /// Writes the certificate at the end of `out`, which a refusal leaves as it was.
    fn write_cert(
        input: &<Self::In as Language>::Fun,
        output: &<Self::Out as Language>::Fun,
        cert: &Self::Cert,
        out: &mut Vec<u8>,
    ) -> Result<(), NoMemory>
        requires { cert_fits input.now output.now cert.now }
        ensures ok { OnOk result (out.new.items ≡ out.old.items ++ cert_spelling input.now output.now cert.now) }
        ensures err { OnErr result (out.new.items ≡ out.old.items) };

    /// Reads the certificate whose spelling is a front of the bytes, and says how long that front is.
    fn read_cert(
        alloc: Global,
        input: &<Self::In as Language>::Fun,
        output: &<Self::Out as Language>::Fun,
        bytes: &[u8],
    ) -> Result<(Self::Cert, usize), FormError>
        ensures within { IfOk result (λ found. found.1 ≤ length bytes.now) }
        ensures fits { IfOk result (λ found. cert_fits input.now output.now found.0) }
        ensures front { IfOk result (λ found. take found.1 bytes.now ≡ cert_spelling input.now output.now found.0) }
        ensures refused { IfErr result (λ e. e ≢ FormError.NoMemory →
            (c : Self.Cert) (rest : List ℕ) → cert_fits input.now output.now c → bytes.now ≡ cert_spelling input.now output.now c ++ rest → ⊥) };

    /// What is accepted keeps the meaning of whole programs.
    ghost sound: { (p : Program Self.In.Fun) (q : Program Self.Out.Fun) → AllFit Self.In.fits p → AllFit Self.Out.fits q → Accepted accepts p q → Keeps (Self.In.run p) (Self.Out.run q) };

    /// A certificate that is accepted has a spelling.
    ghost accepted_fits: { (i : Self.In.Fun) (o : Self.Out.Fun) (c : Self.Cert) → Self.In.fits i → Self.Out.fits o → accepts i o c → cert_fits i o c };

    /// Beside one input and output no certificate's spelling is a beginning of another's, and no two share one.
    ghost one_cert: { (i : Self.In.Fun) (o : Self.Out.Fun) (c d : Self.Cert) (x y : List ℕ) → cert_fits i o c → cert_fits i o d → cert_spelling i o c ++ x ≡ cert_spelling i o d ++ y → (c ≡ d) × (x ≡ y) };
}
