use crate::base::baseline;
use crate::lists::EquationLists;
use crate::verdict::check;
use lang_base::{FormError, NoMemory, Pass, PassError};
use rtl_passes_facts::{Function, Rtl, read_certificate, write_certificate};
use std::alloc::Global;

/// Pass 2: what a register holds already is not computed or loaded again.
pub struct Cse;

impl Pass for Cse {
    ghost use Rattle.std.specs.Prelude.{◌≡◌, ◌≢◌, ◌≤◌, ℕ, List, ◌++◌, length, take, IsTrue, ◌↔◌, OnOk, OnErr, IfOk, IfErr};
    ghost use Rattle.rtl_passes_facts.specs.RowForm.{rows_text};
    ghost use Rattle.rtl_passes_facts.specs.Certificates.{CertFits};
    ghost use Rattle.cse_check_rules.specs.Order.{equation_text};
    ghost use Rattle.cse_check_rules.specs.Rules.{elimination, IsEliminated};
    ghost use Rattle.cse_check.specs.Baseline.{IsBaseline};
    ghost use Rattle.cse_check.specs.PassLaws.{eliminated_fits, one_cert, sound_law, never};

    type In = Rtl;

    type Out = Rtl;

    type Cert = EquationLists;

    const NUMBER: u8 = 18;

    ghost NUMBER = { 18 };

    ghost accepts = { IsEliminated };

    ghost cert_fits = { λ i o c. CertFits elimination i c };

    ghost cert_spelling = { λ i o c. rows_text equation_text c };

    ghost too_large = { never };

    fn check(
        alloc: Global,
        input: &Function,
        output: &Function,
        equations: &EquationLists,
    ) -> Result<bool, NoMemory> {
        check(alloc, input, output, equations)
    }

    fn baseline(alloc: Global, input: &Function) -> Result<(Function, EquationLists), PassError>
        ensures accepted { IfOk result (λ made. IsEliminated input.now made.0 made.1) }
        ensures refused { IfErr result (λ e. e ≢ PassError.NoMemory → never input.now) }
        ensures is { IfOk result (λ made. IsBaseline input.now made.0 made.1) }
    {
        Ok(baseline(alloc, input)?)
    }

    fn write_cert(
        input: &Function,
        _output: &Function,
        equations: &EquationLists,
        out: &mut Vec<u8>,
    ) -> Result<(), NoMemory> {
        write_certificate::<Cse>(input, equations.as_slice(), out)
    }

    fn read_cert(
        alloc: Global,
        input: &Function,
        _output: &Function,
        bytes: &[u8],
    ) -> Result<(EquationLists, usize), FormError> {
        read_certificate::<Cse>(alloc, input, bytes)
    }

    ghost sound = { sound_law };

    ghost accepted_fits = { eliminated_fits };

    ghost one_cert = { one_cert };
}
