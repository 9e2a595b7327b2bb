use crate::base::baseline;
use crate::lists::FactLists;
use crate::verdict::check;
use lang_base::{FormError, NoMemory, Pass, PassError};
use rtl_passes_facts::{Function, Rtl, read_certificate, write_certificate};
use std::alloc::Global;

/// Pass 1: constants are carried along the graph of a function.
pub struct ConstProp;

impl Pass for ConstProp {
    ghost use Rattle.std.specs.Prelude.{◌≡◌, ◌≢◌, ◌≤◌, ℕ, List, ◌++◌, length, take, IsTrue, ◌↔◌, OnOk, OnErr, IfOk, IfErr};
    ghost use Rattle.rtl_passes_facts.specs.RowForm.{rows_text};
    ghost use Rattle.rtl_passes_facts.specs.Certificates.{CertFits};
    ghost use Rattle.constprop_check_rules.specs.Rules.{propagation, IsPropagated};
    ghost use Rattle.constprop_check.specs.FactForm.{fact_text};
    ghost use Rattle.constprop_check.specs.Baseline.{IsBaseline};
    ghost use Rattle.constprop_check.specs.PassLaws.{propagated_fits, one_cert, sound_law, never};

    type In = Rtl;

    type Out = Rtl;

    type Cert = FactLists;

    const NUMBER: u8 = 17;

    ghost NUMBER = { 17 };

    ghost accepts = { IsPropagated };

    ghost cert_fits = { λ i o c. CertFits propagation i c };

    ghost cert_spelling = { λ i o c. rows_text fact_text c };

    ghost too_large = { never };

    fn check(
        alloc: Global,
        input: &Function,
        output: &Function,
        facts: &FactLists,
    ) -> Result<bool, NoMemory> {
        check(alloc, input, output, facts)
    }

    fn baseline(alloc: Global, input: &Function) -> Result<(Function, FactLists), PassError>
        ensures accepted { IfOk result (λ made. IsPropagated input.now made.0 made.1) }
        ensures refused { IfErr result (λ e. e ≢ PassError.NoMemory → never input.now) }
        ensures is { IfOk result (λ made. IsBaseline input.now made.0 made.1) }
    {
        Ok(baseline(alloc, input)?)
    }

    fn write_cert(
        input: &Function,
        _output: &Function,
        facts: &FactLists,
        out: &mut Vec<u8>,
    ) -> Result<(), NoMemory> {
        write_certificate::<ConstProp>(input, facts.as_slice(), out)
    }

    fn read_cert(
        alloc: Global,
        input: &Function,
        _output: &Function,
        bytes: &[u8],
    ) -> Result<(FactLists, usize), FormError> {
        read_certificate::<ConstProp>(alloc, input, bytes)
    }

    ghost sound = { sound_law };

    ghost accepted_fits = { propagated_fits };

    ghost one_cert = { one_cert };
}
