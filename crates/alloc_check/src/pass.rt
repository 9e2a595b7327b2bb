use crate::base::baseline;
use alloc_check_verdict::{EquationLists, Equations, Sizes, check};
use lang_base::{FormError, NoMemory, Pass, PassError, Row};
use ltl::Ltl;
use rtl_language::Rtl;
use rtl_passes_marks::{read_rows, write_rows};
use std::alloc::Global;

/// Pass 3: pseudo-registers lie in registers and slots.
pub struct Alloc;

impl Pass for Alloc {
    ghost use Rattle.std.specs.Prelude.{◌≡◌, ◌≢◌, ◌≤◌, ℕ, List, ◌++◌, length, take, IsTrue, ◌↔◌, OnOk, OnErr, IfOk, IfErr};
    ghost use Rattle.alloc_check_rules.specs.Rules.{IsTooLarge};
    ghost use Rattle.alloc_check_verdict.specs.Allocated.{IsAllocated};
    ghost use Rattle.alloc_check_verdict.specs.Text.{CertFits, cert_text};
    ghost use Rattle.alloc_check.specs.Baseline.{IsBaseline};
    ghost use Rattle.alloc_check.specs.PassLaws.{allocated_fits, one_cert, sound_law};

    type In = Rtl;

    type Out = Ltl;

    type Cert = EquationLists;

    const NUMBER: u8 = 19;

    ghost NUMBER = { 19 };

    ghost accepts = { IsAllocated };

    ghost cert_fits = { CertFits };

    ghost cert_spelling = { λ i o c. cert_text c };

    ghost too_large = { IsTooLarge };

    fn check(
        alloc: Global,
        input: &rtl_language::Function,
        output: &ltl::Function,
        equations: &EquationLists,
    ) -> Result<bool, NoMemory> {
        check(alloc, input, output, equations)
    }

    fn baseline(
        alloc: Global,
        input: &rtl_language::Function,
    ) -> Result<(ltl::Function, EquationLists), PassError>
        ensures accepted { IfOk result (λ made. IsAllocated input.now made.0 made.1) }
        ensures refused { IfErr result (λ e. e ≢ PassError.NoMemory → IsTooLarge input.now) }
        ensures is { IfOk result (λ made. IsBaseline input.now made.0 made.1) }
    {
        baseline(alloc, input)
    }

    fn write_cert(
        _input: &rtl_language::Function,
        _output: &ltl::Function,
        equations: &EquationLists,
        out: &mut Vec<u8>,
    ) -> Result<(), NoMemory> {
        write_rows::<Equations>(equations.as_slice(), out)
    }

    fn read_cert(
        alloc: Global,
        input: &rtl_language::Function,
        output: &ltl::Function,
        bytes: &[u8],
    ) -> Result<(EquationLists, usize), FormError> {
        let sizes = Sizes {
            registers: input.registers(),
            slots: output.slots(),
        };
        let nodes = input.nodes().len() as u32;
        let _blocks = output.blocks();
        let mut rest = bytes;
        let rows = read_rows::<Equations>(alloc, sizes, nodes, &mut rest)?;
        Ok((Row::from_vec(rows), bytes.len() - rest.len()))
    }

    ghost sound = { sound_law };

    ghost accepted_fits = { allocated_fits };

    ghost one_cert = { one_cert };
}
