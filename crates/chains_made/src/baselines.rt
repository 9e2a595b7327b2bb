//! What each pass makes with no choice, exactly.

use alloc_check::Alloc;
use constprop_check::{ConstProp, FactLists};
use cse_check::Cse;
use lang_base::{Pass, PassError};
use linearize_check::{Linearize, Order};
use offers::Baselines;
use std::alloc::Global;

/// The baselines of the four passes, each as its pass defines it.
pub struct ExactBaselines;

impl Baselines<ConstProp> for ExactBaselines {
    ghost use Rattle.constprop_check.specs.Baseline.{IsBaseline};

    ghost is_baseline = { IsBaseline };

    fn made(
        alloc: Global,
        input: &rtl_language::Function,
    ) -> Result<(rtl_language::Function, FactLists), PassError> {
        ConstProp::baseline(alloc, input)
    }
}

impl Baselines<Cse> for ExactBaselines {
    ghost use Rattle.cse_check.specs.Baseline.{IsBaseline};

    ghost is_baseline = { IsBaseline };

    fn made(
        alloc: Global,
        input: &rtl_language::Function,
    ) -> Result<(rtl_language::Function, cse_check::EquationLists), PassError> {
        Cse::baseline(alloc, input)
    }
}

impl Baselines<Alloc> for ExactBaselines {
    ghost use Rattle.alloc_check.specs.Baseline.{IsBaseline};

    ghost is_baseline = { IsBaseline };

    fn made(
        alloc: Global,
        input: &rtl_language::Function,
    ) -> Result<(ltl::Function, alloc_check::EquationLists), PassError> {
        Alloc::baseline(alloc, input)
    }
}

impl Baselines<Linearize> for ExactBaselines {
    ghost use Rattle.linearize_check.specs.Baseline.{IsBaseline};

    ghost is_baseline = { IsBaseline };

    fn made(
        alloc: Global,
        input: &ltl::Function,
    ) -> Result<(linear_language::Function, Order), PassError> {
        Linearize::baseline(alloc, input)
    }
}
