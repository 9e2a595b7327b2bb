//! Why a pass does not accept.

ghost use Rattle.lang_base.specs.declared.fault.Fault.{Fault};
ghost use Rattle.bundle_offers.specs.Reasons.{IsReason};

use bundle_reading::Alloc;
use constprop_check::ConstProp;
use cse_check::Cse;
use lang_base::{Fault, Language, NoMemory, Pass};
use linearize_check::{Linearize, Order};
use std::alloc::Global;

/// Who tells why a pass does not accept an output.
pub trait Reasons<P: Pass> {
    /// What is said of an input, an output and a certificate that are not accepted.
    ghost tells: { P.In.Fun → P.Out.Fun → P.Cert → Fault → Type 0 };

    /// What is wrong, if anything is.
    fn reason(
        alloc: Global,
        input: &<P::In as Language>::Fun,
        output: &<P::Out as Language>::Fun,
        certificate: &P::Cert,
    ) -> Result<Option<Fault>, NoMemory>
        ensures { IsReason P.accepts tells input.now output.now certificate.now result };
}

/// The four passes' own reasons.
pub struct PassReasons;

impl Reasons<ConstProp> for PassReasons {
    ghost use Rattle.bundle_offers.specs.Reasons.{WhyFirst};

    ghost tells = { WhyFirst };

    fn reason(
        alloc: Global,
        input: &rtl_language::Function,
        output: &rtl_language::Function,
        certificate: &constprop_check::FactLists,
    ) -> Result<Option<Fault>, NoMemory> {
        constprop_check::why(alloc, input, output, certificate)
    }
}

impl Reasons<Cse> for PassReasons {
    ghost use Rattle.bundle_offers.specs.Reasons.{WhySecond};

    ghost tells = { WhySecond };

    fn reason(
        alloc: Global,
        input: &rtl_language::Function,
        output: &rtl_language::Function,
        certificate: &cse_check::EquationLists,
    ) -> Result<Option<Fault>, NoMemory> {
        cse_check::why(alloc, input, output, certificate)
    }
}

impl Reasons<Alloc> for PassReasons {
    ghost use Rattle.bundle_offers.specs.Reasons.{WhyThird};

    ghost tells = { WhyThird };

    fn reason(
        alloc: Global,
        input: &rtl_language::Function,
        output: &ltl::Function,
        certificate: &bundle_reading::EquationLists,
    ) -> Result<Option<Fault>, NoMemory> {
        bundle_reading::why(alloc, input, output, certificate)
    }
}

impl Reasons<Linearize> for PassReasons {
    ghost use Rattle.bundle_offers.specs.Reasons.{WhyFourth};

    ghost tells = { WhyFourth };

    fn reason(
        alloc: Global,
        input: &ltl::Function,
        output: &linear_language::Function,
        certificate: &Order,
    ) -> Result<Option<Fault>, NoMemory> {
        linearize_check::why(alloc, input, output, certificate)
    }
}
