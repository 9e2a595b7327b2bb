//! What keeps the meaning, as the contract of a call that does nothing else.

ghost use Rattle.std.specs.Prelude.{All};
ghost use Rattle.lang_base.specs.Keeps.{Keeps};
ghost use Rattle.linear_language.specs.Meaning as linear;
ghost use Rattle.rtl_language.specs.Meaning as rtl;
ghost use Rattle.bundle_reading.specs.Offered.{linked_offers};
ghost use Rattle.bundle_reading.specs.Read.{offers_in, offers_of};
ghost use Rattle.bundle_offers.specs.Standing.{AllStand};
ghost use Rattle.cfarm_verify_comparing.specs.Ranges.{AreInRange};

use bundle_reading::{Alloc, Four};
use constprop_check::ConstProp;
use cse_check::Cse;
use lang_base::{Language, Program, keeps_all};
use linear_language::Linear;
use linearize_check::Linearize;
use ltl::Ltl;
use rtl_language::Rtl;

/// What the types of functions keep.
fn in_range(four: &Four)
    ensures { AreInRange (offers_of four.now) }
{
    Rtl::known(&four.constants.input);
    Rtl::known(&four.constants.output);
    Rtl::known(&four.expressions.output);
    Ltl::known(&four.allocation.output);
    Linear::known(&four.order.output);
}

/// The same of all.
fn all_in_range(fours: &[Four])
    ensures { All (λ four. AreInRange (offers_of four)) fours.now }
{
    for four in fours {
        in_range(four);
    }
}

/// The program that offers come to keeps the meaning of the one that they go on from, where all of them stand. The time is linear
/// in the number of functions.
pub fn linked_keeps(begun: &Program<rtl_language::Function>, fours: &[Four])
    requires { AllStand begun.now.functions (offers_in fours.now) }
    ensures { Keeps (rtl.run begun.now) (linear.run (linked_offers begun.now (offers_in fours.now))) }
{
    let _functions = begun.functions.len();
    keeps_all::<ConstProp>();
    keeps_all::<Cse>();
    keeps_all::<Alloc>();
    keeps_all::<Linearize>();
    all_in_range(fours);
}
