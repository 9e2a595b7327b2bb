//! What a bundle's bytes say, as the contract of a call that does nothing else.

ghost use Rattle.bundle_reading.specs.Texts.{HasOneBundle};

use chains::{Alloc, Cse, Linearize};
use constprop_check::ConstProp;
use offers::one_text;

/// No two bundles share their bytes: neither the digest is another, nor any offer.
pub fn one_bundle()
    ensures { HasOneBundle }
{
    one_text::<ConstProp>();
    one_text::<Cse>();
    one_text::<Alloc>();
    one_text::<Linearize>();
}
