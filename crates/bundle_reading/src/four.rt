use chains::{Alloc, Cse, Linearize};
use constprop_check::ConstProp;
use offers::PartsOf;

/// The parts of four offers of a function, one for each pass, whether their passes accept them or not.
#[derive(Drop)]
pub struct Four {
    pub constants: PartsOf<ConstProp>,
    pub expressions: PartsOf<Cse>,
    pub allocation: PartsOf<Alloc>,
    pub order: PartsOf<Linearize>,
}
