use crate::follows::Constants;
use constprop_check::{ConstProp, FactLists};
use lang_base::{NoMemory, Oracle};
use oracle_facts::{Each, proposed};
use rand_pcg::Pcg32;
use rtl_language::Function;
use std::alloc::Global;

/// Proposes constants, each where the next word is odd.
#[derive(Clone, Copy, Debug)]
pub struct ConstOracle;

impl Oracle for ConstOracle {
    type P = ConstProp;

    fn propose(
        &mut self,
        alloc: Global,
        input: &Function,
        draws: &mut Pcg32,
    ) -> Result<Option<(Function, FactLists)>, NoMemory> {
        Ok(Some(proposed(alloc, Constants, input, draws)?))
    }
}

/// Proposes constants wherever facts allow one.
#[derive(Clone, Copy, Debug)]
pub struct ConstSpeed;

impl Oracle for ConstSpeed {
    type P = ConstProp;

    fn propose(
        &mut self,
        alloc: Global,
        input: &Function,
        _draws: &mut Pcg32,
    ) -> Result<Option<(Function, FactLists)>, NoMemory> {
        let mut chooser = Each;
        Ok(Some(proposed(alloc, Constants, input, &mut chooser)?))
    }
}
