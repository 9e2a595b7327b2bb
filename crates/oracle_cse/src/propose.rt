use crate::numbering::Numbering;
use crate::worthwhile::Worthwhile;
use cse_check::{Cse, EquationLists};
use lang_base::{NoMemory, Oracle};
use oracle_alloc::live_before;
use oracle_facts::proposed;
use rand_pcg::Pcg32;
use rtl_language::Function;
use std::alloc::Global;

/// Proposes moves for what a register holds already, each where the next word is odd.
#[derive(Clone, Copy, Debug)]
pub struct CseOracle;

impl Oracle for CseOracle {
    type P = Cse;

    fn propose(
        &mut self,
        alloc: Global,
        input: &Function,
        draws: &mut Pcg32,
    ) -> Result<Option<(Function, EquationLists)>, NoMemory> {
        let numbering = Numbering::of(alloc, input.nodes().as_slice())?;
        Ok(Some(proposed(alloc, numbering, input, draws)?))
    }
}

/// Proposes moves where they are no longer than what they replace and no register is kept for them alone.
#[derive(Clone, Copy, Debug)]
pub struct CseSpeed;

impl Oracle for CseSpeed {
    type P = Cse;

    fn propose(
        &mut self,
        alloc: Global,
        input: &Function,
        _draws: &mut Pcg32,
    ) -> Result<Option<(Function, EquationLists)>, NoMemory> {
        let nodes = input.nodes().as_slice();
        let numbering = Numbering::of(alloc, nodes)?;
        let live = live_before(alloc, input.registers(), nodes)?;
        let mut chooser = Worthwhile { live };
        Ok(Some(proposed(alloc, numbering, input, &mut chooser)?))
    }
}
