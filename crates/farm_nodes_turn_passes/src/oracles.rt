use cse_check::{Cse, EquationLists};
use lang_base::{NoMemory, Oracle};
use rand_pcg::Pcg32;
use rooms_numbered::{Alloc, ConstProp, EquationLists as PlaceLists, FactLists, Linearize, Order};
use std::alloc::Global;

/// A node's optimisers, one call for each pass. Each is asked with the number of the function, whose input this is. Nothing is promised of
/// what they propose: an output and a certificate for the input, or none. `draws` makes their choices. Where memory is wanting, words may
/// have been drawn and they may have changed.
pub trait Oracles {
    /// For the first pass, which carries constants.
    fn propose_constants(
        &mut self,
        alloc: Global,
        number: u16,
        input: &rtl_language::Function,
        draws: &mut Pcg32,
    ) -> Result<Option<(rtl_language::Function, FactLists)>, NoMemory>;

    /// For the second pass, which computes an expression once.
    fn propose_expressions(
        &mut self,
        alloc: Global,
        number: u16,
        input: &rtl_language::Function,
        draws: &mut Pcg32,
    ) -> Result<Option<(rtl_language::Function, EquationLists)>, NoMemory>;

    /// For the third pass, which gives pseudo-registers their registers and slots.
    fn propose_allocation(
        &mut self,
        alloc: Global,
        number: u16,
        input: &rtl_language::Function,
        draws: &mut Pcg32,
    ) -> Result<Option<(ltl::Function, PlaceLists)>, NoMemory>;

    /// For the fourth pass, which lays the blocks out in an order.
    fn propose_order(
        &mut self,
        alloc: Global,
        number: u16,
        input: &ltl::Function,
        draws: &mut Pcg32,
    ) -> Result<Option<(rooms_numbered::Function, Order)>, NoMemory>;
}

/// A node's optimiser of the first pass, for the function of this number.
#[derive(Drop)]
pub struct ConstantsOf<'a, O> {
    pub oracles: &'a mut O,
    pub number: u16,
}

impl<O: Oracles> Oracle for ConstantsOf<'_, O> {
    type P = ConstProp;

    fn propose(
        &mut self,
        alloc: Global,
        input: &rtl_language::Function,
        draws: &mut Pcg32,
    ) -> Result<Option<(rtl_language::Function, FactLists)>, NoMemory> {
        self.oracles
            .propose_constants(alloc, self.number, input, draws)
    }
}

/// A node's optimiser of the second pass, for the function of this number.
#[derive(Drop)]
pub struct ExpressionsOf<'a, O> {
    pub oracles: &'a mut O,
    pub number: u16,
}

impl<O: Oracles> Oracle for ExpressionsOf<'_, O> {
    type P = Cse;

    fn propose(
        &mut self,
        alloc: Global,
        input: &rtl_language::Function,
        draws: &mut Pcg32,
    ) -> Result<Option<(rtl_language::Function, EquationLists)>, NoMemory> {
        self.oracles
            .propose_expressions(alloc, self.number, input, draws)
    }
}

/// A node's optimiser of the third pass, for the function of this number.
#[derive(Drop)]
pub struct AllocationOf<'a, O> {
    pub oracles: &'a mut O,
    pub number: u16,
}

impl<O: Oracles> Oracle for AllocationOf<'_, O> {
    type P = Alloc;

    fn propose(
        &mut self,
        alloc: Global,
        input: &rtl_language::Function,
        draws: &mut Pcg32,
    ) -> Result<Option<(ltl::Function, PlaceLists)>, NoMemory> {
        self.oracles
            .propose_allocation(alloc, self.number, input, draws)
    }
}

/// A node's optimiser of the fourth pass, for the function of this number.
#[derive(Drop)]
pub struct OrderOf<'a, O> {
    pub oracles: &'a mut O,
    pub number: u16,
}

impl<O: Oracles> Oracle for OrderOf<'_, O> {
    type P = Linearize;

    fn propose(
        &mut self,
        alloc: Global,
        input: &ltl::Function,
        draws: &mut Pcg32,
    ) -> Result<Option<(rooms_numbered::Function, Order)>, NoMemory> {
        self.oracles.propose_order(alloc, self.number, input, draws)
    }
}
