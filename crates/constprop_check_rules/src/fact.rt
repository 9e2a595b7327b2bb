use rtl_passes_filled::Register;

/// At a node the register holds the word.
#[derive(Clone, Copy, Debug, PartialEq, Eq)]
pub struct Fact {
    pub register: Register,
    pub word: u32,
}
