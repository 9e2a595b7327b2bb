use crate::arguments::Arguments;
use ints::Cond;

/// What a branch asks.
#[derive(Clone, Copy, PartialEq, Eq)]
pub struct Test {
    pub condition: Cond,
    pub arguments: Arguments,
}
