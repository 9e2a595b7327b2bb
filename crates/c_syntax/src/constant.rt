/// The two types of values (C99 6.2.5, cut to 32 bits).
#[derive(Clone, Copy, Debug, PartialEq, Eq)]
pub enum IntegerType {
    Int,
    Unsigned,
}

/// An integer or character constant (C99 6.4.4).
#[derive(Clone, Copy, Debug, PartialEq, Eq)]
pub struct Constant {
    /// Below 2^31 where the type is `Int`.
    pub value: u32,
    pub kind: IntegerType,
}
