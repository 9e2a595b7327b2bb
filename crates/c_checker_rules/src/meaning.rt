use c_syntax::IntegerType;

/// What a name stands for where it is declared (C99 6.2.1).
#[derive(Clone, Copy, Debug, PartialEq, Eq)]
pub enum Meaning {
    /// A local or a parameter: its number in the function.
    Local(usize, IntegerType),
    /// A global without size: its number.
    Variable(usize, IntegerType),
    /// A global with a size: its number.
    Array(usize, IntegerType),
    /// A function: the place of its signature among those declared.
    Function(usize),
}
