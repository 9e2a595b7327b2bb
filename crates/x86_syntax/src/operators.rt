/// What is made of two words.
#[derive(Clone, Copy, Debug, PartialEq, Eq)]
pub enum Operator {
    /// `addl`
    Add,
    /// `subl`
    Sub,
    /// `imull`
    Mul,
    /// `andl`
    And,
    /// `orl`
    Or,
    /// `xorl`
    Xor,
}

/// What is made of one word.
#[derive(Clone, Copy, Debug, PartialEq, Eq)]
pub enum Turning {
    /// `negl`
    Neg,
    /// `notl`
    Not,
}

/// How a word is shifted.
#[derive(Clone, Copy, Debug, PartialEq, Eq)]
pub enum Shifting {
    /// `shll`
    Shl,
    /// `shrl`: zeros come in from above.
    Shr,
    /// `sarl`: copies of the sign come in from above.
    Sar,
}
