use ints::Op;

/// An expression whose names are resolved and whose operators are chosen by the types of their operands
/// (C99 6.5). Its value is a word of 32 bits.
#[derive(Drop)]
pub enum Term {
    Constant(u32),
    /// A local or a parameter, by its number in the function: parameters first, then locals in the order of
    /// the text.
    Local(usize),
    /// A cell of a global, by the global's number and the cell's. A variable without size is its cell 0.
    Cell(usize, Box<Term>),
    Unary(Op, Box<Term>),
    Binary(Op, Box<Term>, Box<Term>),
    /// `&&`
    Both(Box<Term>, Box<Term>),
    /// `||`
    Either(Box<Term>, Box<Term>),
    /// The condition, and the value where it holds and where it does not.
    Conditional(Box<Term>, Box<Term>, Box<Term>),
}
