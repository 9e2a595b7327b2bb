//! The forms of a program that `emit` writes.

/// A form of a C text's program.
#[derive(Clone, Copy, Debug, PartialEq, Eq)]
pub enum Emitted {
    /// The program that the text is lowered to.
    Cminor,
    /// What that is translated to; the first pass begins with it.
    Rtl,
    /// The outputs of the third pass.
    Ltl,
    /// The outputs of the fourth pass: the linked program.
    Linear,
    /// The offers that link it, as a bundle.
    Bundle,
}
