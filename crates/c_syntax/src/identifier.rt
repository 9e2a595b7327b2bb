use crate::Name;

/// A name where it stands in the text.
#[derive(PartialEq, Eq, Drop)]
pub struct Identifier {
    pub name: Name,
    /// The byte offset of its first letter.
    pub offset: usize,
}
