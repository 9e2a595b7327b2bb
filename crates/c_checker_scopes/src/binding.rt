/// What a name means: the declaration that it was bound to, and how deep that declaration's scope is (0 is the file's).
#[derive(Clone, Copy, Debug, PartialEq, Eq)]
pub struct Binding<T> {
    pub depth: u32,
    pub value: T,
}

/// How an entry hangs in the table: the number of its name, and the place of the entry of the same name that it hides.
#[derive(Clone, Copy)]
pub(crate) struct Link {
    pub(crate) symbol: usize,
    pub(crate) shadowed: Option<usize>,
}

/// A binding in the table.
#[derive(Drop)]
pub(crate) struct Entry<T> {
    pub(crate) link: Link,
    pub(crate) depth: u32,
    pub(crate) value: T,
}
