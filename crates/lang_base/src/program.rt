use crate::row::Row;

/// A global variable: its number of cells, and the words that the first of them begin with. The
/// other cells begin with 0, and the last listed word is not 0.
#[derive(Drop)]
pub struct Global {
    pub cells: u32,
    pub first_words: Row<u32>,
}

/// A function and its name.
#[derive(Drop)]
pub struct Named<F> {
    pub name: Row<u8>,
    pub function: F,
}

/// A program: its globals, and its functions by name in the order of their definitions. `F` is the
/// type of functions of a language.
#[derive(Drop)]
pub struct Program<F> {
    pub globals: Row<Global>,
    pub functions: Row<Named<F>>,
}
