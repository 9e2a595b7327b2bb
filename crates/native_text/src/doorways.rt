/// What C calls.
#[derive(Clone, Copy)]
pub enum Doorways<'a> {
    /// The function where a program begins.
    Main,
    /// Each function, its name behind this prefix.
    Exported(&'a [u8]),
}
