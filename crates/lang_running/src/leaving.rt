/// A function that is called: its number, the place where it begins, and of its caller where it goes on and where the
/// result goes.
#[derive(Drop)]
pub struct Callee<P: Drop, T: Drop> {
    pub function: usize,
    pub place: P,
    pub back: P,
    pub target: T,
}

/// What a call or a return wants.
#[derive(Drop)]
pub enum Leaving<P: Drop, T: Drop> {
    Calls(Callee<P, T>),
    /// The running function returns a value, or none.
    Returns(Option<u32>),
    Fails,
}
