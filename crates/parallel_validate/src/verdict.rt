use offers::PartsOf;

/// An input, an output and a certificate that are to be checked.
pub type Job<P> = PartsOf<P>;

/// The answer to the job of this number.
#[derive(Clone, Copy)]
pub(crate) struct Verdict {
    pub job: usize,
    pub yes: bool,
}
