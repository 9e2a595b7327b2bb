use lang_base::{Language, Pass};

/// An input, an output, and a certificate that may show the output to be right.
#[derive(Drop)]
pub struct Parts<I, O, C> {
    pub input: I,
    pub output: O,
    pub certificate: C,
}

/// The parts of an offer of a pass.
pub type PartsOf<P> = Parts<
    <<P as Pass>::In as Language>::Fun,
    <<P as Pass>::Out as Language>::Fun,
    <P as Pass>::Cert,
>;
