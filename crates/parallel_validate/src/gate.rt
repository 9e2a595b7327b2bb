/// What is called round each job, in the thread that does it. The answers do not depend on it.
pub trait Gate {
    /// Called before the job of this number is begun.
    fn before(&self, job: usize);

    /// Called when the job of this number is answered.
    fn after(&self, job: usize);
}

/// Lets every job through at once.
#[derive(Clone, Copy, Debug)]
pub struct OpenGate;

impl Gate for OpenGate {
    fn before(&self, _job: usize) {}

    fn after(&self, _job: usize) {}
}
