// What workers pass before their jobs.

/// What a worker calls before each job that it does. It tells nothing, and may wait: so a test holds one
/// worker until another has begun.
pub trait Gate {
    /// The worker of this number, counted from 0, is about to do job `k`.
    fn pass(&self, worker: u32, k: u32);
}

/// A gate that holds nobody.
#[derive(Clone, Copy)]
pub struct OpenGate;

impl Gate for OpenGate {
    fn pass(&self, _worker: u32, _k: u32) {}
}
