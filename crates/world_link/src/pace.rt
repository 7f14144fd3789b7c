// What ticks wait for.

/// What is waited for before each tick. It tells nothing, and may wait.
pub trait Pace {
    /// Waits until the next tick may begin.
    fn wait(&mut self);
}
