// Gates, which order the atomic steps of worker threads.

/// Decides when a worker may make its next atomic step. A test's gate holds a worker back until another
/// has made a step, which fixes the order of the steps. The program's own gate is always open. This
/// project's own rule; Compose has none.
pub trait Gate {
    /// Returns when the worker may make its next atomic step.
    ///
    /// A worker calls `pass` before each atomic step, including each read of a frame. `actor` is the
    /// worker's number, from 0 in the order of the script. `step` is the number of the step, from 0 for
    /// each actor, modulo 2^64.
    fn pass(&self, actor: usize, step: u64);
}

/// A gate that never waits.
#[derive(Clone, Copy, Debug, Default, PartialEq, Eq)]
pub struct OpenGate;

impl Gate for OpenGate {
    fn pass(&self, _actor: usize, _step: u64) {}
}
