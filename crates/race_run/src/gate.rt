//! What workers tell of their way.

/// What is told before each step of a worker, on the worker's own thread.
pub trait Gate {
    /// The worker of this number is about to make its step of this number, both counted from 0. Once it has made all
    /// of them, it tells how many they are.
    fn pass(&self, worker: u32, step: u32);
}

/// The gate that lets all pass at once.
#[derive(Clone, Copy, Debug)]
pub struct FreeGate;

impl Gate for FreeGate {
    fn pass(&self, _worker: u32, _step: u32) {}
}
