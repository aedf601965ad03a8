//! What is told of each event that a thread has played.
use lz_machine::Kind;
use std::sync::Wait;

/// Is called by the thread that played an event, while the set isn't held: other threads go on meanwhile.
pub trait StepGate: Drop {
    /// Whether it is to be told. Where it isn't, a call may keep the set from one event to the next.
    fn watches(&self) -> bool {
        true
    }

    /// An event of this kind was played for the pass. The Invoke of a call is played in one hold with the event after it, and
    /// isn't told.
    fn after<R: Wait>(&self, rt: &R, pass: usize, kind: Kind);
}

/// Does nothing.
#[derive(Clone, Copy, Debug)]
pub struct NoGate;

impl StepGate for NoGate {
    fn watches(&self) -> bool {
        false
    }

    fn after<R: Wait>(&self, _rt: &R, _pass: usize, _kind: Kind) {}
}
