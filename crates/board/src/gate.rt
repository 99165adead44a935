//! What a call of the board passes.

/// What each call of the board passes, before it and after it. It may hold the call for a while, and so decides which of
/// two connections is first. The connection is told by its number, and the call by how many calls of that connection were
/// answered before it.
pub trait Gate {
    /// A call is about to be made.
    fn before(&self, conn: usize, call: u64);

    /// The call was answered.
    fn after(&self, conn: usize, call: u64);
}

/// Holds no call.
#[derive(Clone, Copy, Debug, PartialEq, Eq)]
pub struct OpenGate;

impl Gate for OpenGate {
    fn before(&self, _conn: usize, _call: u64) {}

    fn after(&self, _conn: usize, _call: u64) {}
}
