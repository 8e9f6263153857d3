//! How far a slot is written.
/// How far a range's slot is written in the journal.
#[derive(Clone, Copy, Debug, PartialEq, Eq)]
pub enum SlotState {
    /// Its gate is closed.
    Closed,
    /// Its body was written since the last sync.
    BodyWritten,
    /// Its body is safe, its gate is closed.
    BodySafe,
    /// Its gate was written since the last sync.
    GateWritten,
    /// Its body and its open gate are safe.
    Stored,
}
