//! What the machine answers.
/// What the machine answers to an event.
#[derive(Clone, Copy, Debug, PartialEq, Eq)]
pub enum Moved {
    /// It happened.
    Done,
    /// The result was recorded before, and nothing changed.
    Repeat,
    /// It cannot happen in this state, and nothing changed.
    Illegal,
}
