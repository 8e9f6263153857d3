//! How a worker ends.

/// Why a worker ended.
#[derive(Clone, Copy, PartialEq, Eq, Debug)]
pub enum Ended {
    /// Its last claim found no range that may be granted.
    Drained,
    /// Its gate said so. A ticket in hand was dropped.
    Quit,
    /// It found no memory. A ticket in hand was given back.
    Memory,
    /// Its desk stopped at a disk fault, in a call of this worker or before.
    Halted,
}
