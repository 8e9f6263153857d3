//! What the lanes cannot hold.

/// A coefficient does not fit the lanes.
#[derive(Clone, Copy, PartialEq, Eq, Debug)]
pub struct Wide;
