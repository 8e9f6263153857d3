//! What a vector cannot hold.

/// A new coefficient's magnitude is 2^126 or more.
#[derive(Clone, Copy, PartialEq, Eq, Debug)]
pub struct Over;
