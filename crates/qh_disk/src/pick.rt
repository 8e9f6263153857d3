//! Which image a crash leaves.

/// What a crash makes of that which was changed since the last sync.
#[derive(Clone, Copy, Debug, PartialEq, Eq)]
pub enum Pick {
    /// The bytes and the length of the last sync.
    Old,
    /// The bytes and the length of now.
    New,
    /// The length of now, and this byte wherever a write since the last sync stands.
    Byte(u8),
}
