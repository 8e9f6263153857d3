//! Counts of grants, give-backs and acknowledgements.
/// How many grants, give-backs and acknowledgements were counted.
#[derive(Clone, Copy, Debug, PartialEq, Eq)]
pub struct Totals {
    pub grants: u64,
    pub backs: u64,
    pub acks: u64,
}
