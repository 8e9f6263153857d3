//! A member of a group of stores.
use qh_plan::Verdict;

/// A range and the verdict that is to be stored for it. The default is what stands in the unused places of a group.
#[derive(Drop)]
pub struct Member {
    pub range: u32,
    pub verdict: Verdict,
}

impl Default for Member {
    fn default() -> Self {
        Member {
            range: 0,
            verdict: Verdict::Over { path: 0 },
        }
    }
}
