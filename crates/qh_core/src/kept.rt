//! The ranges whose written gates a crash keeps.
ghost use Rattle.std.specs.Prelude.{◌≡◌, IfOk};

use std::alloc::{AllocError, Global};
use std::marker::Model;

/// The ranges whose written gates a crash left open, or that a start found open. Contracts see the list.
#[derive(Debug, Drop)]
pub struct Kept {
    ranges: Vec<u32>,
}

impl Model for Kept {
    ghost use Rattle.std.specs.Prelude.{List, ℕ};

    ghost Value = { List ℕ };

    ghost view = { λ k. k.ranges.items };
}

impl Kept {
    /// These ranges. It fails for want of memory alone.
    pub fn of(alloc: Global, ranges: &[u32]) -> Result<Kept, AllocError>
        ensures { IfOk result (λ kept. kept ≡ ranges.now) }
    {
        Ok(Kept {
            ranges: Vec::from_slice(alloc, ranges)?,
        })
    }

    // The list of the ranges.
    pub(crate) fn ranges(&self) -> &[u32]
        ensures { result.now ≡ self.now }
    {
        self.ranges.as_slice()
    }
}
