//! Results that are recorded together.
ghost use Rattle.std.specs.Prelude.{◌≡◌, ◌↔◌, ◌<◌, ◌≤◌, ◌++◌, ◌∷◌, [], length, IsTrue, IfSome, IfNone};

use arrayvec::ArrayVec;
use qh_range::RangeResult;
use std::marker::Model;

/// How many results a group has at most.
pub const GROUP_RESULTS: usize = 8;

/// Up to [`GROUP_RESULTS`] results that are recorded together. Contracts see the list of them. It takes no memory.
#[derive(Drop)]
pub struct Group {
    results: ArrayVec<Option<RangeResult>, 8>,
}

impl Model for Group {
    ghost use Rattle.std.specs.Prelude.{List};
    ghost use Rattle.qh_range.specs.Results.{RangeResult};
    ghost use Rattle.qh_board.specs.Groups.{results_in, AreResults};

    ghost Value = { List RangeResult };

    ghost view = { λ g. results_in g.results.items };

    ghost invariant = { λ g. AreResults g.results.items };
}

impl Group {
    /// A group of none.
    pub fn new() -> Group
        ensures { result ≡ [] }
    {
        Group {
            results: ArrayVec::new(),
        }
    }

    /// How many results there are.
    pub fn len(&self) -> usize
        ensures value { result ≡ length self.now }
        ensures few { result ≤ GROUP_RESULTS }
    {
        self.results.len()
    }

    /// Whether there is no result.
    pub fn is_empty(&self) -> bool
        ensures { IsTrue result ↔ (self.now ≡ []) }
    {
        self.results.is_empty()
    }

    /// Whether no more results have room.
    pub fn is_full(&self) -> bool
        ensures { IsTrue result ↔ (length self.now ≡ GROUP_RESULTS) }
    {
        self.results.is_full()
    }

    /// Adds a result at the end.
    pub fn push(&mut self, outcome: RangeResult)
        requires { length self.old < GROUP_RESULTS }
        ensures { self.new ≡ self.old ++ outcome ∷ [] }
    {
        self.results.push(Some(outcome));
    }

    /// Takes the first result out, None where there is none.
    pub(crate) fn take_first(&mut self) -> Option<RangeResult>
        ensures some { IfSome result (λ r. self.old ≡ r ∷ self.new) }
        ensures none { IfNone result (self.old ≡ []) }
    {
        if self.results.is_empty() {
            return None;
        }
        self.results.remove(0)
    }
}
