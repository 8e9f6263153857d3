//! A set of numbers whose lowest member from a number on is found fast.
ghost use Rattle.std.specs.Prelude.{◌≡◌, ◌<◌, ◌≤◌, ◌+◌, ◌*◌, length, max, replicate, slice_set, IfOk, IfSome, IfNone};
ghost use Rattle.qh_lease.specs.Marks.{NoneMarked, IsLowestMarked};

use std::alloc::{AllocError, Global};
use std::marker::Model;

// How many numbers share a flag.
const BLOCK: usize = 128;

// A set of numbers below a count, whose lowest member from a number on is found without a look at each.
// A flag stands for each block of numbers, and only blocks with a flag are looked into. With n numbers
// a search reads at most n / BLOCK flags and, where no flag is left over, two blocks; a change reads at
// most one block.
#[derive(Drop)]
pub struct Marks {
    marks: Vec<bool>,
    flags: Vec<bool>,
}

impl Model for Marks {
    ghost use Rattle.std.specs.Prelude.{List, Bool};
    ghost use Rattle.qh_lease.specs.Marks.{AreFlagged};
    ghost use Rattle.qh_lease.specs.declared.marks.TheConstants.{BLOCK};

    ghost Value = { List Bool };

    ghost view = { λ m. m.marks.items };

    ghost invariant = { λ m. AreFlagged BLOCK m.marks.items m.flags.items };
}

// The lowest marked number of a block, at or above a number.
fn lowest_in(marks: &[bool], block: usize, from: usize) -> Option<usize>
    requires { block * BLOCK ≤ length marks.now }
    ensures found { IfSome result (λ place. (place < length marks.now) × (place < BLOCK * (block + 1)) × IsLowestMarked marks.now (max from (block * BLOCK)) place) }
    ensures none { IfNone result (NoneMarked marks.now (max from (block * BLOCK)) (BLOCK * (block + 1))) }
{
    let start = block * BLOCK;
    let end = (marks.len() - start).min(BLOCK) + start;
    for place in start.max(from)..end {
        if marks[place] {
            return Some(place);
        }
    }
    None
}

impl Marks {
    // A set of no number, or of all below the count.
    pub fn new(alloc: Global, count: usize, marked: bool) -> Result<Marks, AllocError>
        ensures { IfOk result (λ m. m ≡ replicate count marked) }
    {
        let marks = vec![in alloc; marked; count]?;
        let flags = vec![in alloc; marked; count.div_ceil(BLOCK)]?;
        Ok(Marks { marks, flags })
    }

    // Puts a number into the set, or takes it out.
    pub fn set(&mut self, place: usize, marked: bool)
        requires { place < length self.old }
        ensures { self.new ≡ slice_set self.old place marked }
    {
        let block = place / BLOCK;
        self.marks[place] = marked;
        self.flags[block] = marked || lowest_in(&self.marks, block, 0).is_some();
    }

    // The lowest member at or above a number.
    pub fn lowest_from(&self, from: usize) -> Option<usize>
        ensures found { IfSome result (λ place. (place < length self.now) × IsLowestMarked self.now from place) }
        ensures none { IfNone result (NoneMarked self.now from (length self.now)) }
    {
        for block in from / BLOCK..self.flags.len() {
            if self.flags[block] {
                let found = lowest_in(&self.marks, block, from);
                if found.is_some() {
                    return found;
                }
            }
        }
        None
    }
}
