//! Which calls of a disk in memory are to fail.
ghost use Rattle.std.specs.Prelude.{◌≡◌, ◌≤◌, ◌↔◌, IsTrue, IfOk};
ghost use Rattle.qh_disk.specs.Plan.{counted, IsPlanned, listed};

use qh_limits::raise;
use std::alloc::{AllocError, Global};
use std::marker::Model;

// Calls are numbered from 1.
#[derive(Drop)]
pub(crate) struct Plan {
    calls: u64,
    fails: Vec<u64>,
    stop: Option<u64>,
}

impl Model for Plan {
    ghost use Rattle.std.specs.Prelude.{◌≤◌};
    ghost use Rattle.std.specs.Vec.{vec_capacity};
    ghost use Rattle.qh_disk.specs.Plan.{CallPlan};

    ghost Value = { CallPlan };

    ghost view = { λ p. record { calls = p.calls; fails = p.fails.items; stop = p.stop } };

    ghost invariant = { λ p. 1 ≤ vec_capacity p.fails };
}

impl Plan {
    // The calls with these numbers fail, and each after the last one.
    pub(crate) fn new(alloc: Global, fails: &[u64], stop: Option<u64>) -> Result<Plan, AllocError>
        ensures { IfOk result (λ p. p ≡ record { calls = 0; fails = fails.now; stop = stop }) }
    {
        let mut numbers = Vec::with_capacity(alloc, fails.len().max(1))?;
        numbers.extend_from_slice(fails)?;
        Ok(Plan {
            calls: 0,
            fails: numbers,
            stop,
        })
    }

    // Counts a call, and tells whether it is to fail.
    pub(crate) fn refuses(&mut self) -> bool
        ensures counted { self.new ≡ counted self.old }
        ensures planned { IsTrue result ↔ IsPlanned self.old }
    {
        raise(&mut self.calls);
        if self.fails.contains(&self.calls) {
            return true;
        }
        match self.stop {
            Some(last) => last < self.calls,
            None => false,
        }
    }

    // Numbers the calls anew, and plans anew.
    pub(crate) fn renew(&mut self, fail: Option<u64>, stop: Option<u64>)
        ensures { self.new ≡ record { calls = 0; fails = listed fail; stop = stop } }
    {
        self.calls = 0;
        self.fails.clear();
        if let Some(number) = fail {
            let _ = self.fails.push(number);
        }
        self.stop = stop;
    }
}
