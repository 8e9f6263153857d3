//! A gate at which two workers meet.
use qh_workers::{Pass, Point, WorkerGate};
use std::sync::atomic::{AtomicU64, Ordering};
use std::thread;

/// How often the first worker asks for another, at most.
const PATIENCE: u32 = 20_000_000;

/// It holds the first worker that comes to compute until another comes to compute. Where none comes the first one ends.
#[derive(Drop)]
pub struct Meeting {
    // the number of the first worker, plus one
    first: AtomicU64,
    // how often another came
    others: AtomicU64,
    // how often the first one waited in vain
    alone: AtomicU64,
}

impl Meeting {
    pub fn new() -> Meeting {
        Meeting {
            first: AtomicU64::new(0),
            others: AtomicU64::new(0),
            alone: AtomicU64::new(0),
        }
    }

    /// Whether two workers came to compute, and the first did not wait in vain.
    pub fn has_met(&self) -> bool {
        self.others.load(Ordering::SeqCst) > 0 && self.alone.load(Ordering::SeqCst) == 0
    }

    /// Waits for another worker.
    fn wait(&self) -> Pass {
        for _ in 0..PATIENCE {
            if self.others.load(Ordering::SeqCst) > 0 {
                return Pass::Go;
            }
            thread::yield_now();
        }
        self.alone.fetch_add(1, Ordering::SeqCst);
        Pass::Quit
    }

    /// A worker comes to compute.
    fn meet(&self, worker: u32) -> Pass {
        let number = u64::from(worker) + 1;
        match self
            .first
            .compare_exchange(0, number, Ordering::SeqCst, Ordering::SeqCst)
        {
            Ok(_) => self.wait(),
            Err(first) => {
                if first != number {
                    self.others.fetch_add(1, Ordering::SeqCst);
                }
                Pass::Go
            }
        }
    }
}

impl WorkerGate for Meeting {
    ghost may_quit = { λ _. Unit {0} };

    ghost stops = { λ _ _ _. ⊥ };

    fn pass(&self, worker: u32, point: Point) -> Pass {
        match point {
            Point::Computing { .. } => self.meet(worker),
            Point::BeforeClaim | Point::BeforeDeliver { .. } => Pass::Go,
        }
    }
}
