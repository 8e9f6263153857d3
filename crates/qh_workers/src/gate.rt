//! Where a worker may be held or ended from outside.
ghost use Rattle.std.specs.Prelude.{◌≡◌, ℕ};
ghost use Rattle.qh_workers.specs.declared.gate.Point.{Point};

/// Where a worker stands when it asks its gate.
#[derive(Clone, Copy, PartialEq, Eq, Debug)]
pub enum Point {
    /// Before a draw and before a claim.
    BeforeClaim,
    /// Before it evaluates a range for which it has a ticket.
    Computing { range: u32 },
    /// Before it delivers the result of a range.
    BeforeDeliver { range: u32 },
}

/// What a gate answers.
#[derive(Clone, Copy, PartialEq, Eq, Debug)]
pub enum Pass {
    /// The worker goes on.
    Go,
    /// The worker ends, and drops a ticket that it has in hand.
    Quit,
}

/// A gate that workers pass. It may answer anything, and may make them wait.
pub trait WorkerGate {
    // that it may answer Quit
    ghost may_quit: { Self → Type 0 };

    // that it answers Quit to this worker at this point whenever it is asked
    ghost stops: { Self → ℕ → Point → Type 0 };

    /// Whether a worker goes on from a point. Quit comes only from a gate that may answer it, and always from one that
    /// stops this worker at this point.
    fn pass(&self, worker: u32, point: Point) -> Pass
        ensures cause { result ≡ Pass.Quit → may_quit self.now }
        ensures stopped { stops self.now worker point → result ≡ Pass.Quit };
}

/// A gate that lets every worker go on.
#[derive(Clone, Copy, Debug)]
pub struct FreeGate;

impl WorkerGate for FreeGate {
    ghost may_quit = { λ _. ⊥ };

    ghost stops = { λ _ _ _. ⊥ };

    fn pass(&self, _worker: u32, _point: Point) -> Pass {
        Pass::Go
    }
}
