//! The name of a run.
use std::marker::Brand;

/// What is named of a run, so that all that lies under one lock agrees on it. A caller names a run where it calls a function over
/// `M: Named` with `Brand`.
pub trait Named {
    ghost use Rattle.qh_run_shared.specs.Facts.{RunName};

    // the run's job, the slots that its ranges began with, its disk when the board went under the lock, and its shares
    ghost run: { RunName };
}

impl Named for Brand {
    ghost use Rattle.std.specs.Prelude.{[], false, None};
    ghost use Rattle.qh_run_shared.specs.Facts.{no_face};

    ghost run = { record {
      job = record { circuit = record { qubits = 0; gates = [] }; part = []; p = 0; r = 0; prefix = None; bits = [] };
      begun = λ _. None;
      kept = false;
      start = no_face;
      lent = [];
      out = 0;
    } };
}
