//! A law of the output text, as the contract of a call that does nothing.
ghost use Rattle.std.specs.Prelude.{◌≡◌, ℕ, List};
ghost use Rattle.qh_ring.specs.declared.number.Omega.{Omega};
ghost use Rattle.qh_print.specs.Output.{IsText};

/// Basis indices and their values over √2^k have one text.
pub fn one_text()
    ensures { (qubits k : ℕ) (xs : List ℕ) (values : List Omega) (s t : List ℕ) → IsText qubits k xs values s → IsText qubits k xs values t → s ≡ t }
{}
