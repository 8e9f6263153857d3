//! The places for the numbers of a half.
ghost use Rattle.std.specs.Prelude.{◌≡◌, ◌≤◌, IfOk};
ghost use Rattle.qh_limits.specs.Limits.{max_part_qubits};
ghost use Rattle.qh_ring.specs.States.{listed, ground};

use crate::wide::WideNumbers;
use qh_narrow::{Columns, Columns16, Columns32};
use std::alloc::{AllocError, Global};

/// One place for each width of the numbers. Its memory is taken at once, and written when numbers come there.
#[derive(Drop)]
pub(crate) struct Places {
    pub(crate) narrow16: Columns16,
    pub(crate) narrow32: Columns32,
    pub(crate) narrow64: Columns,
    pub(crate) wide: WideNumbers,
}

impl Places {
    ghost use Rattle.qh_half.specs.Forms.{ArePlaces};

    /// Places for 1 to 20 qubits, of which the narrowest has 1 at index 0 and 0 elsewhere.
    pub(crate) fn ground(alloc: Global, qubits: u32) -> Result<Places, AllocError>
        requires some { 1 ≤ qubits }
        requires few { qubits ≤ max_part_qubits }
        ensures places { IfOk result (ArePlaces qubits) }
        ensures numbers { IfOk result (λ p. p.narrow16.numbers ≡ listed qubits ground) }
    {
        let narrow16 = Columns16::ground(alloc, qubits)?;
        let narrow32 = Columns32::zeros(alloc, qubits)?;
        let narrow64 = Columns::zeros(alloc, qubits)?;
        let wide = WideNumbers::room(alloc, qubits)?;
        Ok(Places {
            narrow16,
            narrow32,
            narrow64,
            wide,
        })
    }
}
