//! The output text as one value, and the text of some values.
ghost use Rattle.std.specs.Prelude.{◌≡◌, ◌≤◌, ◌<◌, ◌^◌, IfOk, length, All};
ghost use Rattle.qh_limits.specs.Limits.{coefficient_bits, max_gates, max_qubits};
ghost use Rattle.qh_ring.specs.Numbers.{IsWithin};
ghost use Rattle.qh_print.specs.Output.{IsText};

use crate::print::print_line;
use qh_ring::{Omega, reduce};
use std::alloc::{AllocError, Global};
use std::marker::Model;

/// The bytes of an output text. Contracts see the list of bytes.
#[derive(Drop)]
pub struct Lines {
    bytes: Vec<u8>,
}

impl Model for Lines {
    ghost use Rattle.std.specs.Prelude.{ℕ, List};

    ghost Value = { List ℕ };

    ghost view = { λ l. l.bytes.items };
}

impl Lines {
    ghost use Rattle.std.specs.Prelude.{◌≡◌};

    /// Keeps these bytes. It takes no memory.
    pub fn of(bytes: Vec<u8>) -> Lines
        ensures { result ≡ bytes.items }
    {
        Lines { bytes }
    }

    /// The bytes, from the first on. It takes no memory.
    pub fn as_bytes(&self) -> &[u8]
        ensures { result.now ≡ self.now }
    {
        self.bytes.as_slice()
    }
}

/// A line for each basis index, in their order, with its value over √2^weight in least form.
///
/// There are 1 to 40 qubits, the indices are below 2^qubits, the weight is at most 4,096, and there is a value within 126
/// bits for each index. An Err is want of memory.
pub fn lines_of(
    alloc: Global,
    qubits: u32,
    weight: u32,
    indices: &[u64],
    values: &[Omega],
) -> Result<Lines, AllocError>
    requires some { 1 ≤ qubits }
    requires few { qubits ≤ max_qubits }
    requires shallow { weight ≤ max_gates }
    requires below { All (λ x. x < 2 ^ qubits) indices.now }
    requires paired { length values.now ≡ length indices.now }
    requires bounded { All (IsWithin coefficient_bits) values.now }
    ensures { IfOk result (λ lines. IsText qubits weight indices.now values.now lines) }
{
    let mut text = Vec::new(alloc);
    for (i, index) in indices.iter().enumerate() {
        let value = reduce(&values[i], weight);
        print_line(alloc, &mut text, *index, qubits, &value)?;
    }
    Ok(Lines::of(text))
}
