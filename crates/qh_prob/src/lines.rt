//! The lines of the probabilities that are asked for.
ghost use Rattle.std.specs.Prelude.{◌≡◌, ◌≤◌, ◌<◌, ◌^◌, IfOk, All};
ghost use Rattle.qh_limits.specs.Limits.{max_uncut_qubits, max_weight};
ghost use Rattle.qh_gates.specs.Circuits.{total_weight};
ghost use Rattle.qh_prob.specs.Probability.{probabilities};
ghost use Rattle.qh_prob.specs.Texts.{AreProbLines};

use crate::form::least;
use crate::print::print_prob;
use crate::prob::Prob;
use qh_gates::Circuit;
use std::alloc::{AllocError, Global};

/// A line `bits P Q k` for each basis index, in their order, with its probability in least form.
///
/// `probs` are all probabilities of the circuit, which has at most 16 qubits and a weight of at most 120. The indices
/// are below 2^qubits, and one may stand more than once. An Err is want of memory.
pub fn prob_lines(
    alloc: Global,
    circuit: &Circuit,
    indices: &[u64],
    probs: &[Prob],
) -> Result<Vec<u8>, AllocError>
    requires narrow { circuit.now.qubits ≤ max_uncut_qubits }
    requires shallow { total_weight circuit.now.gates ≤ max_weight }
    requires below { All (λ x. x < 2 ^ circuit.now.qubits) indices.now }
    requires exact { probs.now ≡ probabilities circuit.now }
    ensures { IfOk result (λ text. AreProbLines circuit.now indices.now text.items) }
{
    let qubits = circuit.qubits();
    let weight = circuit.weight();
    let mut text = Vec::new(alloc);
    for index in indices {
        let (prob, k) = least(&probs[*index as usize], weight);
        print_prob(alloc, &mut text, *index, qubits, &prob, k)?;
    }
    Ok(text)
}
