//! How many bytes a job's text has.
ghost use Rattle.std.specs.Prelude.{◌≡◌, ◌++◌, IfOk, OnOk};
ghost use Rattle.qh_planner.specs.Counts.{loose_text, prefix_word};

use qh_circuit::print_circuit;
use qh_gates::Circuit;
use qh_text::push_word;
use std::alloc::{AllocError, Global};

/// The words and lines of a job's text that hang on the circuit, the split, the prefix value and the number of
/// bitstrings, in another order.
pub(crate) fn loose_text(
    alloc: Global,
    circuit: &Circuit,
    p: u32,
    r: u32,
    prefix: Option<u32>,
    bits: &[u64],
) -> Result<Vec<u8>, AllocError>
    ensures { IfOk result (λ t. t.items ≡ loose_text circuit.now p r prefix bits.now) }
{
    let mut text = print_circuit(alloc, circuit)?;
    push_word(&mut text, p)?;
    push_word(&mut text, r)?;
    push_prefix(&mut text, prefix)?;
    push_word(&mut text, bits.len())?;
    push_word(&mut text, circuit.gates().len())?;
    Ok(text)
}

/// Appends which prefix values the run sums.
fn push_prefix(text: &mut Vec<u8>, prefix: Option<u32>) -> Result<(), AllocError>
    ensures { OnOk result (text.new.items ≡ text.old.items ++ prefix_word prefix) }
{
    match prefix {
        None => text.extend_from_slice(b" all"),
        Some(value) => push_word(text, value),
    }
}
