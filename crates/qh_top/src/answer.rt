//! The text that a request asks for.
ghost use Rattle.std.specs.Prelude.{◌≡◌, ◌≢◌, ◌≤◌, ◌<◌, ◌++◌, ◌⊎◌, [], true, false, Some, None, decimal, IfOk, IfErr, OnOk, IsSomeAnd, length, map, All};
ghost use Rattle.qh_ring.specs.Numbers.{IsWithin};
ghost use Rattle.qh_ring.specs.States.{at_index, listed};
ghost use Rattle.qh_limits.specs.Limits.{max_uncut_qubits, max_weight, coefficient_bits};
ghost use Rattle.qh_gates.specs.Circuits.{total_weight};
ghost use Rattle.qh_gates.specs.Evolution.{uncut, NeverOver};
ghost use Rattle.qh_uncut.specs.Faults.{IsCause};
ghost use Rattle.qh_plan.specs.Plans.{AreBits};
ghost use Rattle.qh_prob.specs.Probability.{probabilities};
ghost use Rattle.qh_request.specs.Chosen.{asks_auto, IsTableBy};
ghost use Rattle.qh_request.specs.Answer.{gen_line, head_text};
ghost use Rattle.qh_request.specs.Indexed.{IsUncutText, IsProbText, IsWholeText, IsIndexedBy};
ghost use Rattle.qh_request.specs.Request.{EndsEarly, HeardOf};
ghost use Rattle.qh_request.specs.Stops.{status_of};
ghost use Rattle.qh_request.specs.Parts.{UncutMayStop, AnswerMayStop, AnswerMoves};

use crate::cut::cut_answer;
use qh_disk::Disk;
use qh_gates::Circuit;
use qh_lease::Timer;
use qh_limits::MAX_WEIGHT;
use qh_plan::check_uncut;
use qh_planner::CutRow;
use qh_print::{Lines, lines_of};
use qh_prob::{Prob, all_probabilities, prob_lines};
use qh_request::{Refusal, Stop};
use qh_ring::Omega;
use qh_text::push_word;
use qh_uncut::{UncutFault, evolve};
use qh_words::{GenSize, Options};
use std::alloc::{AllocError, Global};

/// The numbers at these indices of a list.
fn values_at(alloc: Global, numbers: &[Omega], indices: &[u64]) -> Result<Vec<Omega>, AllocError>
    requires below { All (λ x. x < length numbers.now) indices.now }
    requires bounded { All (IsWithin coefficient_bits) numbers.now }
    ensures values { IfOk result (λ v. v.items ≡ map (at_index numbers.now) indices.now) }
    ensures within { IfOk result (λ v. All (IsWithin coefficient_bits) v.items) }
{
    let mut values = Vec::new(alloc);
    for index in indices {
        values.push(numbers[*index as usize])?;
    }
    Ok(values)
}

/// The amplitudes of an uncut circuit at these indices, of its state.
fn state_values(
    alloc: Global,
    circuit: &Circuit,
    state: &[Omega],
    indices: &[u64],
) -> Result<Vec<Omega>, AllocError>
    requires bits { AreBits circuit.now.qubits indices.now }
    requires exact { state.now ≡ listed circuit.now.qubits (uncut circuit.now.gates) }
    requires bounded { All (IsWithin coefficient_bits) state.now }
    ensures values { IfOk result (λ v. v.items ≡ map (uncut circuit.now.gates) indices.now) }
    ensures within { IfOk result (λ v. All (IsWithin coefficient_bits) v.items) }
{
    values_at(alloc, state, indices)
}

/// The first line of a generated circuit.
#[tactic(auto, unfolding(qh_request::specs::Answer::gen_line))]
fn gen_line(
    alloc: Global,
    circuit: &Circuit,
    crossing: u32,
    ranges: u32,
) -> Result<Vec<u8>, AllocError>
    ensures { IfOk result (λ text. text.items ≡ gen_line circuit.now crossing ranges) }
{
    let mut text = Vec::new(alloc);
    text.extend_from_slice(b"gen")?;
    push_word(&mut text, circuit.qubits())?;
    push_word(&mut text, circuit.gates().len() as u32)?;
    push_word(&mut text, circuit.weight())?;
    push_word(&mut text, crossing)?;
    push_word(&mut text, ranges)?;
    text.push(b'\n')?;
    Ok(text)
}

/// The whole text: the first line where the circuit is generated, and the lines of the amplitudes.
pub(crate) fn with_head(
    alloc: Global,
    generated: Option<GenSize>,
    circuit: &Circuit,
    crossing: u32,
    ranges: u32,
    lines: &Lines,
) -> Result<Vec<u8>, Stop>
    ensures text { IfOk result (λ text. text.items ≡ head_text generated circuit.now crossing ranges ++ lines.now) }
    ensures err { IfErr result (λ stop. stop ≡ Stop.Memory) }
{
    let head = match generated {
        None => Ok(Vec::new(alloc)),
        Some(_) => gen_line(alloc, circuit, crossing, ranges),
    };
    let Ok(mut text) = head else {
        return Err(Stop::Memory);
    };
    match text.extend_from_slice(lines.as_bytes()) {
        Ok(()) => Ok(text),
        Err(_) => Err(Stop::Memory),
    }
}

/// The text of a circuit that is not cut, of the state with which its evolution ended.
pub(crate) fn state_text(
    alloc: Global,
    generated: Option<GenSize>,
    circuit: &Circuit,
    indices: &[u64],
    state: Result<Vec<Omega>, UncutFault>,
) -> Result<Vec<u8>, Stop>
    requires bits { AreBits circuit.now.qubits indices.now }
    requires narrow { circuit.now.qubits ≤ max_uncut_qubits }
    requires exact { IfOk state (λ v. v.items ≡ listed circuit.now.qubits (uncut circuit.now.gates)) }
    requires bounded { IfOk state (λ v. All (IsWithin coefficient_bits) v.items) }
    requires never { OnOk state (NeverOver circuit.now) }
    requires cause { IfErr state (IsCause circuit.now) }
    ensures answer { IfOk result (λ text. IsUncutText generated circuit.now indices.now text.items) }
    ensures cause { IfErr result (UncutMayStop false circuit.now) }
{
    let state = match state {
        Ok(state) => state,
        Err(UncutFault::Over { gate }) => return Err(Stop::OverflowGate(gate)),
        Err(UncutFault::Memory) => return Err(Stop::Memory),
    };
    let Ok(values) = state_values(alloc, circuit, &state, indices) else {
        return Err(Stop::Memory);
    };
    let Ok(lines) = lines_of(alloc, circuit.qubits(), circuit.weight(), indices, &values) else {
        return Err(Stop::Memory);
    };
    with_head(alloc, generated, circuit, 0, 0, &lines)
}

/// That the weight of a circuit is at most 120, so that its probabilities can be computed.
pub(crate) fn check_prob(circuit: &Circuit) -> Result<(), Stop>
    ensures shallow { OnOk result (total_weight circuit.now.gates ≤ max_weight) }
    ensures deep { IfErr result (λ stop. (max_weight < total_weight circuit.now.gates) × (stop ≡ Stop.Refused (Refusal.ProbTooDeep (total_weight circuit.now.gates)))) }
{
    let weight = circuit.weight();
    if weight > MAX_WEIGHT {
        return Err(Stop::Refused(Refusal::ProbTooDeep { weight }));
    }
    Ok(())
}

/// The text of a circuit's probabilities at these indices, of all its probabilities.
pub(crate) fn prob_text(
    alloc: Global,
    generated: Option<GenSize>,
    circuit: &Circuit,
    indices: &[u64],
    probs: Result<Vec<Prob>, AllocError>,
) -> Result<Vec<u8>, Stop>
    requires bits { AreBits circuit.now.qubits indices.now }
    requires narrow { circuit.now.qubits ≤ max_uncut_qubits }
    requires shallow { total_weight circuit.now.gates ≤ max_weight }
    requires exact { IfOk probs (λ v. v.items ≡ probabilities circuit.now) }
    ensures answer { IfOk result (λ text. IsProbText generated circuit.now indices.now text.items) }
    ensures err { IfErr result (λ stop. stop ≡ Stop.Memory) }
{
    let Ok(probs) = probs else {
        return Err(Stop::Memory);
    };
    let Ok(bytes) = prob_lines(alloc, circuit, indices, &probs) else {
        return Err(Stop::Memory);
    };
    let lines = Lines::of(bytes);
    with_head(alloc, generated, circuit, 0, 0, &lines)
}

/// The text of the probabilities of a circuit of at most 16 qubits.
fn prob_answer(
    alloc: Global,
    generated: Option<GenSize>,
    circuit: &Circuit,
    indices: &[u64],
) -> Result<Vec<u8>, Stop>
    requires bits { AreBits circuit.now.qubits indices.now }
    requires narrow { circuit.now.qubits ≤ max_uncut_qubits }
    ensures answer { IfOk result (λ text. IsProbText generated circuit.now indices.now text.items) }
    ensures cause { IfErr result (UncutMayStop true circuit.now) }
{
    if let Err(stop) = check_prob(circuit) {
        return Err(stop);
    }
    let probs = all_probabilities(alloc, circuit);
    prob_text(alloc, generated, circuit, indices, probs)
}

/// The text of the amplitudes of a circuit of at most 16 qubits.
fn amplitude_answer(
    alloc: Global,
    generated: Option<GenSize>,
    circuit: &Circuit,
    indices: &[u64],
) -> Result<Vec<u8>, Stop>
    requires bits { AreBits circuit.now.qubits indices.now }
    requires narrow { circuit.now.qubits ≤ max_uncut_qubits }
    ensures answer { IfOk result (λ text. IsUncutText generated circuit.now indices.now text.items) }
    ensures cause { IfErr result (UncutMayStop false circuit.now) }
{
    let state = evolve(alloc, circuit);
    state_text(alloc, generated, circuit, indices, state)
}

/// The text of a circuit that is not cut: its probabilities, or its amplitudes.
pub(crate) fn uncut_answer(
    alloc: Global,
    prob: bool,
    generated: Option<GenSize>,
    circuit: &Circuit,
    indices: &[u64],
) -> Result<Vec<u8>, Stop>
    requires { AreBits circuit.now.qubits indices.now }
    ensures answer { IfOk result (λ text. IsWholeText prob generated circuit.now indices.now text.items) }
    ensures cause { IfErr result (UncutMayStop prob circuit.now) }
{
    if let Err(fault) = check_uncut(circuit) {
        return Err(Stop::of_plan(fault));
    }
    if prob {
        prob_answer(alloc, generated, circuit, indices)
    } else {
        amplitude_answer(alloc, generated, circuit, indices)
    }
}

/// The text that the options ask for of a circuit at these indices. Only a circuit that is cut calls on a disk.
pub(crate) fn answer<D: Disk, F: Disk, T: Timer>(
    alloc: Global,
    options: &Options,
    circuit: Circuit,
    indices: Vec<u64>,
    rows: &[CutRow],
    disk: &mut D,
    old: &mut F,
    timer: &mut T,
) -> Result<Vec<u8>, Stop>
    requires bits { AreBits circuit.qubits indices.items }
    requires table { IsTableBy (asks_auto options.now.part) options.now circuit indices.items rows.now }
    ensures answer { IfOk result (λ text. IsIndexedBy options.now.part options.now (D.face disk.old) (D.face disk.new) (F.face old.old) (HeardOf (T.granted_count timer.old) (T.granted_count timer.new)) circuit indices.items text.items) }
    ensures cause { IfErr result (AnswerMayStop options.now.part options.now circuit indices.items (D.face disk.old) (D.face disk.new) (F.face old.old) (F.face old.new) (HeardOf (T.granted_count timer.old) (T.granted_count timer.new))) }
    ensures moves { ((disk.new ≡ disk.old) × (old.new ≡ old.old)) ⊎ AnswerMoves options.now.part options.now circuit indices.items (D.face disk.old) (D.face disk.new) (F.face old.old) (F.face old.new) }
    ensures alone { IfErr result (λ stop. EndsEarly (status_of stop) → (disk.new ≡ disk.old) × (old.new ≡ old.old)) }
    ensures old_unasked { (options.now.from ≡ None) ⊎ ((options.now.fresh ≡ false) × IsSomeAnd (D.face disk.old).content (λ f. f ≢ [])) → old.new ≡ old.old }
    ensures loans { D.loans disk.new ≡ D.loans disk.old }
    ensures old_loans { F.loans old.new ≡ F.loans old.old }
{
    match &options.part {
        None => uncut_answer(alloc, options.prob, options.generated, &circuit, &indices),
        Some(part) => cut_answer(
            alloc,
            options,
            part.as_str(),
            circuit,
            indices,
            rows,
            disk,
            old,
            timer,
        ),
    }
}
