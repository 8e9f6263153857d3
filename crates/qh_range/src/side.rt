//! What an evaluation keeps of one part.
ghost use Rattle.std.specs.Prelude.{◌≡◌, ◌+◌, ◌<◌, ◌^◌, ◌↔◌, All, IfOk, IfSome, IsNone, IsSome, IsTrue, length};
ghost use Rattle.std.specs.List.{AllZip};
ghost use Rattle.qh_limits.specs.Limits.{coefficient_bits};
ghost use Rattle.qh_ring.specs.Numbers.{IsWithin};
ghost use Rattle.qh_ring.specs.States.{at_index};
ghost use Rattle.qh_prefix.specs.Places.{IsPlacedIn, operations, term_counts};
ghost use Rattle.qh_prefix.specs.Runs.{IsAfter};
ghost use Rattle.qh_range.specs.Sides.{IsSide, end_of};

use qh_half::{Half, Steps};
use qh_plan::Job;
use qh_prefix::{Part, Placed, Stage, local_indices, part_width, place_stage, run_placed};
use qh_ring::Omega;
use std::alloc::{AllocError, Global};
use std::sync::ledger::Ledger;

/// One part of a job as its ranges run: the gates of the root and of the suffix that act in it, the half at the root of a
/// range, in which each of its paths begins, the half that runs, and the asked bitstrings within the part.
#[derive(Drop)]
pub(crate) struct Side {
    pub(crate) root_gates: Vec<Placed>,
    pub(crate) gates: Vec<Placed>,
    pub(crate) root: Half,
    pub(crate) half: Half,
    pub(crate) indices: Vec<u32>,
}

/// Places the gates and takes the memory of a part.
fn new_side(alloc: Global, job: &Job, part: Part) -> Result<Side, AllocError>
    ensures { IfOk result (λ s. IsSide part job.now s) }
{
    let root_gates = place_stage(alloc, job, part, Stage::Root)?;
    let gates = place_stage(alloc, job, part, Stage::Suffix)?;
    let qubits = part_width(job, part);
    let root = Half::ground(alloc, qubits)?;
    let half = Half::ground(alloc, qubits)?;
    let indices = local_indices(alloc, job, part)?;
    Ok(Side {
        root_gates,
        gates,
        root,
        half,
        indices,
    })
}

/// The same in memory of its own, so that a side is moved and given back as one.
pub(crate) fn boxed_side(alloc: Global, job: &Job, part: Part) -> Result<Box<Side>, AllocError>
    ensures { IfOk result (λ s. IsSide part job.now s.value) }
{
    let side = new_side(alloc, job, part)?;
    Ok(Box::new(alloc, side)?)
}

/// Brings the half at the root from a half at the prefix along these digits, one step for each placed gate of the root.
pub(crate) fn run_root<L: Ledger>(side: &mut Side, from: &Half, digits: &[u8], steps: &mut Steps<L>)
    requires size { side.old.root.qubits ≡ from.now.qubits }
    requires fit { All (IsPlacedIn side.old.root.qubits) side.old.root_gates.items }
    requires path { AllZip (λ d r. d < r) digits.now (term_counts side.old.root_gates.items) }
    ensures kept { side.new ≡ record side.old { root = side.new.root } }
    ensures size { side.new.root.qubits ≡ side.old.root.qubits }
    ensures after { IsAfter side.old.root.qubits (operations side.old.root_gates.items digits.now) from.now.numbers side.new.root.numbers }
    ensures step { steps.new ≡ steps.old + length side.old.root_gates.items }
{
    side.root.copy_from(from);
    run_placed(&mut side.root, &side.root_gates, digits, steps);
}

/// The half with which a path ends that ran: the half at the root itself where no gate of the suffix acts in the part.
fn end_of(side: &Side) -> &Half
    ensures { result.now ≡ end_of side.now }
{
    if side.gates.is_empty() {
        &side.root
    } else {
        &side.half
    }
}

/// Whether a path that ran is over in the part.
pub(crate) fn is_over(side: &Side) -> bool
    ensures value { IsTrue result ↔ IsNone (end_of side.now).numbers }
{
    end_of(side).is_over()
}

/// The number at an index after a path that ran and is not over.
pub(crate) fn number_at(side: &Side, index: u32) -> Omega
    requires held { IsSome (end_of side.now).numbers }
    requires index { index < 2 ^ (end_of side.now).qubits }
    ensures value { IfSome (end_of side.now).numbers (λ v. result ≡ at_index v index) }
    ensures bounded { IsWithin coefficient_bits result }
{
    end_of(side).at(index)
}

/// Runs the half that runs from the root along these digits, one step for each placed gate of the suffix.
fn run_copy<L: Ledger>(side: &mut Side, digits: &[u8], steps: &mut Steps<L>)
    requires size { side.old.root.qubits ≡ side.old.half.qubits }
    requires fit { All (IsPlacedIn side.old.half.qubits) side.old.gates.items }
    requires path { AllZip (λ d r. d < r) digits.now (term_counts side.old.gates.items) }
    ensures kept { side.new ≡ record side.old { half = side.new.half } }
    ensures size { side.new.half.qubits ≡ side.old.half.qubits }
    ensures after { IsAfter side.old.half.qubits (operations side.old.gates.items digits.now) side.old.root.numbers side.new.half.numbers }
    ensures step { steps.new ≡ steps.old + length side.old.gates.items }
{
    side.half.copy_from(&side.root);
    run_placed(&mut side.half, &side.gates, digits, steps);
}

/// Runs a path from the root along these digits, one step for each placed gate of the suffix. Without such gates nothing is copied.
pub(crate) fn run_half<L: Ledger>(side: &mut Side, digits: &[u8], steps: &mut Steps<L>)
    requires size { side.old.root.qubits ≡ side.old.half.qubits }
    requires fit { All (IsPlacedIn side.old.half.qubits) side.old.gates.items }
    requires path { AllZip (λ d r. d < r) digits.now (term_counts side.old.gates.items) }
    ensures kept { side.new ≡ record side.old { half = side.new.half } }
    ensures size { side.new.half.qubits ≡ side.old.half.qubits }
    ensures after { IsAfter side.old.half.qubits (operations side.old.gates.items digits.now) side.old.root.numbers (end_of side.new).numbers }
    ensures step { steps.new ≡ steps.old + length side.old.gates.items }
{
    if side.gates.is_empty() {
        return;
    }
    run_copy(side, digits, steps);
}
