//! Merges journals.
ghost use Rattle.std.specs.Prelude.{◌≡◌, ◌+◌, ◌<◌, ◌≤◌, OnOk, IfOk, IfErr, length};
ghost use Rattle.qh_limits.specs.Limits.{max_inputs};
ghost use Rattle.qh_merge.specs.Inputs.{AllLook};
ghost use Rattle.qh_merge.specs.Gathered.{state_of};
ghost use Rattle.qh_merge.specs.Laws.{AllMade, IsExact};
ghost use Rattle.qh_merge.specs.Merging.{IsMerged, MergeMayFail};
ghost use Rattle.qh_merge.specs.Parts.{IsAnswered, IsProgress, IsSound};

use crate::adding::add_at;
use crate::compare::{compare, fault_at};
use crate::family::check;
use crate::fault::MergeFault;
use crate::gather::{Gathered, add_new, first_missing, list, place_of, start};
use crate::input::{Taken, read_at};
use qh_disk::Disk;
use qh_print::{Lines, lines_of};
use std::alloc::{AllocError, Global};

/// What merged journals answer: the lines of the asked amplitudes, or the least path that is over.
#[derive(Drop)]
pub enum Merged {
    Lines(Lines),
    Overflow { path: u64 },
}

/// Takes the first input.
#[tactic(none)]
fn begin<D: Disk>(alloc: Global, disks: &mut [D]) -> Result<Gathered, MergeFault>
    requires { 0 < length disks.old }
    ensures kept { IfOk result (λ g. IsProgress D.face disks.new 1 (state_of g)) }
    ensures fault { IfErr result (λ u. MergeMayFail D.face u disks.old disks.new) }
    ensures looks { AllLook D.face D.loans disks.old disks.new }
{
    let input = match read_at(alloc, disks, 0) {
        Ok(input) => input,
        Err(fault) => return Err(fault_at(0, fault)),
    };
    let prefix = match check(&input.job, 0, &input) {
        Ok(prefix) => prefix,
        Err(fault) => return Err(fault),
    };
    let Taken { job, table } = input;
    let Ok(mut gathered) = start(alloc, job) else {
        return Err(MergeFault::Memory);
    };
    let Ok(()) = add_new(&mut gathered, prefix, table.as_slice()) else {
        return Err(MergeFault::Memory);
    };
    Ok(gathered)
}

/// Takes the input of a place behind the first, whatever prefix value it has. Its slots are read before the first of them is added.
#[tactic(none)]
fn take_known<D: Disk>(
    alloc: Global,
    disks: &mut [D],
    place: usize,
    gathered: &mut Gathered,
) -> Result<(), MergeFault>
    requires place { place < length disks.old }
    requires behind { 0 < place }
    requires few { length disks.old ≤ max_inputs }
    requires kept { IsProgress D.face disks.old place (state_of gathered.old) }
    ensures kept { OnOk result (IsProgress D.face disks.new (place + 1) (state_of gathered.new)) }
    ensures fault { IfErr result (λ u. MergeMayFail D.face u disks.old disks.new) }
    ensures looks { AllLook D.face D.loans disks.old disks.new }
{
    let input = match read_at(alloc, disks, place) {
        Ok(input) => input,
        Err(fault) => return Err(fault_at(place as u32, fault)),
    };
    let prefix = match check(&gathered.job, place as u32, &input) {
        Ok(prefix) => prefix,
        Err(fault) => return Err(fault),
    };
    let Some(first) = place_of(gathered.prefixes.as_slice(), prefix) else {
        let Ok(()) = add_new(gathered, prefix, input.table.as_slice()) else {
            return Err(MergeFault::Memory);
        };
        return Ok(());
    };
    match compare(alloc, disks, first, &gathered.job, prefix, input) {
        Ok(()) => {}
        Err(fault) => return Err(fault),
    }
    let Ok(()) = list(gathered, prefix) else {
        return Err(MergeFault::Memory);
    };
    Ok(())
}

/// Takes the input of a place behind the first: one with a new prefix value is added slot by slot, and another, or one that is not finished, is then
/// read whole.
fn take_input<D: Disk>(
    alloc: Global,
    disks: &mut [D],
    place: usize,
    gathered: &mut Gathered,
) -> Result<(), MergeFault>
    requires place { place < length disks.old }
    requires behind { 0 < place }
    requires few { length disks.old ≤ max_inputs }
    requires kept { IsProgress D.face disks.old place (state_of gathered.old) }
    ensures kept { OnOk result (IsProgress D.face disks.new (place + 1) (state_of gathered.new)) }
    ensures fault { IfErr result (λ u. MergeMayFail D.face u disks.old disks.new) }
    ensures looks { AllLook D.face D.loans disks.old disks.new }
{
    let added = match add_at(alloc, disks, place, gathered) {
        Ok(added) => added,
        Err(fault) => return Err(fault_at(place as u32, fault)),
    };
    if added {
        return Ok(());
    }
    take_known(alloc, disks, place, gathered)
}

/// Takes all inputs.
#[tactic(none)]
fn take_all<D: Disk>(alloc: Global, disks: &mut [D]) -> Result<Gathered, MergeFault>
    requires some { 0 < length disks.old }
    requires few { length disks.old ≤ max_inputs }
    ensures kept { IfOk result (λ g. IsProgress D.face disks.new (length disks.new) (state_of g)) }
    ensures fault { IfErr result (λ u. MergeMayFail D.face u disks.old disks.new) }
    ensures looks { AllLook D.face D.loans disks.old disks.new }
{
    let mut gathered = match begin(alloc, disks) {
        Ok(gathered) => gathered,
        Err(fault) => return Err(fault),
    };
    for place in 1..disks.len() {
        match take_input(alloc, disks, place, &mut gathered) {
            Ok(()) => {}
            Err(fault) => return Err(fault),
        }
    }
    Ok(gathered)
}

/// The answer of what is gathered.
fn answer(alloc: Global, gathered: &Gathered) -> Result<Merged, AllocError>
    requires { IsSound (state_of gathered.now) }
    ensures { IfOk result (IsAnswered (state_of gathered.now)) }
{
    if let Some(path) = gathered.over {
        return Ok(Merged::Overflow { path });
    }
    let circuit = gathered.job.circuit();
    let lines = lines_of(
        alloc,
        circuit.qubits(),
        circuit.weight(),
        gathered.job.bits(),
        gathered.sums.as_slice(),
    )?;
    Ok(Merged::Lines(lines))
}

/// Merges the finished journals of all prefix values of one circuit, cut, split and list of bitstrings, in any order; a
/// journal may come twice. It makes what it reads safe, and writes nothing.
///
/// Of the faults the first that applies is answered, input by input.
#[tactic(none)]
pub fn merge<D: Disk>(alloc: Global, disks: &mut [D]) -> Result<Merged, MergeFault>
    requires { length disks.old ≤ max_inputs }
    // The union: the lines are those of the total of all inputs' slots, and Overflow names its path. Where each disk
    // tells what it reads as, and runs of the job that it names made this, they are those of the whole circuit.
    ensures merged { IfOk result (IsMerged D.face disks.new) }
    ensures exact { AllMade D.face disks.new → IfOk result (IsExact D.face disks.new) }

    // Each fault comes where it applies, and no earlier one does.
    ensures fault { IfErr result (λ u. MergeMayFail D.face u disks.old disks.new) }
    ensures looks { AllLook D.face D.loans disks.old disks.new }
{
    if disks.is_empty() {
        return Err(MergeFault::NoInput);
    }
    let gathered = match take_all(alloc, disks) {
        Ok(gathered) => gathered,
        Err(fault) => return Err(fault),
    };
    if let Some(prefix) = first_missing(gathered.prefixes.as_slice(), gathered.job.prefixes()) {
        return Err(MergeFault::Missing { prefix });
    }
    match answer(alloc, &gathered) {
        Ok(merged) => Ok(merged),
        Err(_) => Err(MergeFault::Memory),
    }
}
