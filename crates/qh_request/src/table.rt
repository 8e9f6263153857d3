//! The cheapest cut: its table, which is told before the run, and the part 1 that it gives.
ghost use Rattle.std.specs.Prelude.{◌≡◌, ◌≤◌, ◌⊎◌, ℕ, true, false, IfOk, IfErr, OnErr, All};
ghost use Rattle.qh_plan.specs.Plans.{AreBits};
ghost use Rattle.qh_planner.specs.Cuts.{first_qubits};
ghost use Rattle.qh_planner.specs.Choice.{IsCheapest, IsRefused};
ghost use Rattle.qh_planner.specs.Spelling.{table_text};
ghost use Rattle.qh_request.specs.Seen.{seen};
ghost use Rattle.qh_request.specs.Stops.{message_of, Says};
ghost use Rattle.qh_request.specs.Chosen.{is_auto, asks_auto, IsTableBy};
ghost use Rattle.qh_request.specs.Outcomes.{IsSaid};

use crate::{Refusal, Stop, say, tell};
use qh_gates::Circuit;
use qh_io::Sink;
use qh_planner::{CutRow, cheapest, cut_table, print_table};
use qh_words::Options;
use std::alloc::{AllocError, Global};

/// Whether this text of part 1 asks for the cheapest cut.
pub fn is_auto(part: &str) -> bool
    ensures { result ≡ is_auto part.now }
{
    part == "auto"
}

/// Whether the options ask for the cheapest cut.
fn asks_auto(options: &Options) -> bool
    ensures { result ≡ asks_auto options.now.part }
{
    match &options.part {
        None => false,
        Some(part) => is_auto(part.as_str()),
    }
}

/// The table of all cuts where the cheapest is asked for, and else no row.
fn table_of(
    alloc: Global,
    options: &Options,
    circuit: &Circuit,
    indices: &[u64],
) -> Result<Vec<CutRow>, AllocError>
    requires { AreBits circuit.now.qubits indices.now }
    ensures { IfOk result (λ rows. IsTableBy (asks_auto options.now.part) options.now circuit.now indices.now rows.items) }
{
    if asks_auto(options) {
        cut_table(alloc, circuit, options.p, options.r, options.w, indices)
    } else {
        Ok(Vec::new(alloc))
    }
}

/// Makes the table, and tells it where the cheapest cut is asked for. `whole` tells whether the error sink took all of it.
pub fn tell_table<E: Sink>(
    alloc: Global,
    options: &Options,
    circuit: &Circuit,
    indices: &[u64],
    err: &mut E,
    whole: &mut bool,
) -> Result<Vec<CutRow>, AllocError>
    requires bits { AreBits circuit.now.qubits indices.now }
    requires still { whole.old ≡ true }
    ensures table { IfOk result (λ rows. IsTableBy (asks_auto options.now.part) options.now circuit.now indices.now rows.items) }
    ensures said { IfOk result (λ rows. IsSaid (seen E.held E.faults err.old err.new) whole.new (table_text rows.items)) }
    ensures quiet { asks_auto options.now.part ≡ false → (err.new ≡ err.old) × (whole.new ≡ true) }
    ensures later { E.faults err.old ≤ E.faults err.new }
    ensures unsaid { OnErr result ((err.new ≡ err.old) × (whole.new ≡ true)) }
{
    let Ok(rows) = table_of(alloc, options, circuit, indices) else {
        return Err(AllocError);
    };
    if !asks_auto(options) {
        return Ok(rows);
    }
    let Ok(text) = print_table(alloc, &rows) else {
        return Err(AllocError);
    };
    *whole = say(err, &text);
    Ok(rows)
}

/// The qubits below m, for the size m of the cheapest cut of a table.
pub fn cheapest_part(alloc: Global, rows: &[CutRow]) -> Result<Vec<u32>, Stop>
    ensures items { IfOk result (λ items. (m : ℕ) × (cost : ℕ) × IsCheapest rows.now m cost × (items.items ≡ first_qubits m)) }
    ensures cause { IfErr result (λ stop. (stop ≡ Stop.Memory) ⊎ ((stop ≡ Stop.Refused Refusal.NoCut) × All IsRefused rows.now)) }
{
    let Some(size) = cheapest(rows) else {
        return Err(Stop::Refused(Refusal::NoCut));
    };
    match first_qubits(alloc, size) {
        Ok(items) => Ok(items),
        Err(_) => Err(Stop::Memory),
    }
}

/// The qubits below `size`, in order.
fn first_qubits(alloc: Global, size: u32) -> Result<Vec<u32>, AllocError>
    ensures { IfOk result (λ items. items.items ≡ first_qubits size) }
{
    let mut items = Vec::new(alloc);
    for qubit in 0..size {
        items.push(qubit)?;
    }
    Ok(items)
}

/// Tells the line of a stop behind what was told before, where the error sink took all of that.
pub fn tell_on<E: Sink>(err: &mut E, stop: Stop, whole: bool)
    ensures told { whole ≡ true → Says (seen E.held E.faults err.old err.new) (message_of stop) }
    ensures silent { whole ≡ false → err.new ≡ err.old }
    ensures later { E.faults err.old ≤ E.faults err.new }
{
    if whole {
        tell(err, stop);
    }
}
