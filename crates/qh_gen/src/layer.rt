//! The gates of one time.
ghost use Rattle.std.specs.Prelude.{◌≡◌, ◌≤◌, ◌<◌, ◌*◌, ◌∷◌, [], OnOk, IfOk, length};
ghost use Rattle.qh_gates.specs.Circuits.{IsCircuit};
ghost use Rattle.qh_gen.specs.Drawings.{drawn_gates, state_after};
ghost use Rattle.qh_gen.specs.Grids.{alone_among, alone_at, hadamards_at, pairs_among, pairs_at, pattern_at, with_gates};

use crate::draw::{drawn_kind, next_state};
use crate::grid::Grid;
use qh_gates::{Circuit, Gate, Kind};
use std::alloc::AllocError;

/// The pattern of a time from 1 on.
fn pattern_at(time: u32) -> u32
    requires { 1 ≤ time }
    ensures { result ≡ pattern_at time }
{
    (time - 1) % 4
}

/// Appends `h` on each qubit.
pub(crate) fn push_hadamards(
    circuit: &mut Circuit,
    grid: &Grid,
    time: u32,
) -> Result<(), AllocError>
    requires { IsCircuit (with_gates circuit.old (hadamards_at grid.now.rows grid.now.cols time)) }
    ensures { OnOk result (circuit.new ≡ with_gates circuit.old (hadamards_at grid.now.rows grid.now.cols time)) }
{
    for qubit in 0..grid.qubits() {
        circuit.push(Gate {
            time,
            kind: Kind::H,
            q0: qubit,
            q1: qubit,
        })?;
    }
    Ok(())
}

/// Appends the pair whose lower qubit this is, if it is one.
fn push_pair(circuit: &mut Circuit, grid: &Grid, time: u32, qubit: u32) -> Result<(), AllocError>
    requires time { 1 ≤ time }
    requires qubit { qubit < grid.now.rows * grid.now.cols }
    requires fits { IsCircuit (with_gates circuit.old (pairs_among grid.now.rows grid.now.cols time (qubit ∷ []))) }
    ensures { OnOk result (circuit.new ≡ with_gates circuit.old (pairs_among grid.now.rows grid.now.cols time (qubit ∷ []))) }
{
    let pattern = pattern_at(time);
    if !grid.is_lower(pattern, qubit) {
        return Ok(());
    }
    circuit.push(Gate {
        time,
        kind: Kind::Cz,
        q0: qubit,
        q1: qubit + grid.distance(pattern),
    })
}

/// Appends the pairs of a time.
pub(crate) fn push_pairs(circuit: &mut Circuit, grid: &Grid, time: u32) -> Result<(), AllocError>
    requires time { 1 ≤ time }
    requires fits { IsCircuit (with_gates circuit.old (pairs_at grid.now.rows grid.now.cols time)) }
    ensures { OnOk result (circuit.new ≡ with_gates circuit.old (pairs_at grid.now.rows grid.now.cols time)) }
{
    for qubit in 0..grid.qubits() {
        push_pair(circuit, grid, time, qubit)?;
    }
    Ok(())
}

/// Appends a drawn gate on the qubit, if it is in no pair, and answers the generator's state after that.
fn push_drawn(
    circuit: &mut Circuit,
    grid: &Grid,
    time: u32,
    qubit: u32,
    state: u64,
) -> Result<u64, AllocError>
    requires time { 1 ≤ time }
    requires qubit { qubit < grid.now.rows * grid.now.cols }
    requires fits { IsCircuit (with_gates circuit.old (drawn_gates time state (alone_among grid.now.rows grid.now.cols time (qubit ∷ [])))) }
    ensures gates { OnOk result (circuit.new ≡ with_gates circuit.old (drawn_gates time state (alone_among grid.now.rows grid.now.cols time (qubit ∷ [])))) }
    ensures state { IfOk result (λ s. s ≡ state_after (length (alone_among grid.now.rows grid.now.cols time (qubit ∷ []))) state) }
{
    if !grid.is_alone(pattern_at(time), qubit) {
        return Ok(state);
    }
    let next = next_state(state);
    circuit.push(Gate {
        time,
        kind: drawn_kind(next),
        q0: qubit,
        q1: qubit,
    })?;
    Ok(next)
}

/// Appends the drawn gates of a time, and answers the generator's state after them.
pub(crate) fn push_all_drawn(
    circuit: &mut Circuit,
    grid: &Grid,
    time: u32,
    start: u64,
) -> Result<u64, AllocError>
    requires time { 1 ≤ time }
    requires fits { IsCircuit (with_gates circuit.old (drawn_gates time start (alone_at grid.now.rows grid.now.cols time))) }
    ensures gates { OnOk result (circuit.new ≡ with_gates circuit.old (drawn_gates time start (alone_at grid.now.rows grid.now.cols time))) }
    ensures state { IfOk result (λ s. s ≡ state_after (length (alone_at grid.now.rows grid.now.cols time)) start) }
{
    let mut state = start;
    for qubit in 0..grid.qubits() {
        state = push_drawn(circuit, grid, time, qubit, state)?;
    }
    Ok(state)
}
