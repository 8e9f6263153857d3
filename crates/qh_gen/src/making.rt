//! Makes the circuit.
ghost use Rattle.std.specs.Prelude.{◌≡◌, ◌≤◌, ◌*◌, IfOk, length};
ghost use Rattle.qh_limits.specs.Limits.{max_layers, max_qubits};
ghost use Rattle.qh_gen.specs.Grids.{generated};

use crate::grid::Grid;
use crate::layer::{push_all_drawn, push_hadamards, push_pairs};
use qh_gates::Circuit;
use std::alloc::{AllocError, Global};

/// The generated circuit of a grid of `rows` by `cols` qubits, 1 to 40 of them, with `depth` layers, at most 100.
///
/// The qubit in row y and column x is number y·cols + x. At time 0 and at time depth + 1 there is `h` on each qubit. At
/// each time t from 1 to depth there is first a `cz` on each pair of the pattern (t - 1) modulo 4, the lower qubit
/// first, then on each other qubit, in order, the gate of one drawing: `t`, `x_1_2` or `y_1_2`. The patterns pair
/// neighbours in a row from even columns on, neighbours in a column from even rows on, then both from odd places on.
/// A drawing replaces the state s, at first `start`, by s·6364136223846793005 + 1442695040888963407 modulo 2^64; its
/// number is the new state over 2^33, taken modulo 3. A circuit has at most 4,080 gates. Err is want of memory.
pub fn generate(
    alloc: Global,
    start: u64,
    rows: u32,
    cols: u32,
    depth: u32,
) -> Result<Circuit, AllocError>
    requires some_rows { 1 ≤ rows }
    requires some_cols { 1 ≤ cols }
    requires few { rows * cols ≤ max_qubits }
    requires shallow { depth ≤ max_layers }
    ensures value { IfOk result (λ circuit. circuit ≡ generated start rows cols depth) }
    ensures short { IfOk result (λ circuit. length circuit.gates ≤ 4080) }
{
    let grid = Grid { rows, cols };
    let mut circuit = Circuit::start(alloc, grid.qubits());
    let mut state = start;
    push_hadamards(&mut circuit, &grid, 0)?;
    for time in 1..depth + 1 {
        push_pairs(&mut circuit, &grid, time)?;
        state = push_all_drawn(&mut circuit, &grid, time, state)?;
    }
    push_hadamards(&mut circuit, &grid, depth + 1)?;
    Ok(circuit)
}
