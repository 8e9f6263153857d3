//! The evolution by several threads, where numbers are wide: each gate makes a new vector of the old one.
ghost use Rattle.std.specs.Prelude.{◌≡◌, ◌↔◌, ◌^◌, ◌<◌, ◌≤◌, ◌≢◌, ℕ, [], ◌∷◌, length, slice_index_or, All, IsTrue, IfOk, IfErr, OnOk, OnErr};
ghost use Rattle.qh_limits.specs.Limits.{coefficient_bits, max_part_qubits, max_uncut_qubits};
ghost use Rattle.qh_ring.specs.declared.number.Omega.{Omega as OmegaValue};
ghost use Rattle.qh_ring.specs.Numbers.{IsWithin};
ghost use Rattle.qh_ring.specs.Matrices.{number_in};
ghost use Rattle.qh_ring.specs.States.{applied, applied_list, at_index, listed};
ghost use Rattle.qh_gates.specs.Tables.{matrix_of};
ghost use Rattle.qh_gates.specs.Circuits.{Fits};
ghost use Rattle.qh_gates.specs.Evolution.{wires, uncut, NeverOver};
ghost use Rattle.qh_kernel.specs.Rows.{are_single};
ghost use Rattle.qh_uncut.specs.Faults.{IsCause};
ghost use Rattle.qh_uncut.specs.Progress.{FitsUpTo, numbers_after};
ghost use Rattle.qh_uncut.specs.Rows.{AreOnly};

use crate::entries::{only_entries, pair_number, quad_number};
use crate::evolution::evolve;
use crate::fault::UncutFault;
use crate::narrow::{Front, narrow_front};
use qh_gates::{Circuit, Gate, arity, matrix1, matrix2};
use qh_kernel::{Over, ground_vector};
use qh_limits::COEFFICIENT_BITS;
use qh_ring::{Mat2, Mat4, Omega, within};
use rayon::prelude::*;
use std::alloc::Global;
use std::mem::swap;
use std::thread::Threads;

/// Circuits of fewer qubits are evolved by one thread: starting others for each gate takes longer than the work.
const LEAST_QUBITS: u32 = 16;

/// Makes the numbers of a new vector by a matrix on qubit `q`, each in one of several threads.
fn make_by_pairs<R: Threads + Sync>(
    rt: &R,
    m: &Mat2,
    qubits: u32,
    q: u32,
    v: &[Omega],
    new: &mut [Omega],
)
    requires few { qubits ≤ max_part_qubits }
    requires numbers { length v.now ≡ 2 ^ qubits }
    requires places { length new.old ≡ 2 ^ qubits }
    requires qubit { q < qubits }
    requires bounded { All (IsWithin coefficient_bits) v.now }
    ensures places { length new.new ≡ 2 ^ qubits }
    ensures each { (k : ℕ) (d : OmegaValue) → k < length new.old → slice_index_or new.new k d ≡ applied (number_in m.now.rows) (q ∷ []) (at_index v.now) k }
{
    par_for_each_mut(
        rt,
        new,
        |x: usize, number: &mut Omega|
            requires { (qubits ≤ max_part_qubits) × (length v.now ≡ 2 ^ qubits) × (q < qubits) × (x < 2 ^ qubits) × All (IsWithin coefficient_bits) v.now }
            ensures { number.new ≡ applied (number_in m.entry.now.rows) (q ∷ []) (at_index v.entry.now) x }
        {
            *number = pair_number(m, qubits, q, v, x);
        },
    );
}

/// Makes the numbers of a new vector by a matrix on two qubits, each in one of several threads.
fn make_by_quads<R: Threads + Sync>(
    rt: &R,
    m: &Mat4,
    qubits: u32,
    q0: u32,
    q1: u32,
    v: &[Omega],
    new: &mut [Omega],
)
    requires few { qubits ≤ max_part_qubits }
    requires numbers { length v.now ≡ 2 ^ qubits }
    requires places { length new.old ≡ 2 ^ qubits }
    requires first { q0 < qubits }
    requires second { q1 < qubits }
    requires single { IsTrue (are_single m.now.rows) }
    requires bounded { All (IsWithin coefficient_bits) v.now }
    ensures places { length new.new ≡ 2 ^ qubits }
    ensures each { (k : ℕ) (d : OmegaValue) → k < length new.old → slice_index_or new.new k d ≡ applied (number_in m.now.rows) (q0 ∷ q1 ∷ []) (at_index v.now) k }
{
    let onlys = only_entries(m);
    let rows = &onlys;
    par_for_each_mut(
        rt,
        new,
        |x: usize, number: &mut Omega|
            requires { (qubits ≤ max_part_qubits) × (length v.now ≡ 2 ^ qubits) × (q0 < qubits) × (q1 < qubits) × (x < 2 ^ qubits)
                × AreOnly m.now.rows rows.now × All (IsWithin coefficient_bits) v.now }
            ensures { number.new ≡ applied (number_in m.entry.now.rows) (q0 ∷ q1 ∷ []) (at_index v.entry.now) x }
        {
            *number = quad_number(m, rows, qubits, q0, q1, v, x);
        },
    );
}

/// Whether each number is within the bound.
fn all_within<R: Threads + Sync>(rt: &R, v: &[Omega]) -> bool
    ensures { IsTrue result ↔ All (IsWithin coefficient_bits) v.now }
{
    v.par_iter().all(
        rt,
        |z: &Omega| -> bool
            ensures { IsTrue result ↔ IsWithin coefficient_bits z.now }
        { within(z, COEFFICIENT_BITS) },
    )
}

/// Makes the vector after a gate.
fn make<R: Threads + Sync>(
    rt: &R,
    qubits: u32,
    gate: &Gate,
    v: &[Omega],
    new: &mut [Omega],
) -> Result<(), Over>
    requires few { qubits ≤ max_part_qubits }
    requires numbers { length v.now ≡ 2 ^ qubits }
    requires places { length new.old ≡ 2 ^ qubits }
    requires fits { Fits qubits gate.now }
    requires bounded { All (IsWithin coefficient_bits) v.now }
    ensures exact { new.new ≡ applied_list (number_in (matrix_of gate.now.kind)) (wires gate.now) v.now }
    ensures bounded { OnOk result (All (IsWithin coefficient_bits) new.new) }
    ensures over { OnErr result (¬ All (IsWithin coefficient_bits) new.new) }
{
    make_unbounded(rt, qubits, gate, v, new);
    if all_within(rt, new) {
        Ok(())
    } else {
        Err(Over)
    }
}

/// Makes the vector after a gate, whose numbers may be past the bound.
fn make_unbounded<R: Threads + Sync>(
    rt: &R,
    qubits: u32,
    gate: &Gate,
    v: &[Omega],
    new: &mut [Omega],
)
    requires few { qubits ≤ max_part_qubits }
    requires numbers { length v.now ≡ 2 ^ qubits }
    requires places { length new.old ≡ 2 ^ qubits }
    requires fits { Fits qubits gate.now }
    requires bounded { All (IsWithin coefficient_bits) v.now }
    ensures { new.new ≡ applied_list (number_in (matrix_of gate.now.kind)) (wires gate.now) v.now }
{
    if arity(gate.kind) == 2 {
        make_by_quads(rt, &matrix2(gate.kind), qubits, gate.q0, gate.q1, v, new);
        return;
    }
    make_by_pairs(rt, &matrix1(gate.kind), qubits, gate.q0, v, new);
}

/// Applies a gate to a vector, and makes the new one in the room of a spare.
fn renew<R: Threads + Sync>(
    rt: &R,
    qubits: u32,
    gate: &Gate,
    v: &mut Vec<Omega>,
    spare: &mut Vec<Omega>,
) -> Result<(), Over>
    requires few { qubits ≤ max_part_qubits }
    requires numbers { length v.old.items ≡ 2 ^ qubits }
    requires places { length spare.old.items ≡ 2 ^ qubits }
    requires fits { Fits qubits gate.now }
    requires bounded { All (IsWithin coefficient_bits) v.old.items }
    ensures exact { OnOk result (v.new.items ≡ applied_list (number_in (matrix_of gate.now.kind)) (wires gate.now) v.old.items) }
    ensures bounded { OnOk result (All (IsWithin coefficient_bits) v.new.items) }
    ensures places { length spare.new.items ≡ 2 ^ qubits }
    ensures over { OnErr result (¬ All (IsWithin coefficient_bits) (applied_list (number_in (matrix_of gate.now.kind)) (wires gate.now) v.old.items)) }
{
    let Ok(()) = make(rt, qubits, gate, v, spare) else {
        return Err(Over);
    };
    swap(v, spare);
    Ok(())
}

/// As [`evolve`]. A circuit of 16 qubits goes on by several threads, which it joins, from where its numbers have no room in
/// less than 128 bits a coefficient. It takes what `evolve` takes, and from there on 64 bytes a number twice.
pub fn evolve_chunks<R: Threads + Sync>(
    rt: &R,
    alloc: Global,
    circuit: &Circuit,
) -> Result<Vec<Omega>, UncutFault>
    requires { circuit.now.qubits ≤ max_uncut_qubits }
    ensures exact { IfOk result (λ v. v.items ≡ listed circuit.now.qubits (uncut circuit.now.gates)) }
    ensures within { IfOk result (λ v. All (IsWithin coefficient_bits) v.items) }
    ensures never { OnOk result (NeverOver circuit.now) }
    ensures cause { IfErr result (IsCause circuit.now) }
    ensures short { length circuit.now.gates < coefficient_bits → IfErr result (λ fault. fault ≡ UncutFault.Memory) }
{
    if circuit.qubits() < LEAST_QUBITS {
        return evolve(alloc, circuit);
    }
    let Front { gates, numbers } = narrow_front(alloc, circuit)?;
    go_on(rt, alloc, circuit, gates, numbers)
}

/// The state after all gates, from the one after the first `done`, by several threads.
fn go_on<R: Threads + Sync>(
    rt: &R,
    alloc: Global,
    circuit: &Circuit,
    done: usize,
    mut v: Vec<Omega>,
) -> Result<Vec<Omega>, UncutFault>
    requires few { circuit.now.qubits ≤ max_uncut_qubits }
    requires some { done ≤ length circuit.now.gates }
    requires numbers { v.items ≡ numbers_after circuit.now done }
    requires never { FitsUpTo circuit.now done }
    ensures exact { IfOk result (λ v. v.items ≡ listed circuit.now.qubits (uncut circuit.now.gates)) }
    ensures within { IfOk result (λ v. All (IsWithin coefficient_bits) v.items) }
    ensures never { OnOk result (NeverOver circuit.now) }
    ensures cause { IfErr result (IsCause circuit.now) }
{
    let gates = circuit.gates();
    if done == gates.len() {
        return Ok(v);
    }
    let qubits = circuit.qubits();
    let Ok(mut spare) = ground_vector(alloc, qubits) else {
        return Err(UncutFault::Memory);
    };
    for i in done..gates.len() {
        let Ok(()) = renew(rt, qubits, &gates[i], &mut v, &mut spare) else {
            return Err(UncutFault::Over { gate: i as u32 });
        };
    }
    Ok(v)
}
