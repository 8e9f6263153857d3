//! The wide numbers of a half.
ghost use Rattle.std.specs.Prelude.{◌≡◌, ◌≢◌, ◌≤◌, ◌<◌, ◌^◌, [], ◌∷◌, length, IsTrue, IfOk, OnOk, OnErr, All};
ghost use Rattle.qh_limits.specs.Limits.{coefficient_bits, max_part_qubits};
ghost use Rattle.qh_ring.specs.Numbers.{IsWithin};
ghost use Rattle.qh_ring.specs.Matrices.{number_in};
ghost use Rattle.qh_ring.specs.States.{at_index, applied_list};
ghost use Rattle.qh_kernel.specs.Rows.{are_single};
ghost use Rattle.qh_narrow.specs.Factor.{with_factor};
ghost use Rattle.qh_half.specs.Halves.{IsVector};

use crate::scaled::scaled;
use qh_kernel::{Over, apply1, apply2};
use qh_narrow::Columns;
use qh_ring::{Mat2, Mat4, Omega};
use std::alloc::{AllocError, Global};
use std::marker::Model;

/// A list of 64 bytes a number, which has its memory from the start. Contracts see the qubits and the list.
#[derive(Drop)]
pub(crate) struct WideNumbers {
    qubits: u32,
    list: Vec<Omega>,
}

impl Model for WideNumbers {
    ghost use Rattle.std.specs.Prelude.{◌≤◌, ◌^◌};
    ghost use Rattle.std.specs.Vec.{vec_capacity};
    ghost use Rattle.qh_limits.specs.Limits.{max_part_qubits};
    ghost use Rattle.qh_half.specs.Wide.{WideNumbers};

    ghost Value = { WideNumbers };

    ghost view = { λ w. record { qubits = w.qubits; numbers = w.list.items } };

    ghost invariant = { λ w. (w.qubits ≤ max_part_qubits) × (2 ^ w.qubits ≤ vec_capacity w.list) };
}

/// Writes the numbers of the columns, times √2^roots, into a list of as many.
fn write_all(columns: &Columns, roots: u32, list: &mut [Omega])
    requires few { columns.now.qubits ≤ max_part_qubits }
    requires few_roots { roots ≤ 192 }
    requires vector { IsVector columns.now.qubits (with_factor roots columns.now.numbers) }
    requires room { length list.old ≡ 2 ^ columns.now.qubits }
    ensures { list.new ≡ with_factor roots columns.now.numbers }
{
    for index in 0..list.len() {
        list[index] = scaled(&columns.at(index as u32), roots);
    }
}

impl WideNumbers {
    /// Memory for 2^qubits numbers, and none yet.
    pub(crate) fn room(alloc: Global, qubits: u32) -> Result<WideNumbers, AllocError>
        requires { qubits ≤ max_part_qubits }
        ensures { IfOk result (λ w. w ≡ record { qubits = qubits; numbers = [] }) }
    {
        let list = Vec::with_capacity(alloc, 1usize << qubits)?;
        Ok(WideNumbers { qubits, list })
    }

    /// Becomes the numbers of columns of as many qubits, times √2^roots.
    pub(crate) fn spread_from(&mut self, columns: &Columns, roots: u32)
        requires alike { columns.now.qubits ≡ self.old.qubits }
        requires few { roots ≤ 192 }
        requires vector { IsVector columns.now.qubits (with_factor roots columns.now.numbers) }
        ensures qubits { self.new.qubits ≡ self.old.qubits }
        ensures numbers { self.new.numbers ≡ with_factor roots columns.now.numbers }
    {
        let _ = self.list.resize(1usize << self.qubits, Omega::ZERO);
        write_all(columns, roots, &mut self.list);
    }

    /// Becomes the other list, of as many qubits, which has its numbers.
    pub(crate) fn copy_from(&mut self, other: &WideNumbers)
        requires alike { self.old.qubits ≡ other.now.qubits }
        requires vector { IsVector other.now.qubits other.now.numbers }
        ensures { self.new ≡ other.now }
    {
        self.list.clear();
        let _ = self.list.extend_from_slice(&other.list);
    }

    /// Applies the matrix to qubit `q`. It is Over exactly where a new coefficient's magnitude is 2^126 or more, and
    /// what the list then holds is left open.
    pub(crate) fn apply1(&mut self, m: &Mat2, q: u32) -> Result<(), Over>
        requires vector { IsVector self.old.qubits self.old.numbers }
        requires qubit { q < self.old.qubits }
        ensures qubits { self.new.qubits ≡ self.old.qubits }
        ensures exact { OnOk result (self.new.numbers ≡ applied_list (number_in m.now.rows) (q ∷ []) self.old.numbers) }
        ensures within { OnOk result (All (IsWithin coefficient_bits) self.new.numbers) }
        ensures over { OnErr result (¬ All (IsWithin coefficient_bits) (applied_list (number_in m.now.rows) (q ∷ []) self.old.numbers)) }
    {
        let Ok(()) = apply1(&mut self.list, self.qubits, m, q) else {
            return Err(Over);
        };
        Ok(())
    }

    /// Applies the matrix, each of whose rows has at most one entry, to the distinct qubits `q0` and `q1`.
    pub(crate) fn apply2(&mut self, m: &Mat4, q0: u32, q1: u32)
        requires vector { IsVector self.old.qubits self.old.numbers }
        requires first { q0 < self.old.qubits }
        requires second { q1 < self.old.qubits }
        requires apart { q0 ≢ q1 }
        requires single { IsTrue (are_single m.now.rows) }
        ensures qubits { self.new.qubits ≡ self.old.qubits }
        ensures exact { self.new.numbers ≡ applied_list (number_in m.now.rows) (q0 ∷ q1 ∷ []) self.old.numbers }
        ensures within { All (IsWithin coefficient_bits) self.new.numbers }
    {
        apply2(&mut self.list, self.qubits, m, q0, q1);
    }

    /// The number at an index.
    pub(crate) fn at(&self, index: u32) -> Omega
        requires vector { IsVector self.now.qubits self.now.numbers }
        requires index { index < 2 ^ self.now.qubits }
        ensures value { result ≡ at_index self.now.numbers index }
        ensures within { IsWithin coefficient_bits result }
    {
        self.list[index as usize]
    }
}
