//! The state of a part in lanes of 64 bits.
ghost use Rattle.std.specs.Prelude.{◌≡◌, ◌≢◌, ◌<◌, ◌≤◌, ◌+◌, ◌-◌, ◌^◌, [], ◌∷◌, length, take, All, IsTrue, OnOk, OnErr, IfOk, IsOk};
ghost use Rattle.qh_limits.specs.Limits.{max_part_qubits};
ghost use Rattle.qh_ring.specs.Numbers.{IsWithin};
ghost use Rattle.qh_ring.specs.Matrices.{number_in};
ghost use Rattle.qh_ring.specs.States.{at_index, applied_list, listed, ground};
ghost use Rattle.qh_kernel.specs.Rows.{are_single};
ghost use Rattle.qh_passes.specs.Turns.{after_turns, IsTurnIn, StayWithin};
ghost use Rattle.qh_narrow.specs.Columns.{narrow_bits, zeros};
ghost use Rattle.qh_narrow.specs.Factor.{with_factor};

use crate::columns32::Columns32;
use crate::number::number_of;
use crate::stored::{
    bound_of, change_run, change1, change2, copy_onto, stored_ground, stored_zeros, take_common,
};
use crate::wide::Wide;
use qh_blocks::Block;
use qh_passes::Turn;
use qh_ring::{Mat2, Mat4, Omega};
use std::alloc::{AllocError, Global};
use std::marker::Model;
use std::simd::i64x8;

/// The state of at most 20 qubits, each coefficient's magnitude below 2^62. Qubit q is bit q of an index. Contracts see
/// the number of qubits and the list of numbers.
#[derive(Drop)]
pub struct Columns {
    qubits: u32,
    bits: u32,
    blocks: Vec<Block<i64x8>>,
}

impl Model for Columns {
    ghost use Rattle.std.specs.Prelude.{◌≤◌, ◌-◌, ◌^◌};
    ghost use Rattle.std.specs.Vec.{vec_capacity};
    ghost use Rattle.qh_narrow.specs.Columns.{Columns, lanes64, places64, room64, first_numbers, AreHeld};

    ghost Value = { Columns };

    ghost view = { λ s. record { qubits = s.qubits; numbers = first_numbers lanes64 places64 s.qubits s.blocks.items } };

    ghost invariant = { λ s. AreHeld lanes64 places64 room64 s.qubits s.bits s.blocks.items × (2 ^ (s.qubits - places64) ≤ vec_capacity s.blocks) };
}

impl Columns {
    ghost use Rattle.qh_narrow.specs.Columns.{AreColumns};

    /// The state of 1 to 20 qubits with 1 at index 0 and 0 elsewhere. It takes 32 bytes a number, at least 256.
    pub fn ground(alloc: Global, qubits: u32) -> Result<Columns, AllocError>
        requires some { 1 ≤ qubits }
        requires few { qubits ≤ max_part_qubits }
        ensures { IfOk result (λ s. s ≡ record { qubits = qubits; numbers = listed qubits ground }) }
    {
        let blocks = stored_ground(alloc, qubits)?;
        Ok(Columns {
            qubits,
            bits: 1,
            blocks,
        })
    }

    /// The number 0 at each index of 1 to 20 qubits. It takes as much memory, and writes none of it until numbers are
    /// copied onto it.
    pub fn zeros(alloc: Global, qubits: u32) -> Result<Columns, AllocError>
        requires some { 1 ≤ qubits }
        requires few { qubits ≤ max_part_qubits }
        ensures { IfOk result (λ s. s ≡ record { qubits = qubits; numbers = listed qubits zeros }) }
    {
        let blocks = stored_zeros(alloc, qubits)?;
        Ok(Columns {
            qubits,
            bits: 1,
            blocks,
        })
    }

    /// The number of qubits.
    pub fn qubits(&self) -> u32
        ensures value { result ≡ self.now.qubits }
        ensures valid { AreColumns self.now }
    {
        self.qubits
    }

    /// A bound of the coefficients, at most 62 bits: each magnitude is below 2^result.
    pub fn bits(&self) -> u32
        ensures bound { All (IsWithin result) self.now.numbers }
        ensures few { result ≤ narrow_bits }
    {
        bound_of(&self.blocks, self.qubits, self.bits)
    }

    /// Where the lanes have no room for what the matrix adds, takes a common factor √2^n out of all numbers, n at most
    /// `most`, and tells n; else n is 0. It goes over the numbers once to see, and a few times where it changes them.
    pub fn take_factor(&mut self, m: &Mat2, most: u32) -> u32
        ensures few { result ≤ most }
        ensures qubits { self.new.qubits ≡ self.old.qubits }
        ensures numbers { with_factor result self.new.numbers ≡ self.old.numbers }
    {
        let taken = take_common(&mut self.blocks, self.qubits, self.bits, m, most);
        self.bits = taken.1;
        taken.0
    }

    /// Applies the matrix to qubit `q`. It is Wide exactly where a new coefficient's magnitude is 2^62 or more, and the
    /// columns are then unchanged.
    pub fn apply1(&mut self, m: &Mat2, q: u32) -> Result<(), Wide>
        requires { q < self.old.qubits }
        ensures qubits { self.new.qubits ≡ self.old.qubits }
        ensures exact { OnOk result (self.new.numbers ≡ applied_list (number_in m.now.rows) (q ∷ []) self.old.numbers) }
        ensures within { OnOk result (All (IsWithin narrow_bits) self.new.numbers) }
        ensures wide { OnErr result (¬ All (IsWithin narrow_bits) (applied_list (number_in m.now.rows) (q ∷ []) self.old.numbers)) }
        ensures kept { OnErr result (self.new ≡ self.old) }
    {
        match change1(&mut self.blocks, self.qubits, q, self.bits, m) {
            Ok(bits) => {
                self.bits = bits;
                Ok(())
            }
            Err(wide) => Err(wide),
        }
    }

    /// Applies the matrix to the distinct qubits `q0` and `q1`. Each row of the matrix has at most one entry other than
    /// Zero, so that no coefficient's magnitude grows: it is never Wide.
    pub fn apply2(&mut self, m: &Mat4, q0: u32, q1: u32) -> Result<(), Wide>
        requires first { q0 < self.old.qubits }
        requires second { q1 < self.old.qubits }
        requires apart { q0 ≢ q1 }
        requires single { IsTrue (are_single m.now.rows) }
        ensures ok { IsOk result }
        ensures qubits { self.new.qubits ≡ self.old.qubits }
        ensures exact { self.new.numbers ≡ applied_list (number_in m.now.rows) (q0 ∷ q1 ∷ []) self.old.numbers }
        ensures within { All (IsWithin narrow_bits) self.new.numbers }
    {
        change2(&mut self.blocks, self.qubits, q0, q1, self.bits, m);
        Ok(())
    }

    /// Applies the first turns of the run, as many as lie within a tile of the numbers and have room by the tracked bound,
    /// to one tile after the other, and tells how many. It is 0 where the columns are no greater than a tile, and where
    /// fewer than two turns qualify. A tile of 256 KiB then stays in a cache while they go over it.
    pub fn apply_run(&mut self, run: &[Turn]) -> usize
        requires { All (IsTurnIn self.old.qubits) run.now }
        ensures few { result ≤ length run.now }
        ensures qubits { self.new.qubits ≡ self.old.qubits }
        ensures exact { self.new.numbers ≡ after_turns (take result run.now) self.old.numbers }
        ensures within { StayWithin narrow_bits (take result run.now) self.old.numbers }
    {
        let (count, bound) = change_run(&mut self.blocks, self.qubits, self.bits, run);
        self.bits = bound;
        count
    }

    /// Becomes the other state, of as many qubits.
    pub fn copy_from(&mut self, other: &Columns)
        requires { self.old.qubits ≡ other.now.qubits }
        ensures { self.new ≡ other.now }
    {
        self.bits = other.bits;
        copy_onto(&mut self.blocks, &other.blocks);
    }

    /// Becomes the state in narrower lanes, of as many qubits. It reads 16 bytes a number and writes 32.
    pub fn widen_from(&mut self, other: &Columns32)
        requires { self.old.qubits ≡ other.now.qubits }
        ensures { self.new ≡ other.now }
    {
        self.bits = other.widen_onto(&mut self.blocks);
    }

    /// The number at an index.
    pub fn at(&self, index: u32) -> Omega
        requires { index < 2 ^ self.now.qubits }
        ensures value { result ≡ at_index self.now.numbers index }
        ensures within { IsWithin narrow_bits result }
    {
        number_of(&self.blocks, self.qubits, index)
    }
}
