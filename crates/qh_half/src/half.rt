//! A half state.
ghost use Rattle.std.specs.Prelude.{◌≡◌, ◌≢◌, ◌≤◌, ◌<◌, ◌+◌, ◌^◌, [], ◌∷◌, length, All, IfOk, IfSome, IsSome, IsNone, OnOk, OnErr, IsTrue, ◌↔◌, Some};
ghost use Rattle.qh_limits.specs.Limits.{coefficient_bits, max_part_qubits};
ghost use Rattle.qh_ring.specs.Numbers.{IsWithin};
ghost use Rattle.qh_ring.specs.Matrices.{number_in};
ghost use Rattle.qh_ring.specs.States.{at_index, listed, ground};
ghost use Rattle.qh_kernel.specs.Rows.{are_single};
ghost use Rattle.qh_passes.specs.Turns.{IsTurnIn};

use crate::Steps;
use crate::form::Form;
use crate::numbers::{answer_of, number_of};
use crate::places::Places;
use crate::runs::turn_all;
use crate::turns::{turn1, turn2};
use qh_kernel::Over;
use qh_passes::Turn;
use qh_ring::{Mat2, Mat4, Omega};
use std::alloc::{AllocError, Global};
use std::marker::Model;
use std::sync::ledger::Ledger;

/// The state of at most 20 qubits, or one that is over: a coefficient's magnitude came to 2^126. Qubit q is bit q of
/// an index. Contracts see the number of qubits and the list of numbers, or none where it is over.
#[derive(Drop)]
pub struct Half {
    qubits: u32,
    form: Form,
    places: Box<Places>,
}

impl Model for Half {
    ghost use Rattle.qh_half.specs.Halves.{Half};
    ghost use Rattle.qh_half.specs.Forms.{held, IsKept};

    ghost Value = { Half };

    ghost view = { λ h. record { qubits = h.qubits; numbers = held h.form h.places.value } };

    ghost invariant = { λ h. IsKept h.qubits h.form h.places.value };
}

/// Counts so many steps.
fn tick_all<L: Ledger>(count: usize, steps: &mut Steps<L>)
    ensures { steps.new ≡ steps.old + count }
{
    for _ in 0..count {
        steps.tick();
    }
}

impl Half {
    ghost use Rattle.qh_half.specs.Halves.{IsHalf, AfterMatrix, AfterTurns};

    /// The half of 1 to 20 qubits with 1 at index 0 and 0 elsewhere. It takes 120 bytes a number, and writes
    /// 8 of them.
    pub fn ground(alloc: Global, qubits: u32) -> Result<Half, AllocError>
        requires some { 1 ≤ qubits }
        requires few { qubits ≤ max_part_qubits }
        ensures { IfOk result (λ h. h ≡ record { qubits = qubits; numbers = Some (listed qubits ground) }) }
    {
        let ground = Places::ground(alloc, qubits)?;
        let places = Box::new(alloc, ground)?;
        Ok(Half {
            qubits,
            form: Form::Narrow16(0),
            places,
        })
    }

    /// The number of qubits.
    pub fn qubits(&self) -> u32
        ensures value { result ≡ self.now.qubits }
        ensures valid { IsHalf self.now }
    {
        self.qubits
    }

    /// Whether a coefficient's magnitude has come to 2^126.
    pub fn is_over(&self) -> bool
        ensures value { IsTrue result ↔ IsNone self.now.numbers }
        ensures valid { IsHalf self.now }
    {
        matches!(self.form, Form::Over)
    }

    /// Whether it keeps its numbers in 128 bits a coefficient, since they have no room in less. A pass over them then takes
    /// tens of times as long.
    pub fn is_wide(&self) -> bool
        ensures held { IsTrue result → IsSome self.now.numbers }
    {
        matches!(self.form, Form::Wide)
    }

    /// The number at an index, of a half that is not over.
    pub fn at(&self, index: u32) -> Omega
        requires held { IsSome self.now.numbers }
        requires index { index < 2 ^ self.now.qubits }
        ensures value { IfSome self.now.numbers (λ v. result ≡ at_index v index) }
        ensures bounded { IsWithin coefficient_bits result }
    {
        number_of(self.form, &*self.places, self.qubits, index)
    }

    /// Applies the matrix to qubit `q`, which is one step. It is Over exactly where the half was over already or a new
    /// coefficient's magnitude is 2^126 or more, and the half is over from then on.
    pub fn apply1<L: Ledger>(&mut self, m: &Mat2, q: u32, steps: &mut Steps<L>) -> Result<(), Over>
        requires { q < self.old.qubits }
        ensures qubits { self.new.qubits ≡ self.old.qubits }
        ensures numbers { AfterMatrix (number_in m.now.rows) (q ∷ []) self.old.numbers self.new.numbers }
        ensures ok { OnOk result (IsSome self.new.numbers) }
        ensures over { OnErr result (IsNone self.new.numbers) }
        ensures step { steps.new ≡ steps.old + 1 }
    {
        steps.tick();
        self.form = turn1(self.form, &mut *self.places, self.qubits, m, q);
        answer_of(self.form)
    }

    /// Applies the matrix to the distinct qubits `q0` and `q1`, which is one step. Each row of the matrix has at most
    /// one entry other than Zero, so it is Over exactly where the half was over already.
    pub fn apply2<L: Ledger>(
        &mut self,
        m: &Mat4,
        q0: u32,
        q1: u32,
        steps: &mut Steps<L>,
    ) -> Result<(), Over>
        requires first { q0 < self.old.qubits }
        requires second { q1 < self.old.qubits }
        requires apart { q0 ≢ q1 }
        requires single { IsTrue (are_single m.now.rows) }
        ensures qubits { self.new.qubits ≡ self.old.qubits }
        ensures numbers { AfterMatrix (number_in m.now.rows) (q0 ∷ q1 ∷ []) self.old.numbers self.new.numbers }
        ensures kept { IsSome self.old.numbers → IsSome self.new.numbers }
        ensures ok { OnOk result (IsSome self.new.numbers) }
        ensures over { OnErr result (IsNone self.new.numbers) }
        ensures step { steps.new ≡ steps.old + 1 }
    {
        steps.tick();
        turn2(self.form, &mut *self.places, self.qubits, m, q0, q1);
        answer_of(self.form)
    }

    /// Applies the turns of the run, the first one first, each of which is one step. Turns on low qubits go over a tile of
    /// the numbers together, as long as these stay in lanes. The half is over from the first turn on that makes a
    /// coefficient's magnitude 2^126 or more, and where it was over already.
    pub fn apply_run<L: Ledger>(&mut self, run: &[Turn], steps: &mut Steps<L>)
        requires { All (IsTurnIn self.old.qubits) run.now }
        ensures qubits { self.new.qubits ≡ self.old.qubits }
        ensures numbers { AfterTurns run.now self.old.numbers self.new.numbers }
        ensures steps { steps.new ≡ steps.old + length run.now }
    {
        tick_all(run.len(), steps);
        self.form = turn_all(self.form, &mut *self.places, self.qubits, run);
    }

    /// Becomes the other half, of as many qubits: its numbers, or its being over.
    pub fn copy_from(&mut self, other: &Half)
        requires { self.old.qubits ≡ other.now.qubits }
        ensures { self.new ≡ other.now }
    {
        let places = &mut *self.places;
        match other.form {
            Form::Narrow16(_) => places.narrow16.copy_from(&other.places.narrow16),
            Form::Narrow32(_) => places.narrow32.copy_from(&other.places.narrow32),
            Form::Narrow64(_) => places.narrow64.copy_from(&other.places.narrow64),
            Form::Wide => places.wide.copy_from(&other.places.wide),
            Form::Over => (),
        }
        self.form = other.form;
    }
}
