//! Placed gates on a half.
ghost use Rattle.std.specs.Prelude.{◌≡◌, ◌+◌, ◌<◌, ◌∷◌, [], List, Option, All, length, slice_index_or};
ghost use Rattle.std.specs.List.{AllZip};
ghost use Rattle.arrayvec.specs.ArrayVec.{array_vec_len};
ghost use Rattle.qh_ring.specs.declared.number.Omega.{Omega};
ghost use Rattle.qh_passes.specs.Turns.{IsTurnIn};
ghost use Rattle.qh_gates.specs.Tables.{qubits_of};
ghost use Rattle.qh_gates.specs.Terms.{terms_of, term_at};
ghost use Rattle.qh_prefix.specs.Places.{IsPlacedIn, HasTerm, operation_by, operations, choices, term_counts};
ghost use Rattle.qh_half.specs.Halves.{AfterTurns};
ghost use Rattle.qh_prefix.specs.Runs.{operation_in, IsAfter};

use crate::place::Placed;
use arrayvec::ArrayVec;
use qh_gates::{Kind, matrix1, matrix2, terms};
use qh_half::{Half, Steps};
use qh_passes::Turn;
use qh_ring::Mat2;
use std::sync::ledger::Ledger;

/// The factor of a term on the gate's first qubit.
fn first_factor(kind: Kind, term: u8) -> Mat2
    requires two { qubits_of kind ≡ 2 }
    requires below { term < length (terms_of kind) }
    ensures { result.rows ≡ (term_at kind term).first }
{
    terms(kind, false)[term as usize].one
}

/// The factor of a term on the gate's second qubit.
fn second_factor(kind: Kind, term: u8) -> Mat2
    requires two { qubits_of kind ≡ 2 }
    requires below { term < length (terms_of kind) }
    ensures { result.rows ≡ (term_at kind term).second }
{
    terms(kind, false)[term as usize].two
}

/// How many digits of a path the gate takes: one where it crosses the cut.
fn digits_taken(gate: &Placed) -> usize
    ensures { result ≡ length (choices gate.now) }
{
    match gate {
        Placed::OnOne { .. } | Placed::OnTwo { .. } => 0,
        Placed::FirstHere { .. } | Placed::SecondHere { .. } => 1,
    }
}

/// The next digit, or 0 where none is left.
fn next_digit(digits: &[u8], used: usize) -> u8
    ensures { result ≡ slice_index_or digits.now used 0 }
{
    match digits.get(used) {
        Some(digit) => *digit,
        None => 0,
    }
}

/// Turns that go to the half together.
type Piece = ArrayVec<Turn, 32>;

/// What a placed gate does to the numbers of so many qubits: a gate across the cut acts by the factor of this term, and any
/// other by its matrix.
fn turn_of(gate: &Placed, term: u8, qubits: u32) -> Turn
    requires fits { IsPlacedIn qubits gate.now }
    requires term { HasTerm term gate.now }
    ensures fits { IsTurnIn qubits result }
    ensures operation { operation_in result ≡ operation_by gate.now term }
{
    match *gate {
        Placed::OnOne { kind, qubit } => Turn::One {
            matrix: matrix1(kind),
            qubit,
        },
        Placed::OnTwo {
            kind,
            first,
            second,
        } => Turn::Two {
            matrix: matrix2(kind),
            first,
            second,
        },
        Placed::FirstHere { kind, qubit } => Turn::One {
            matrix: first_factor(kind, term),
            qubit,
        },
        Placed::SecondHere { kind, qubit } => Turn::One {
            matrix: second_factor(kind, term),
            qubit,
        },
    }
}

/// Applies the turns of a full piece, so that there is room for another.
fn make_room<L: Ledger>(half: &mut Half, piece: &mut Piece, steps: &mut Steps<L>)
    requires { All (IsTurnIn half.old.qubits) piece.old.items }
    ensures size { half.new.qubits ≡ half.old.qubits }
    ensures room { array_vec_len piece.new < 32 }
    ensures fit { All (IsTurnIn half.new.qubits) piece.new.items }
    ensures after { (numbers : Option (List Omega)) → AfterTurns piece.new.items half.new.numbers numbers → AfterTurns piece.old.items half.old.numbers numbers }
    ensures steps { steps.new + length piece.new.items ≡ steps.old + length piece.old.items }
{
    if !piece.is_full() {
        return;
    }
    half.apply_run(piece, steps);
    piece.clear();
}

/// Applies placed gates in order, one step each. Each gate across the cut takes the next digit: the number of its term.
pub fn run_placed<L: Ledger>(half: &mut Half, gates: &[Placed], digits: &[u8], steps: &mut Steps<L>)
    requires fit { All (IsPlacedIn half.old.qubits) gates.now }
    requires path { AllZip (λ d r. d < r) digits.now (term_counts gates.now) }
    ensures size { half.new.qubits ≡ half.old.qubits }
    ensures after { IsAfter half.old.qubits (operations gates.now digits.now) half.old.numbers half.new.numbers }
    ensures step { steps.new ≡ steps.old + length gates.now }
{
    let qubits = half.qubits();
    let mut piece = Piece::new();
    let mut used = 0;
    for gate in gates {
        make_room(half, &mut piece, steps);
        piece.push(turn_of(gate, next_digit(digits, used), qubits));
        used += digits_taken(gate);
    }
    half.apply_run(&piece, steps);
}
