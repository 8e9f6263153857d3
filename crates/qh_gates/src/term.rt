//! The terms of a gate across a cut. A gate on two qubits adds its terms here and in `specs/Terms.antt`.
ghost use Rattle.std.specs.Prelude.{◌≡◌, IsTrue, length, map};
ghost use Rattle.qh_ring.specs.Units.{are_units};
ghost use Rattle.qh_gates.specs.declared.kind.Kind.{Kind};
ghost use Rattle.qh_gates.specs.Tables.{qubits_of};
ghost use Rattle.qh_gates.specs.Terms.{AddsUp, arranged, terms_of};
ghost use Rattle.qh_gates.specs.TermRows.{factors_of};

use crate::kind::Kind;
use arrayvec::ArrayVec;
use qh_ring::{Entry, Mat2};

/// A term of a gate across the cut: `one` acts on its qubit in part 1, `two` on its qubit in part 2.
#[derive(Clone, Copy, PartialEq, Eq, Debug, Default)]
pub struct Term {
    pub one: Mat2,
    pub two: Mat2,
}

/// The terms of a gate on two qubits: one, two or four.
pub type TermList = ArrayVec<Term, 4>;

const O: Entry = Entry::Zero;

const P0: Entry = Entry::Unit(0);

const P2: Entry = Entry::Unit(2);

const P4: Entry = Entry::Unit(4);

/// |0⟩⟨0|
const PROJECT0: [[Entry; 2]; 2] = [[P0, O], [O, O]];

/// |1⟩⟨1|
const PROJECT1: [[Entry; 2]; 2] = [[O, O], [O, P0]];

const IDENTITY: [[Entry; 2]; 2] = [[P0, O], [O, P0]];

const PAULI_X: [[Entry; 2]; 2] = [[O, P0], [P0, O]];

const PAULI_Z: [[Entry; 2]; 2] = [[P0, O], [O, P4]];

/// |0⟩⟨1| and |1⟩⟨0|, and both times i.
const LOWER: [[Entry; 2]; 2] = [[O, P0], [O, O]];

const RAISE: [[Entry; 2]; 2] = [[O, O], [P0, O]];

const I_LOWER: [[Entry; 2]; 2] = [[O, P2], [O, O]];

const I_RAISE: [[Entry; 2]; 2] = [[O, O], [P2, O]];

/// A term by the factor on the gate's first qubit and that on its second. With `swapped` the first lies in part 2.
fn of_factors(swapped: bool, first: [[Entry; 2]; 2], second: [[Entry; 2]; 2]) -> Term
    requires first { IsTrue (are_units first) }
    requires second { IsTrue (are_units second) }
    ensures { factors_of result ≡ arranged swapped (record { first = first; second = second }) }
{
    let (one, two) = if swapped {
        (second, first)
    } else {
        (first, second)
    };
    Term {
        one: Mat2 { rows: one },
        two: Mat2 { rows: two },
    }
}

/// The terms of a kind on two qubits, in the order of the table. Their products add up to its matrix.
/// With `swapped` the gate's first qubit lies in part 2, and the factors of each term are exchanged.
pub fn terms(kind: Kind, swapped: bool) -> TermList
    requires { qubits_of kind ≡ 2 }
    ensures factors { map factors_of result.items ≡ map (arranged swapped) (terms_of kind) }
    ensures count { length result.items ≡ length (terms_of kind) }
{
    let mut list = ArrayVec::new();
    match kind {
        Kind::Cz => {
            list.push(of_factors(swapped, PROJECT0, IDENTITY));
            list.push(of_factors(swapped, PROJECT1, PAULI_Z));
        }
        Kind::Cnot => {
            list.push(of_factors(swapped, PROJECT0, IDENTITY));
            list.push(of_factors(swapped, PROJECT1, PAULI_X));
        }
        Kind::Is => {
            list.push(of_factors(swapped, PROJECT0, PROJECT0));
            list.push(of_factors(swapped, PROJECT1, PROJECT1));
            list.push(of_factors(swapped, I_LOWER, RAISE));
            list.push(of_factors(swapped, I_RAISE, LOWER));
        }
        Kind::Sw => {
            list.push(of_factors(swapped, PROJECT0, PROJECT0));
            list.push(of_factors(swapped, PROJECT1, PROJECT1));
            list.push(of_factors(swapped, LOWER, RAISE));
            list.push(of_factors(swapped, RAISE, LOWER));
        }
        Kind::Id2 => list.push(of_factors(swapped, IDENTITY, IDENTITY)),
        _ => {}
    }
    list
}

/// The law of the terms: for each kind on two qubits, the products over its terms add up to its matrix.
pub fn terms_add_up()
    ensures { (kind : Kind) → qubits_of kind ≡ 2 → AddsUp kind }
{}
