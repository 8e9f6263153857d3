//! The table of the gates. Adding a gate adds a variant, a row and its name in `kind_of` here, a row in `specs/Tables.antt`,
//! its place in `kinds` of `specs/Names.antt`, and a line in `NameLemmas` and `TermLemmas` of `proofs/`. A gate on two
//! qubits also adds its terms in `term.rt` and `specs/Terms.antt`. No other crate changes.
ghost use Rattle.std.specs.Prelude.{◌≡◌, ◌≢◌, ◌≤◌, IfSome, IfNone, IsTrue};
ghost use Rattle.qh_ring.specs.Units.{are_units};
ghost use Rattle.qh_gates.specs.Tables.{name_text, weight_of, matrix_of, qubits_of};
ghost use Rattle.qh_gates.specs.Rows.{HasRows};
ghost use Rattle.qh_gates.specs.declared.kind.Kind.{Kind};

use qh_ring::{Entry, Mat2, Mat4};

/// The kinds of gates. Their names are those of qsim's circuit texts.
#[derive(Clone, Copy, PartialEq, Eq, Debug)]
pub enum Kind {
    /// Hadamard.
    H,
    /// The eighth turn: ω on |1⟩.
    T,
    X,
    Y,
    Z,
    /// The square root of X whose eigenvalues are 1 and i.
    X12,
    /// The square root of Y whose eigenvalues are 1 and i.
    Y12,
    /// The square root of (X+Y)/√2 whose eigenvalues are 1 and i.
    Hz12,
    /// Controlled Z.
    Cz,
    /// Controlled X. The first qubit controls the second.
    Cnot,
    /// iSWAP.
    Is,
    /// The quarter turn: i on |1⟩.
    S,
    /// SWAP.
    Sw,
    /// The identity on one qubit.
    Id1,
    /// The identity on two qubits.
    Id2,
}

/// A kind's matrix, without the factor 1/√2.
#[derive(Clone, Copy)]
enum Matrix {
    One(Mat2),
    Two(Mat4),
}

/// A row of the table.
#[derive(Clone, Copy)]
struct Row {
    name: &'static str,
    weight: u32,
    matrix: Matrix,
}

const O: Entry = Entry::Zero;

const P0: Entry = Entry::Unit(0);

const P1: Entry = Entry::Unit(1);

const P2: Entry = Entry::Unit(2);

const P4: Entry = Entry::Unit(4);

const P5: Entry = Entry::Unit(5);

const P6: Entry = Entry::Unit(6);

const P7: Entry = Entry::Unit(7);

/// A row of a kind on one qubit.
fn one(name: &'static str, weight: u32, rows: [[Entry; 2]; 2]) -> Row
    requires { IsTrue (are_units rows) }
    ensures name { result.name.now ≡ name.now }
    ensures weight { result.weight ≡ weight }
    ensures matrix { HasRows result.matrix rows }
{
    Row {
        name,
        weight,
        matrix: Matrix::One(Mat2 { rows }),
    }
}

/// A row of a kind on two qubits.
fn two(name: &'static str, rows: [[Entry; 4]; 4]) -> Row
    requires { IsTrue (are_units rows) }
    ensures name { result.name.now ≡ name.now }
    ensures weight { result.weight ≡ 0 }
    ensures matrix { HasRows result.matrix rows }
{
    Row {
        name,
        weight: 0,
        matrix: Matrix::Two(Mat4 { rows }),
    }
}

/// The table. The matrices' global phases are this project's choice.
fn row_of(kind: Kind) -> Row
    ensures name { result.name.now ≡ name_text kind }
    ensures weight { result.weight ≡ weight_of kind }
    ensures matrix { HasRows result.matrix (matrix_of kind) }
{
    match kind {
        Kind::H => one("h", 1, [[P0, P0], [P0, P4]]),
        Kind::T => one("t", 0, [[P0, O], [O, P1]]),
        Kind::X => one("x", 0, [[O, P0], [P0, O]]),
        Kind::Y => one("y", 0, [[O, P6], [P2, O]]),
        Kind::Z => one("z", 0, [[P0, O], [O, P4]]),
        Kind::X12 => one("x_1_2", 1, [[P1, P7], [P7, P1]]),
        Kind::Y12 => one("y_1_2", 1, [[P1, P5], [P1, P1]]),
        Kind::Hz12 => one("hz_1_2", 1, [[P1, P6], [P0, P1]]),
        Kind::Cz => two(
            "cz",
            [[P0, O, O, O], [O, P0, O, O], [O, O, P0, O], [O, O, O, P4]],
        ),
        Kind::Cnot => two(
            "cnot",
            [[P0, O, O, O], [O, P0, O, O], [O, O, O, P0], [O, O, P0, O]],
        ),
        Kind::Is => two(
            "is",
            [[P0, O, O, O], [O, O, P2, O], [O, P2, O, O], [O, O, O, P0]],
        ),
        Kind::S => one("s", 0, [[P0, O], [O, P2]]),
        Kind::Sw => two(
            "sw",
            [[P0, O, O, O], [O, O, P0, O], [O, P0, O, O], [O, O, O, P0]],
        ),
        Kind::Id1 => one("id1", 0, [[P0, O], [O, P0]]),
        Kind::Id2 => two(
            "id2",
            [[P0, O, O, O], [O, P0, O, O], [O, O, P0, O], [O, O, O, P0]],
        ),
    }
}

/// The kind of this name. None exactly where the bytes are no name of the table.
pub fn kind_of(name: &[u8]) -> Option<Kind>
    ensures some { IfSome result (λ kind. name.now ≡ name_text kind) }
    ensures none { IfNone result ((kind : Kind) → name.now ≢ name_text kind) }
{
    match name {
        b"h" => Some(Kind::H),
        b"t" => Some(Kind::T),
        b"x" => Some(Kind::X),
        b"y" => Some(Kind::Y),
        b"z" => Some(Kind::Z),
        b"x_1_2" => Some(Kind::X12),
        b"y_1_2" => Some(Kind::Y12),
        b"hz_1_2" => Some(Kind::Hz12),
        b"cz" => Some(Kind::Cz),
        b"cnot" => Some(Kind::Cnot),
        b"is" => Some(Kind::Is),
        b"s" => Some(Kind::S),
        b"sw" => Some(Kind::Sw),
        b"id1" => Some(Kind::Id1),
        b"id2" => Some(Kind::Id2),
        _ => None,
    }
}

/// The kind's name in circuit texts.
pub fn name_of(kind: Kind) -> &'static str
    ensures { result.now ≡ name_text kind }
{
    row_of(kind).name
}

/// The kind's number of qubits, 1 or 2.
pub fn arity(kind: Kind) -> u32
    ensures { result ≡ qubits_of kind }
{
    match row_of(kind).matrix {
        Matrix::One(_) => 1,
        Matrix::Two(_) => 2,
    }
}

/// The kind's weight: 1 where its matrix is multiplied by 1/√2, else 0.
pub fn scaled(kind: Kind) -> u32
    ensures value { result ≡ weight_of kind }
    ensures bounded { result ≤ 1 }
{
    row_of(kind).weight
}

/// The matrix of a kind on one qubit, without the factor 1/√2.
pub fn matrix1(kind: Kind) -> Mat2
    requires { qubits_of kind ≡ 1 }
    ensures { result.rows ≡ matrix_of kind }
{
    match row_of(kind).matrix {
        Matrix::One(matrix) => matrix,
        Matrix::Two(_) => unreachable!(),
    }
}

/// The matrix of a kind on two qubits. The gate's first qubit is the high place of a row's or a column's index.
pub fn matrix2(kind: Kind) -> Mat4
    requires { qubits_of kind ≡ 2 }
    ensures { result.rows ≡ matrix_of kind }
{
    match row_of(kind).matrix {
        Matrix::One(_) => unreachable!(),
        Matrix::Two(matrix) => matrix,
    }
}
