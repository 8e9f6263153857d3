//! Drawn circuits at each width beside the wide numbers of qh_kernel, the edges of the lanes, and the steps to wider
//! ones.
ghost use Rattle.std.specs.Prelude.{◌≤◌, ◌↔◌, ◌≡◌, ◌^◌, All, IsTrue};
ghost use Rattle.qh_limits.specs.Limits.{coefficient_bits};
ghost use Rattle.qh_ring.specs.Numbers.{IsWithin};
ghost use Rattle.qh_passes.specs.Turns.{IsTurnIn};

use super::turns::{are_single_rows, is_turn_in};
use qh_limits::COEFFICIENT_BITS;
use qh_narrow::{Columns, Columns16, Columns32, Wide};
use qh_passes::Turn;
use qh_ring::{Entry, Mat2, Mat4, Omega, within};
use std::alloc::Global;
use std::process::Abort;
use std::test::Fail;

const O: Entry = Entry::Zero;

const P0: Entry = Entry::Unit(0);

const P1: Entry = Entry::Unit(1);

const P2: Entry = Entry::Unit(2);

const P3: Entry = Entry::Unit(3);

const P4: Entry = Entry::Unit(4);

const P5: Entry = Entry::Unit(5);

const P6: Entry = Entry::Unit(6);

const P7: Entry = Entry::Unit(7);

/// The matrices of the gates whose rows have two entries, and one of another shape.
fn dense(kind: u32) -> Mat2 {
    match kind % 5 {
        0 => Mat2 {
            rows: [[P0, P0], [P0, P4]],
        },
        1 => Mat2 {
            rows: [[P1, P7], [P7, P1]],
        },
        2 => Mat2 {
            rows: [[P1, P5], [P1, P1]],
        },
        3 => Mat2 {
            rows: [[P1, P6], [P0, P1]],
        },
        _ => Mat2 {
            rows: [[P3, P5], [O, P7]],
        },
    }
}

/// The matrices of the other gates on one qubit, and one of another shape.
fn moved(kind: u32) -> Mat2 {
    match kind % 7 {
        0 => Mat2 {
            rows: [[P0, O], [O, P1]],
        },
        1 => Mat2 {
            rows: [[P0, O], [O, P2]],
        },
        2 => Mat2 {
            rows: [[O, P0], [P0, O]],
        },
        3 => Mat2 {
            rows: [[O, P6], [P2, O]],
        },
        4 => Mat2 {
            rows: [[P0, O], [O, P4]],
        },
        5 => Mat2 {
            rows: [[P0, O], [O, P0]],
        },
        _ => Mat2 {
            rows: [[O, P3], [O, P0]],
        },
    }
}

/// The matrices of the gates on two qubits, and one of another shape.
fn matrix2(kind: u32) -> Mat4 {
    match kind % 5 {
        0 => Mat4 {
            rows: [[P0, O, O, O], [O, P0, O, O], [O, O, P0, O], [O, O, O, P4]],
        },
        1 => Mat4 {
            rows: [[P0, O, O, O], [O, P0, O, O], [O, O, O, P0], [O, O, P0, O]],
        },
        2 => Mat4 {
            rows: [[P0, O, O, O], [O, O, P2, O], [O, P2, O, O], [O, O, O, P0]],
        },
        3 => Mat4 {
            rows: [[P0, O, O, O], [O, O, P0, O], [O, P0, O, O], [O, O, O, P0]],
        },
        _ => Mat4 {
            rows: [[O, O, O, P1], [P3, O, O, O], [O, P6, O, O], [O, O, P2, O]],
        },
    }
}

fn all_within(v: &[Omega]) -> bool
    ensures { IsTrue result ↔ All (IsWithin coefficient_bits) v.now }
{
    v.iter().all(|z| within(z, COEFFICIENT_BITS))
}

fn fit(rt: &impl Abort, v: &[Omega], bits: u32) -> bool {
    assert!(rt; bits <= 126);
    for z in v {
        if !within(z, bits) {
            return false;
        }
    }
    true
}

/// How many numbers so many qubits have.
fn count_of(qubits: u32) -> usize
    requires { qubits ≤ 20 }
    ensures { result ≡ 2 ^ qubits }
{
    1usize << qubits
}

fn wide1(rt: &impl Abort, all: &mut [Omega; 64], qubits: u32, m: &Mat2, q: u32) {
    assert!(rt; qubits <= 6 && q < qubits);
    let count = count_of(qubits);
    assert!(rt; count <= 64);
    let v = &mut all[..count];
    assert!(rt; all_within(v));
    assert_eq!(rt; qh_kernel::apply1(v, qubits, m, q), Ok(()));
}

fn wide2(rt: &impl Abort, all: &mut [Omega; 64], qubits: u32, m: &Mat4, q0: u32, q1: u32) {
    assert!(rt; qubits <= 6 && q0 < qubits && q1 < qubits && q0 != q1);
    assert!(rt; are_single_rows(m));
    let count = count_of(qubits);
    assert!(rt; count <= 64);
    let v = &mut all[..count];
    assert!(rt; all_within(v));
    qh_kernel::apply2(v, qubits, m, q0, q1);
}

fn are_turns_in(run: &[Turn], limit: u32) -> bool
    ensures { IsTrue result → All (IsTurnIn limit) run.now }
{
    for turn in run {
        if !is_turn_in(turn, limit) {
            return false;
        }
    }
    true
}

/// Columns of one width, whose calls test what they require.
trait Width: Drop {
    /// Coefficients have magnitudes below 2^BITS.
    const BITS: u32;

    fn start(alloc: Global, qubits: u32) -> Result<Self, Fail>
        requires some { 1 ≤ qubits }
        requires few { qubits ≤ 20 };

    fn count(&self) -> u32;

    fn number(&self, rt: &impl Abort, index: u32) -> Omega;

    fn turn1(&mut self, rt: &impl Abort, m: &Mat2, q: u32) -> Result<(), Wide>;

    fn turn2(&mut self, rt: &impl Abort, m: &Mat4, q0: u32, q1: u32) -> Result<(), Wide>;

    fn turns(&mut self, rt: &impl Abort, run: &[Turn]) -> usize;

    fn copy(&mut self, rt: &impl Abort, other: &Self);
}

impl Width for Columns16 {
    const BITS: u32 = 14;

    fn start(alloc: Global, qubits: u32) -> Result<Self, Fail> {
        Ok(Columns16::ground(alloc, qubits)?)
    }

    fn count(&self) -> u32 {
        self.qubits()
    }

    fn number(&self, rt: &impl Abort, index: u32) -> Omega {
        let qubits = self.qubits();
        assert!(rt; qubits <= 20);
        assert!(rt; (index as usize) < count_of(qubits));
        self.at(index)
    }

    fn turn1(&mut self, rt: &impl Abort, m: &Mat2, q: u32) -> Result<(), Wide> {
        let qubits = self.qubits();
        assert!(rt; q < qubits);
        self.apply1(m, q)
    }

    fn turn2(&mut self, rt: &impl Abort, m: &Mat4, q0: u32, q1: u32) -> Result<(), Wide> {
        let qubits = self.qubits();
        assert!(rt; q0 < qubits && q1 < qubits && q0 != q1);
        assert!(rt; are_single_rows(m));
        self.apply2(m, q0, q1)
    }

    fn turns(&mut self, rt: &impl Abort, run: &[Turn]) -> usize {
        let qubits = self.qubits();
        assert!(rt; are_turns_in(run, qubits));
        self.apply_run(run)
    }

    fn copy(&mut self, rt: &impl Abort, other: &Self) {
        let qubits = self.qubits();
        let others = other.qubits();
        assert!(rt; qubits == others);
        self.copy_from(other);
    }
}

impl Width for Columns32 {
    const BITS: u32 = 30;

    fn start(alloc: Global, qubits: u32) -> Result<Self, Fail> {
        Ok(Columns32::ground(alloc, qubits)?)
    }

    fn count(&self) -> u32 {
        self.qubits()
    }

    fn number(&self, rt: &impl Abort, index: u32) -> Omega {
        let qubits = self.qubits();
        assert!(rt; qubits <= 20);
        assert!(rt; (index as usize) < count_of(qubits));
        self.at(index)
    }

    fn turn1(&mut self, rt: &impl Abort, m: &Mat2, q: u32) -> Result<(), Wide> {
        let qubits = self.qubits();
        assert!(rt; q < qubits);
        self.apply1(m, q)
    }

    fn turn2(&mut self, rt: &impl Abort, m: &Mat4, q0: u32, q1: u32) -> Result<(), Wide> {
        let qubits = self.qubits();
        assert!(rt; q0 < qubits && q1 < qubits && q0 != q1);
        assert!(rt; are_single_rows(m));
        self.apply2(m, q0, q1)
    }

    fn turns(&mut self, rt: &impl Abort, run: &[Turn]) -> usize {
        let qubits = self.qubits();
        assert!(rt; are_turns_in(run, qubits));
        self.apply_run(run)
    }

    fn copy(&mut self, rt: &impl Abort, other: &Self) {
        let qubits = self.qubits();
        let others = other.qubits();
        assert!(rt; qubits == others);
        self.copy_from(other);
    }
}

impl Width for Columns {
    const BITS: u32 = 62;

    fn start(alloc: Global, qubits: u32) -> Result<Self, Fail> {
        Ok(Columns::ground(alloc, qubits)?)
    }

    fn count(&self) -> u32 {
        self.qubits()
    }

    fn number(&self, rt: &impl Abort, index: u32) -> Omega {
        let qubits = self.qubits();
        assert!(rt; qubits <= 20);
        assert!(rt; (index as usize) < count_of(qubits));
        self.at(index)
    }

    fn turn1(&mut self, rt: &impl Abort, m: &Mat2, q: u32) -> Result<(), Wide> {
        let qubits = self.qubits();
        assert!(rt; q < qubits);
        self.apply1(m, q)
    }

    fn turn2(&mut self, rt: &impl Abort, m: &Mat4, q0: u32, q1: u32) -> Result<(), Wide> {
        let qubits = self.qubits();
        assert!(rt; q0 < qubits && q1 < qubits && q0 != q1);
        assert!(rt; are_single_rows(m));
        self.apply2(m, q0, q1)
    }

    fn turns(&mut self, rt: &impl Abort, run: &[Turn]) -> usize {
        let qubits = self.qubits();
        assert!(rt; are_turns_in(run, qubits));
        self.apply_run(run)
    }

    fn copy(&mut self, rt: &impl Abort, other: &Self) {
        let qubits = self.qubits();
        let others = other.qubits();
        assert!(rt; qubits == others);
        self.copy_from(other);
    }
}

fn equals<C: Width>(rt: &impl Abort, columns: &C, v: &[Omega; 64]) -> bool {
    let qubits = columns.count();
    for x in 0..64u32 {
        if x >> qubits.min(6) == 0 && columns.number(rt, x) != v[x as usize] {
            return false;
        }
    }
    true
}

/// Applies the matrix to both, and compares them. Where the columns are too narrow, both stay.
fn step1<C: Width>(rt: &impl Abort, columns: &mut C, v: &mut [Omega; 64], m: &Mat2, q: u32) {
    let qubits = columns.count();
    let mut new = *v;
    wide1(rt, &mut new, qubits, m, q);
    let answer = columns.turn1(rt, m, q);
    assert_eq!(rt;
        answer.is_ok(),
        fit(rt, &new, C::BITS),
        "{m:?} on {q} of {qubits}"
    );
    if answer.is_ok() {
        *v = new;
    }
    assert!(rt; equals(rt, columns, v), "{m:?} on {q} of {qubits}");
}

fn step2<C: Width>(
    rt: &impl Abort,
    columns: &mut C,
    v: &mut [Omega; 64],
    m: &Mat4,
    q0: u32,
    q1: u32,
) {
    let qubits = columns.count();
    wide2(rt, v, qubits, m, q0, q1);
    assert_eq!(rt; columns.turn2(rt, m, q0, q1), Ok(()));
    assert!(rt; equals(rt, columns, v), "{m:?} on {q0} {q1} of {qubits}");
}

/// The next number that is drawn.
fn draw(state: &mut u64) -> u32 {
    *state = state
        .wrapping_mul(6364136223846793005)
        .wrapping_add(1442695040888963407);
    (*state >> 33) as u32
}

/// Drawn gates on columns and the same numbers: about one in three acts on two qubits, where there are two.
fn run_gates<C: Width>(
    rt: &impl Abort,
    columns: &mut C,
    v: &mut [Omega; 64],
    state: &mut u64,
    gates: u32,
) {
    let qubits = columns.count();
    assert!(rt; 1 <= qubits);
    assert!(rt; equals(rt, columns, v));
    for _gate in 0..gates {
        let q0 = draw(state) % qubits;
        let q1 = draw(state) % qubits;
        let kind = draw(state);
        match draw(state) % 3 {
            0 if q0 != q1 => step2(rt, columns, v, &matrix2(kind), q0, q1),
            1 => step1(rt, columns, v, &dense(kind), q0),
            _ => step1(rt, columns, v, &moved(kind), q0),
        }
    }
}

/// 60 drawn gates on columns in the ground state.
fn run<C: Width>(rt: &impl Abort, mut columns: C, seed: u64) {
    let mut v = [Omega::ZERO; 64];
    v[0] = Omega::ONE;
    let mut state = seed;
    run_gates(rt, &mut columns, &mut v, &mut state, 60);
}

fn run_all<C: Width>(rt: &impl Abort, alloc: Global) -> Result<(), Fail> {
    for qubits in 1..7u32 {
        for seed in 0..6u64 {
            run(rt, C::start(alloc, qubits)?, seed);
        }
    }
    Ok(())
}

/// The first of many Hadamard gates on one qubit of the ground state for which the columns are too narrow. Before it
/// both numbers of this qubit are `most`.
fn first_wide<C: Width>(rt: &impl Abort, mut columns: C, q: u32, most: i128) -> u32 {
    assert!(rt; q < 6);
    let whole = Omega {
        a: most,
        ..Omega::ZERO
    };
    for n in 1..200u32 {
        if columns.turn1(rt, &dense(0), q).is_err() {
            assert_eq!(rt; columns.number(rt, 0), whole, "{q}");
            assert_eq!(rt; columns.number(rt, 1u32 << q), whole, "{q}");
            return n;
        }
    }
    0
}

/// After 2k - 1 Hadamard gates on one qubit both its numbers are 2^(k - 1), and one more makes the first 2^k.
fn run_edges<C: Width>(rt: &impl Abort, alloc: Global, most: i128, first: u32) -> Result<(), Fail> {
    for (qubits, q) in [(1u32, 0u32), (2, 1), (4, 3), (6, 5)] {
        let columns = C::start(alloc, qubits)?;
        assert_eq!(rt; first_wide(rt, columns, q, most), first);
    }
    Ok(())
}

/// A copy has the numbers and the room of the other.
fn run_copies<C: Width>(rt: &impl Abort, alloc: Global, gates: u32) -> Result<(), Fail> {
    let mut columns = C::start(alloc, 1)?;
    let mut copy = C::start(alloc, 1)?;
    for _gate in 0..gates {
        assert_eq!(rt; columns.turn1(rt, &dense(0), 0), Ok(()));
    }
    copy.copy(rt, &columns);
    for index in 0..2 {
        assert_eq!(rt; copy.number(rt, index), columns.number(rt, index));
    }
    assert_eq!(rt; copy.turn1(rt, &dense(0), 0), Err(Wide));
    Ok(())
}

/// Gates at one width after the other, over columns of 0 and once more over the columns of before.
fn run_steps(rt: &impl Abort, alloc: Global, qubits: u32, seed: u64) -> Result<(), Fail> {
    assert!(rt; 1 <= qubits && qubits <= 6);
    let mut state = seed;
    let mut middle = Columns32::zeros(alloc, qubits)?;
    let mut wide = Columns::zeros(alloc, qubits)?;
    assert!(rt; equals(rt, &middle, &[Omega::ZERO; 64]));
    for _time in 0..2 {
        let mut v = [Omega::ZERO; 64];
        v[0] = Omega::ONE;
        let mut narrow = Columns16::ground(alloc, qubits)?;
        run_gates(rt, &mut narrow, &mut v, &mut state, 40);
        let counts = (narrow.qubits(), middle.qubits());
        assert!(rt; counts.0 == counts.1);
        middle.widen_from(&narrow);
        run_gates(rt, &mut middle, &mut v, &mut state, 60);
        let counts = (middle.qubits(), wide.qubits());
        assert!(rt; counts.0 == counts.1);
        wide.widen_from(&middle);
        run_gates(rt, &mut wide, &mut v, &mut state, 80);
    }
    Ok(())
}

/// Columns of 0 stay so, and so do those that become them.
fn run_zeros(rt: &impl Abort, alloc: Global) -> Result<(), Fail> {
    let mut zeros = Columns16::zeros(alloc, 5)?;
    let mut narrow = Columns16::ground(alloc, 5)?;
    let mut middle = Columns32::ground(alloc, 5)?;
    let mut v = [Omega::ZERO; 64];
    let mut state = 1;
    run_gates(rt, &mut zeros, &mut v, &mut state, 9);
    narrow.copy(rt, &zeros);
    assert!(rt; equals(rt, &narrow, &v));
    let counts = (middle.qubits(), zeros.qubits());
    assert!(rt; counts.0 == counts.1);
    middle.widen_from(&zeros);
    assert!(rt; equals(rt, &middle, &v));
    Ok(())
}

/// A turn by the matrix alone.
fn turn_alone<C: Width>(rt: &impl Abort, columns: &mut C, turn: &Turn) {
    let answer = match turn {
        Turn::One { matrix, qubit } => columns.turn1(rt, matrix, *qubit),
        Turn::Two {
            matrix,
            first,
            second,
        } => columns.turn2(rt, matrix, *first, *second),
    };
    assert_eq!(rt; answer, Ok(()));
}

/// Columns of two tiles take the turns up to the first on the last qubit, and then have the numbers that the matrices make
/// one by one. Columns of one tile take none.
fn run_tiles<C: Width>(rt: &impl Abort, alloc: Global, qubits: u32) -> Result<(), Fail> {
    assert!(rt; 4 <= qubits && qubits <= 16);
    let last = qubits - 1;
    let one = |kind: u32, qubit: u32| Turn::One {
        matrix: dense(kind),
        qubit,
    };
    let two = |kind: u32, first: u32, second: u32| Turn::Two {
        matrix: matrix2(kind),
        first,
        second,
    };
    let run = [
        one(1, 0),
        two(1, 0, last - 1),
        one(2, last - 1),
        two(2, 2, last - 1),
        one(3, 2),
        two(0, 2, last),
        one(0, 1),
    ];
    let mut tiled = C::start(alloc, qubits)?;
    let mut plain = C::start(alloc, qubits)?;
    turn_alone(rt, &mut tiled, &one(1, last));
    turn_alone(rt, &mut plain, &one(1, last));
    assert_eq!(rt; tiled.turns(rt, &run), 5);
    for turn in &run[..5] {
        turn_alone(rt, &mut plain, turn);
    }
    for x in 0..1u32 << qubits {
        assert!(rt; tiled.number(rt, x) == plain.number(rt, x), "number {x}");
    }
    let mut small = C::start(alloc, last)?;
    assert_eq!(rt; small.turns(rt, &run[..4]), 0);
    Ok(())
}

#[test]
fn tiles(rt: HostRuntime) -> Result<(), Fail> {
    run_tiles::<Columns16>(&rt, rt.alloc(), 16)?;
    run_tiles::<Columns32>(&rt, rt.alloc(), 15)?;
    run_tiles::<Columns>(&rt, rt.alloc(), 14)
}

#[test]
fn drawn_circuits16(rt: HostRuntime) -> Result<(), Fail> {
    run_all::<Columns16>(&rt, rt.alloc())
}

#[test]
fn drawn_circuits32(rt: HostRuntime) -> Result<(), Fail> {
    run_all::<Columns32>(&rt, rt.alloc())
}

#[test]
fn drawn_circuits64(rt: HostRuntime) -> Result<(), Fail> {
    run_all::<Columns>(&rt, rt.alloc())
}

#[test]
fn edges(rt: HostRuntime) -> Result<(), Fail> {
    run_edges::<Columns16>(&rt, rt.alloc(), 8192, 28)?;
    run_edges::<Columns32>(&rt, rt.alloc(), 536870912, 60)?;
    run_edges::<Columns>(&rt, rt.alloc(), 2305843009213693952, 124)
}

#[test]
fn copies(rt: HostRuntime) -> Result<(), Fail> {
    run_copies::<Columns16>(&rt, rt.alloc(), 27)?;
    run_copies::<Columns32>(&rt, rt.alloc(), 59)?;
    run_copies::<Columns>(&rt, rt.alloc(), 123)
}

#[test]
fn steps(rt: HostRuntime) -> Result<(), Fail> {
    for qubits in 1..7u32 {
        for seed in 0..4u64 {
            run_steps(&rt, rt.alloc(), qubits, seed)?;
        }
    }
    Ok(())
}

#[test]
fn zeros_stay(rt: HostRuntime) -> Result<(), Fail> {
    run_zeros(&rt, rt.alloc())
}
