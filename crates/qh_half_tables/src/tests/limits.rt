//! A Bell pair, the limit on both sides, and a half that is narrow, wide, over, and narrow again once it is copied onto.
ghost use Rattle.std.specs.Prelude.{◌≡◌, ◌<◌, IsTrue};
ghost use Rattle.qh_kernel.specs.Rows.{are_single};

use qh_half::{Half, Over, Steps};
use qh_ring::{Entry, Mat2, Mat4, Omega};
use std::alloc::Global;
use std::marker::Brand;
use std::process::Abort;
use std::sync::ledger::{Blank, Ledger};
use std::test::Fail;

const O: Entry = Entry::Zero;

const P0: Entry = Entry::Unit(0);

const P4: Entry = Entry::Unit(4);

fn h() -> Mat2 {
    Mat2 {
        rows: [[P0, P0], [P0, P4]],
    }
}

fn cnot() -> Mat4
    ensures { IsTrue (are_single result.rows) }
{
    Mat4 {
        rows: [[P0, O, O, O], [O, P0, O, O], [O, O, O, P0], [O, O, P0, O]],
    }
}

fn whole(a: i128) -> Omega {
    Omega { a, ..Omega::ZERO }
}

fn number(rt: &impl Abort, half: &Half, index: u32) -> Omega {
    assert!(rt; !half.is_over() && half.qubits() == 2 && index < 4);
    half.at(index)
}

fn apply1<L: Ledger>(
    rt: &impl Abort,
    half: &mut Half,
    m: &Mat2,
    q: u32,
    steps: &mut Steps<L>,
) -> Result<(), Over> {
    assert!(rt; q < half.qubits());
    half.apply1(m, q, steps)
}

fn apply_cnot<L: Ledger>(
    rt: &impl Abort,
    half: &mut Half,
    q0: u32,
    q1: u32,
    steps: &mut Steps<L>,
) -> Result<(), Over> {
    assert!(rt; q0 < half.qubits() && q1 < half.qubits() && q0 != q1);
    half.apply2(&cnot(), q0, q1, steps)
}

fn bell_rows<L: Ledger>(rt: &impl Abort, half: &mut Half, steps: &mut Steps<L>) {
    assert_eq!(rt; apply1(rt, half, &h(), 1, steps), Ok(()));
    assert_eq!(rt; apply_cnot(rt, half, 1, 0, steps), Ok(()));
    for (index, a) in [(0, 1), (1, 0), (2, 0), (3, 1)] {
        assert_eq!(rt; number(rt, half, index), whole(a), "{index}");
    }
}

fn run_bell<L: Ledger>(rt: &impl Abort, alloc: Global, blank: Blank) -> Result<(), Fail>
    requires name { blank.name ≡ L.name }
    requires parts { blank.parts ≡ L.parts }
    requires some { 0 < blank.parts }
{
    let mut steps = Steps::<L>::new(blank);
    let mut half = Half::ground(alloc, 2)?;
    bell_rows(rt, &mut half, &mut steps);
    Ok(())
}

fn copy(rt: &impl Abort, half: &mut Half, other: &Half) {
    let qubits = half.qubits();
    let others = other.qubits();
    assert!(rt; qubits == others);
    half.copy_from(other);
}

/// How Euclid's algorithm takes the pair (top, other) apart to (0, 1): whether each step takes from the first, the last
/// step first.
fn sums_of(rt: &impl Abort, alloc: Global, top: i128, other: i128) -> Result<Vec<bool>, Fail> {
    let mut sums = Vec::new(alloc);
    let mut pair = (top, other);
    for _step in 0..400 {
        if pair.0 == 0 {
            break;
        }
        let first = pair.0 >= pair.1;
        pair = if first {
            (pair.0.wrapping_sub(pair.1), pair.1)
        } else {
            (pair.0, pair.1.wrapping_sub(pair.0))
        };
        sums.push(first)?;
    }
    assert_eq!(rt; pair, (0, 1));
    sums.reverse();
    Ok(sums)
}

/// Brings a half to the pair that so many sums make of (0, 1), and tells the last answer.
fn climb<L: Ledger>(
    rt: &impl Abort,
    half: &mut Half,
    sums: &[bool],
    steps: &mut Steps<L>,
) -> Result<(), Over> {
    let flip = Mat2 {
        rows: [[O, P0], [P0, O]],
    };
    let to_first = Mat2 {
        rows: [[P0, P0], [O, P0]],
    };
    let to_second = Mat2 {
        rows: [[P0, O], [P0, P0]],
    };
    let mut answer = apply1(rt, half, &flip, 0, steps);
    for first in sums.iter() {
        assert!(rt; matches!(answer, Ok(())));
        let m = if *first { to_first } else { to_second };
        answer = apply1(rt, half, &m, 0, steps);
    }
    answer
}

const TOP: i128 = 85070591730234615865843651857942052863;

fn limit_rows<L: Ledger>(
    rt: &impl Abort,
    fits: &mut Half,
    half: &mut Half,
    other: &mut Half,
    sums: (&[bool], &[bool]),
    steps: &mut Steps<L>,
) {
    assert_eq!(rt; climb(rt, fits, sums.0, steps), Ok(()));
    assert_eq!(rt; number(rt, fits, 0), whole(TOP));
    assert_eq!(rt; climb(rt, half, sums.1, steps), Err(Over));
    assert!(rt; half.is_over());
    assert_eq!(rt; apply1(rt, half, &h(), 1, steps), Err(Over));
    assert_eq!(rt; apply_cnot(rt, half, 0, 1, steps), Err(Over));
    copy(rt, other, half);
    assert!(rt; other.is_over());
    copy(rt, half, fits);
    assert_eq!(rt; number(rt, half, 0), whole(TOP));
}

fn run_limit<L: Ledger>(rt: &impl Abort, alloc: Global, blank: Blank) -> Result<(), Fail>
    requires name { blank.name ≡ L.name }
    requires parts { blank.parts ≡ L.parts }
    requires some { 0 < blank.parts }
{
    let mut steps = Steps::<L>::new(blank);
    let below = sums_of(rt, alloc, TOP, 52576517132350718291434092471003085667)?;
    let above = sums_of(rt, alloc, TOP + 1, 52576517132350718291434092471003086411)?;
    let mut fits = Half::ground(alloc, 2)?;
    let mut half = Half::ground(alloc, 2)?;
    let mut other = Half::ground(alloc, 2)?;
    limit_rows(
        rt,
        &mut fits,
        &mut half,
        &mut other,
        (&below, &above),
        &mut steps,
    );
    Ok(())
}

fn number_of_one(rt: &impl Abort, half: &Half, index: u32) -> Omega {
    assert!(rt; !half.is_over() && half.qubits() == 1 && index < 2);
    half.at(index)
}

/// The last answer of so many Hadamard gates on qubit 0.
fn hadamards<L: Ledger>(
    rt: &impl Abort,
    half: &mut Half,
    times: u32,
    steps: &mut Steps<L>,
) -> Result<(), Over> {
    let mut answer = Ok(());
    for _gate in 0..times {
        answer = apply1(rt, half, &h(), 0, steps);
    }
    answer
}

/// 2k Hadamard gates make of 1 and 0 the numbers 2^k and 0.
fn deep_rows<L: Ledger>(
    rt: &impl Abort,
    half: &mut Half,
    other: &mut Half,
    fresh: &Half,
    steps: &mut Steps<L>,
) {
    assert_eq!(rt; hadamards(rt, half, 126, steps), Ok(()));
    assert_eq!(rt; number_of_one(rt, half, 0), whole(9223372036854775808));
    assert_eq!(rt; number_of_one(rt, half, 1), Omega::ZERO);
    copy(rt, other, half);
    assert_eq!(rt; number_of_one(rt, other, 0), whole(9223372036854775808));
    assert_eq!(rt; hadamards(rt, half, 125, steps), Ok(()));
    assert_eq!(rt; hadamards(rt, half, 1, steps), Err(Over));
    assert_eq!(rt; hadamards(rt, half, 1, steps), Err(Over));
    copy(rt, half, fresh);
    assert_eq!(rt; number_of_one(rt, half, 0), Omega::ONE);
    assert_eq!(rt; number_of_one(rt, half, 1), Omega::ZERO);
    assert_eq!(rt; hadamards(rt, half, 2, steps), Ok(()));
    assert_eq!(rt; number_of_one(rt, half, 0), whole(2));
}

fn run_deep<L: Ledger>(rt: &impl Abort, alloc: Global, blank: Blank) -> Result<(), Fail>
    requires name { blank.name ≡ L.name }
    requires parts { blank.parts ≡ L.parts }
    requires some { 0 < blank.parts }
{
    let mut steps = Steps::<L>::new(blank);
    let mut half = Half::ground(alloc, 1)?;
    let mut other = Half::ground(alloc, 1)?;
    let fresh = Half::ground(alloc, 1)?;
    deep_rows(rt, &mut half, &mut other, &fresh, &mut steps);
    Ok(())
}

#[test]
fn deep(rt: HostRuntime) -> Result<(), Fail> {
    run_deep::<Brand>(&rt, rt.alloc(), Blank::new(1))
}

#[test]
fn bell(rt: HostRuntime) -> Result<(), Fail> {
    run_bell::<Brand>(&rt, rt.alloc(), Blank::new(1))
}

#[test]
fn limit(rt: HostRuntime) -> Result<(), Fail> {
    run_limit::<Brand>(&rt, rt.alloc(), Blank::new(1))
}
