//! Worked rows: probabilities by hand from the table of the gates, their least forms, and their lines.
ghost use Rattle.std.specs.Prelude.{◌<◌, ◌≤◌, ◌^◌, All, IfSome, IsTrue};
ghost use Rattle.qh_limits.specs.Limits.{max_qubits};
ghost use Rattle.qh_prob.specs.Probability.{IsBounded};

use qh_gates::{Circuit, Gate, Kind, arity};
use qh_limits::{MAX_QUBITS, MAX_UNCUT_QUBITS, MAX_WEIGHT};
use qh_prob::{Prob, all_probabilities, chunk_probabilities, least, print_prob, prob_lines};
use std::alloc::{AllocError, Global};
use std::process::Abort;
use std::test::Fail;
use std::thread::Threads;

/// 2^120.
const LARGEST: i128 = 1329227995784915872903807060280344576;

/// P + Q√2, where it may be a probability over 2^120.
fn prob_of(p: i128, q: i128) -> Option<Prob>
    ensures { IfSome result (λ x. IsBounded x) }
{
    if p < 0 || p > LARGEST || q > p || q < -p {
        return None;
    }
    Some(Prob { p, q })
}

/// Appends the line of (P + Q√2)/2^k in least form.
fn push_least(
    rt: &impl Abort,
    alloc: Global,
    out: &mut Vec<u8>,
    (bits, qubits): (u64, u32),
    (p, q): (i128, i128),
    k: u32,
) -> Result<(), AllocError> {
    let Some(prob) = prob_of(p, q) else {
        panic!(rt; "{p} {q}");
    };
    assert!(rt; 1 <= qubits && qubits <= MAX_QUBITS && k <= MAX_WEIGHT);
    assert!(rt; bits < 1u64 << qubits);
    let (form, power) = least(&prob, k);
    print_prob(alloc, out, bits, qubits, &form, power)
}

#[test]
fn lines(rt: HostRuntime) -> Result<(), Fail> {
    for (index, pair, k, line) in [
        ((0, 1), (1, 0), 1, "0 1 0 1\n"),
        ((1, 1), (2, -1), 2, "1 2 -1 2\n"),
        ((1, 2), (4, 2), 3, "10 2 1 2\n"),
        ((2, 2), (4, -2), 1, "01 2 -1 0\n"),
        ((3, 2), (6, 4), 0, "11 6 4 0\n"),
        ((0, 1), (0, 0), 120, "0 0 0 0\n"),
        ((0, 1), (LARGEST, 0), 120, "0 1 0 0\n"),
        (
            (1099511627774, 40),
            (LARGEST, -LARGEST),
            0,
            "0111111111111111111111111111111111111111 1329227995784915872903807060280344576 -1329227995784915872903807060280344576 0\n",
        ),
    ] {
        let mut out = b"before ".to_vec(rt.alloc())?;
        push_least(&rt, rt.alloc(), &mut out, index, pair, k)?;
        let (front, written) = out.split_at_checked(7).ok_or("short")?;
        assert_eq!(rt; front, b"before ".as_slice());
        assert_eq!(rt; written, line.as_bytes());
    }
    Ok(())
}

/// The circuit of these kinds on qubit 0, or where they act on two on qubits 0 and 1, one at a time.
fn circuit_of(
    rt: &impl Abort,
    alloc: Global,
    qubits: u32,
    kinds: &[Kind],
) -> Result<Circuit, AllocError> {
    assert!(rt; 1 <= qubits && qubits <= MAX_UNCUT_QUBITS);
    let mut circuit = Circuit::start(alloc, qubits);
    let mut time = 0u32;
    for kind in kinds {
        let gate = Gate {
            time,
            kind: *kind,
            q0: 0,
            q1: arity(*kind) - 1,
        };
        assert!(rt; circuit.check(&gate).is_ok());
        circuit.push(gate)?;
        time = time.wrapping_add(1);
    }
    Ok(circuit)
}

/// Whether these are the circuit's probabilities, also by threads, and those behind them 0.
fn expect(
    rt: &(impl Abort + Threads + Sync),
    alloc: Global,
    qubits: u32,
    kinds: &[Kind],
    pairs: [Prob; 4],
) -> Result<(), Fail> {
    let circuit = circuit_of(rt, alloc, qubits, kinds)?;
    assert!(rt; circuit.qubits() <= MAX_UNCUT_QUBITS);
    assert!(rt; circuit.weight() <= MAX_WEIGHT);
    let probs = all_probabilities(alloc, &circuit)?;
    let by_threads = chunk_probabilities(rt, alloc, &circuit)?;
    assert_eq!(rt; by_threads, probs, "{kinds:?}");
    let (front, back) = probs.split_at_checked(4).ok_or("short")?;
    assert_eq!(rt; front, pairs.as_slice(), "{kinds:?}");
    assert!(rt; back.iter().all(|x| *x == NEVER));
    Ok(())
}

const NEVER: Prob = Prob { p: 0, q: 0 };

#[test]
fn probabilities(rt: HostRuntime) -> Result<(), Fail> {
    let no = NEVER;
    let one = Prob { p: 1, q: 0 };
    let more = Prob { p: 2, q: 1 };
    let less = Prob { p: 2, q: -1 };
    let all = Prob { p: LARGEST, q: 0 };
    expect(&rt, rt.alloc(), 2, &[], [one, no, no, no])?;
    expect(&rt, rt.alloc(), 2, &[Kind::H], [one, one, no, no])?;
    let bell = [Kind::H, Kind::Cnot];
    expect(&rt, rt.alloc(), 2, &bell, [one, no, no, one])?;
    expect(&rt, rt.alloc(), 12, &bell, [one, no, no, one])?;
    let turned = [Kind::H, Kind::T, Kind::H];
    expect(&rt, rt.alloc(), 3, &turned, [more, less, no, no])?;
    let moved = [Kind::H, Kind::T, Kind::H, Kind::Is];
    expect(&rt, rt.alloc(), 2, &moved, [more, no, less, no])?;
    expect(&rt, rt.alloc(), 2, &[Kind::H; 120], [all, no, no, no])
}

/// Whether these are indices of this many qubits.
fn are_below(indices: &[u64], qubits: u32) -> bool
    requires { qubits ≤ max_qubits }
    ensures { IsTrue result → All (λ x. x < 2 ^ qubits) indices.now }
{
    indices.iter().all(|x| *x < 1 << qubits)
}

/// Whether this is the text of the circuit's probabilities at these indices.
fn expect_lines(
    rt: &impl Abort,
    alloc: Global,
    qubits: u32,
    kinds: &[Kind],
    indices: &[u64],
    lines: &str,
) -> Result<(), Fail> {
    let circuit = circuit_of(rt, alloc, qubits, kinds)?;
    assert!(rt; circuit.qubits() <= MAX_UNCUT_QUBITS);
    assert!(rt; circuit.weight() <= MAX_WEIGHT);
    assert!(rt; are_below(indices, circuit.qubits()));
    let probs = all_probabilities(alloc, &circuit)?;
    let text = prob_lines(alloc, &circuit, indices, &probs)?;
    assert_eq!(rt; text.as_slice(), lines.as_bytes());
    Ok(())
}

/// A line stands for each index, in their order, also where one is asked again.
#[test]
fn texts(rt: HostRuntime) -> Result<(), Fail> {
    let turned = [Kind::H, Kind::T, Kind::H];
    let moved = [Kind::H, Kind::T, Kind::H, Kind::Is];
    let text = "01 2 -1 2\n00 2 1 2\n00 2 1 2\n10 0 0 0\n";
    expect_lines(&rt, rt.alloc(), 1, &turned, &[], "")?;
    expect_lines(
        &rt,
        rt.alloc(),
        1,
        &[Kind::H],
        &[0, 1],
        "0 1 0 1\n1 1 0 1\n",
    )?;
    expect_lines(&rt, rt.alloc(), 1, &turned, &[0, 1], "0 2 1 2\n1 2 -1 2\n")?;
    expect_lines(&rt, rt.alloc(), 2, &moved, &[2, 0, 0, 1], text)
}
