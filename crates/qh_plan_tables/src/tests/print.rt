//! What no clause can say: that the definitions mean what a person reads, and that a line is written with memory at hand.
ghost use Rattle.std.specs.Prelude.{◌<◌, ◌≤◌, ◌^◌, All, IfSome, IsTrue};
ghost use Rattle.qh_limits.specs.Limits.{coefficient_bits, max_qubits};
ghost use Rattle.qh_ring.specs.Numbers.{IsWithin};
ghost use Rattle.qh_print.specs.Output.{IsShowable};

use qh_limits::{COEFFICIENT_BITS, MAX_GATES, MAX_QUBITS};
use qh_print::{Lines, lines_of, print_line, read_line};
use qh_ring::{Canon, Omega, reduce, within};
use std::process::Abort;
use std::test::Fail;

// 2^126 - 1.
const LARGEST: i128 = 85070591730234615865843651857942052863;

// The canonical form of a number over √2^k, where a line can show it.
fn canonical(z: &Omega, k: u32) -> Option<Canon>
    ensures { IfSome result (λ v. IsShowable v) }
{
    if k as usize > MAX_GATES {
        return None;
    }
    if !within(z, COEFFICIENT_BITS) {
        return None;
    }
    Some(reduce(z, k))
}

// Writes the line of a + bω + cω² + dω³ over √2^k, compares it, and reads it back.
fn expect(
    rt: &(impl Abort + AllocGlobal),
    bits: u64,
    qubits: u32,
    numbers: [i128; 4],
    k: u32,
    line: &str,
) -> Result<(), Fail> {
    let [a, b, c, d] = numbers;
    let Some(value) = canonical(&Omega { a, b, c, d }, k) else {
        panic!(rt; "{line}");
    };
    assert!(rt; 1 <= qubits && qubits <= MAX_QUBITS);
    assert!(rt; bits < 1u64 << qubits);
    let mut out = b"before ".to_vec(rt.alloc())?;
    print_line(rt.alloc(), &mut out, bits, qubits, &value)?;
    let lines = Lines::of(out);
    let (front, written) = lines.as_bytes().split_at_checked(7).ok_or("short")?;
    assert_eq!(rt; front, b"before ".as_slice());
    assert_eq!(rt; written, line.as_bytes());
    assert_eq!(rt;
        read_line(line.as_bytes(), qubits),
        Some((bits, value)),
        "{line}"
    );
    Ok(())
}

#[test]
fn lines_are_written_and_read_back(rt: HostRuntime) -> Result<(), Fail> {
    for (bits, qubits, numbers, k, line) in [
        (0, 1, [1, 0, 0, 0], 0, "0 1 0 0 0 0\n"),
        (1, 1, [1, 0, 0, 0], 1, "1 1 0 0 0 1\n"),
        (0, 1, [0, 1, 0, 0], 1, "0 0 1 0 0 1\n"),
        (0, 1, [2, 0, 0, 0], 2, "0 1 0 0 0 0\n"),
        (0, 1, [0, 1, 0, -1], 1, "0 1 0 0 0 0\n"),
        (1, 1, [1, -1, 0, 0], 2, "1 1 -1 0 0 2\n"),
        (1, 2, [0, 0, 0, 0], 4096, "10 0 0 0 0 0\n"),
        (2, 2, [0, 0, 1, 0], 0, "01 0 0 1 0 0\n"),
        (3, 2, [-1, 0, 0, 0], 3, "11 -1 0 0 0 3\n"),
        (1, 3, [0, 0, 0, 1], 4096, "100 0 0 0 1 4096\n"),
        (
            1099511627774,
            40,
            [LARGEST, -LARGEST, 10, -907],
            36,
            "0111111111111111111111111111111111111111 85070591730234615865843651857942052863 -85070591730234615865843651857942052863 10 -907 36\n",
        ),
    ] {
        expect(&rt, bits, qubits, numbers, k, line)?;
    }
    Ok(())
}

#[test]
fn other_texts_are_no_lines(rt: HostRuntime) {
    for text in [
        "",
        "\n",
        "0\n",
        "0 1 0 0 0 0",
        "0 1 0 0 0 0\r\n",
        "0 1 0 0 0 0 \n",
        " 0 1 0 0 0 0\n",
        "0  1 0 0 0 0\n",
        "0\t1 0 0 0 0\n",
        "0 1 0 0 0 0\n\n",
        "0 1 0 0 0 0\n0 1 0 0 0 0\n",
        "0 1 0 0 0\n",
        "0 1 0 0 0 0 0\n",
        "00 1 0 0 0 0\n",
        "2 1 0 0 0 0\n",
        "0 -0 0 0 0 0\n",
        "0 +1 0 0 0 0\n",
        "0 01 0 0 0 0\n",
        "0 1 00 0 0 0\n",
        "0 1 0 0 0 00\n",
        "0 1 0 0 0 +1\n",
        "0 1 0 0 0 -1\n",
        "0 x 0 0 0 0\n",
        "0 2 0 0 0 2\n",
        "0 0 0 0 0 1\n",
        "0 0 1 0 -1 1\n",
        "0 1 0 0 0 4097\n",
        "0 85070591730234615865843651857942052864 0 0 0 0\n",
        "0 1 0 0 0 4294967296\n",
        "0 \u{e9} 0 0 0 0\n",
    ] {
        assert_eq!(rt; read_line(text.as_bytes(), 1), None, "{text:?}");
    }
}

// Whether these are indices of this many qubits.
fn are_below(indices: &[u64], qubits: u32) -> bool
    requires { qubits ≤ max_qubits }
    ensures { IsTrue result → All (λ x. x < 2 ^ qubits) indices.now }
{
    indices.iter().all(|x| *x < 1 << qubits)
}

// Whether a text can show these.
fn are_within(values: &[Omega]) -> bool
    ensures { IsTrue result → All (IsWithin coefficient_bits) values.now }
{
    values.iter().all(|z| within(z, COEFFICIENT_BITS))
}

#[test]
fn texts_have_a_line_a_value(rt: HostRuntime) -> Result<(), Fail> {
    let zero = Omega {
        a: 0,
        b: 0,
        c: 0,
        d: 0,
    };
    let one = Omega { a: 1, ..zero };
    let two = Omega { a: 2, ..zero };
    let root = Omega {
        b: 1,
        d: -1,
        ..zero
    };
    for (qubits, weight, indices, values, text) in [
        (1, 0, [0, 1], [one, zero], "0 1 0 0 0 0\n1 0 0 0 0 0\n"),
        (2, 2, [2, 1], [two, one], "01 1 0 0 0 0\n10 1 0 0 0 2\n"),
        (3, 1, [7, 7], [root, root], "111 1 0 0 0 0\n111 1 0 0 0 0\n"),
    ] {
        assert!(rt; are_below(&indices, qubits) && are_within(&values));
        let lines = lines_of(rt.alloc(), qubits, weight, &indices, &values)?;
        assert_eq!(rt; lines.as_bytes(), text.as_bytes());
    }
    Ok(())
}
