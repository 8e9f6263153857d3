//! Rows of `--prob`: by one caller, and by several workers.
use super::workers::check_text as check_shared;
use super::{NO_FAULT, Row, check, hadamards, over_words};
use qh_workers::FreeGate;
use std::test::Fail;

const WORDS: &[&str] = &["-c", "a", "-i", "b", "--prob"];

const BY_ONE: &[&str] = &["-c", "a", "-i", "b", "--prob", "-t", "1"];

const BY_EIGHT: &[&str] = &["-t", "8", "--prob", "-c", "a", "-i", "b"];

/// The text of probabilities, by these words.
const fn probs(
    words: &'static [&'static str],
    circuit: &'static [u8],
    bits: &'static [u8],
    out: &'static [u8],
) -> Row {
    Row {
        words,
        circuit,
        bits,
        fails: NO_FAULT,
        status: 0,
        out,
        err: b"",
    }
}

/// A circuit of these words that is refused.
const fn refused(
    words: &'static [&'static str],
    circuit: &'static [u8],
    bits: &'static [u8],
    err: &'static [u8],
) -> Row {
    Row {
        words,
        circuit,
        bits,
        fails: NO_FAULT,
        status: 2,
        out: b"",
        err,
    }
}

/// A probability of 1/2 each, and (2 + √2)/4 with (2 - √2)/4, in the order of the strings, repeats included.
const fn rows(words: &'static [&'static str]) -> [Row; 3] {
    [
        probs(words, b"1\n0 h 0\n", b"0\n1\n", b"0 1 0 1\n1 1 0 1\n"),
        probs(
            words,
            b"1\n0 h 0\n1 t 0\n2 h 0\n",
            b"1\n0\n1\n",
            b"1 2 -1 2\n0 2 1 2\n1 2 -1 2\n",
        ),
        refused(
            words,
            b"17\n0 h 0\n",
            b"00000000000000000\n",
            b"refused: plan: UncutTooWide 17\n",
        ),
    ]
}

const GENERATED: &[u8] = b"gen 2 5 4 0 0\n00 1 0 2\n10 1 0 2\n01 1 0 2\n11 1 0 2\n";

#[test]
fn by_one(rt: HostRuntime) -> Result<(), Fail> {
    for row in rows(WORDS) {
        check(&rt, &row)?;
    }
    let size = &["-g", "1,1,2,1", "--prob"];
    check(&rt, &probs(size, b"", b"", GENERATED))?;
    let fits = hadamards(rt.alloc(), b"1\n", 120)?;
    over_words(&rt, WORDS, &fits, b"0\n", 0, b"0 1 0 0\n", b"")?;
    let deep = hadamards(rt.alloc(), b"1\n", 121)?;
    let line = b"refused: plan: ProbTooDeep 121\n";
    over_words(&rt, WORDS, &deep, b"0\n", 2, b"", line)?;
    // The width is tested first.
    let wide = hadamards(rt.alloc(), b"17\n", 121)?;
    let bits = b"00000000000000000\n";
    let line = b"refused: plan: UncutTooWide 17\n";
    over_words(&rt, WORDS, &wide, bits, 2, b"", line)
}

#[test]
fn by_workers(rt: HostRuntime) -> Result<(), Fail> {
    let deep = hadamards(rt.alloc(), b"1\n", 121)?;
    let line = b"refused: plan: ProbTooDeep 121\n";
    for words in [BY_ONE, BY_EIGHT] {
        for row in rows(words) {
            check_shared(&rt, &row, row.circuit, &FreeGate)?;
        }
        let row = refused(words, b"", b"0\n", line);
        check_shared(&rt, &row, &deep, &FreeGate)?;
    }
    let size = probs(&["-g", "1,1,2,1", "--prob", "-t", "8"], b"", b"", GENERATED);
    check_shared(&rt, &size, size.circuit, &FreeGate)
}

/// Amplitudes by eight threads: small circuits, and one at the edge of the numbers.
#[test]
fn amplitudes_by_workers(rt: HostRuntime) -> Result<(), Fail> {
    let words = &["-c", "a", "-i", "b", "-t", "8"];
    let turned = b"1\n0 h 0\n1 t 0\n2 h 0\n";
    for row in [
        probs(
            words,
            b"1\n0 h 0\n",
            b"0\n1\n",
            b"0 1 0 0 0 1\n1 1 0 0 0 1\n",
        ),
        probs(words, turned, b"0\n1\n", b"0 1 1 0 0 2\n1 1 -1 0 0 2\n"),
    ] {
        check_shared(&rt, &row, row.circuit, &FreeGate)?;
    }
    let fits = hadamards(rt.alloc(), b"1\n", 251)?;
    let row = probs(words, b"", b"0\n", b"0 1 0 0 0 1\n");
    check_shared(&rt, &row, &fits, &FreeGate)?;
    let over = hadamards(rt.alloc(), b"1\n", 252)?;
    let row = Row {
        status: 3,
        out: b"",
        err: b"overflow: gate 251\n",
        ..row
    };
    check_shared(&rt, &row, &over, &FreeGate)
}
