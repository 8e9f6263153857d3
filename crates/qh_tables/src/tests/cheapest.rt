//! Rows of `-k auto`: the table on the error sink, and what follows; by one caller, and by several workers.
use super::workers::check_text as check_shared;
use super::{NO_FAULT, Row, bell, check};
use qh_workers::FreeGate;
use std::test::Fail;

const BY_ONE: &[&str] = &["-c", "a", "-i", "b", "-k", "auto"];

const BY_EIGHT: &[&str] = &["-t", "8", "-c", "a", "-i", "b", "-k", "auto"];

/// Two crossing gates, of which one cut crosses one each.
const CHAIN: &[u8] = b"3\n0 cz 0 1\n1 is 1 2\n";

/// A refused row of these words.
const fn refused(
    words: &'static [&'static str],
    circuit: &'static [u8],
    bits: &'static [u8],
    err: &'static [u8],
) -> Row {
    Row {
        words,
        circuit,
        bits,
        fails: NO_FAULT,
        status: 2,
        out: b"",
        err,
    }
}

const fn rows(words: &'static [&'static str]) -> [Row; 5] {
    let pair = Row {
        err: b"cut 1 1 8\n",
        ..bell(words)
    };
    [
        pair,
        Row {
            circuit: CHAIN,
            bits: b"000\n",
            out: b"000 1 0 0 0 0\n",
            err: b"cut 1 1 12\ncut 2 2 24\n",
            ..pair
        },
        refused(words, b"1\n0 h 0\n", b"0\n", b"refused: plan: NoCut\n"),
        // Where the text is refused there is no table.
        refused(
            words,
            CHAIN,
            b"00\n",
            b"refused: bitstrings line 1: Length\n",
        ),
        // A sink that fails in the table gets nothing more, and the answer stays.
        Row {
            fails: [&[], &[], &[], &[2]],
            err: b"cut 1 1",
            ..pair
        },
    ]
}

/// No cut is allowed: two prefix gates, where each cut crosses one.
const fn none_allowed(words: &'static [&'static str]) -> [Row; 2] {
    let row = refused(
        words,
        CHAIN,
        b"000\n",
        b"cut 1 PrefixRoot 1\ncut 2 PrefixRoot 1\nrefused: plan: NoCut\n",
    );
    [
        row,
        Row {
            fails: [&[], &[], &[], &[2]],
            err: b"cut 1 P",
            ..row
        },
    ]
}

#[test]
fn by_one(rt: HostRuntime) -> Result<(), Fail> {
    for row in rows(BY_ONE) {
        check(&rt, &row)?;
    }
    for row in none_allowed(&["-k", "auto", "-p", "2", "-c", "a", "-i", "b"]) {
        check(&rt, &row)?;
    }
    let words = &["-c", "a", "-i", "b", "-k", "Auto"];
    let line = b"refused: plan: PartText 0\n";
    check(&rt, &refused(words, CHAIN, b"000\n", line))
}

#[test]
fn by_workers(rt: HostRuntime) -> Result<(), Fail> {
    for row in rows(BY_EIGHT) {
        check_shared(&rt, &row, row.circuit, &FreeGate)?;
    }
    for row in none_allowed(&["-k", "auto", "-p", "2", "-c", "a", "-i", "b", "-t", "8"]) {
        check_shared(&rt, &row, row.circuit, &FreeGate)?;
    }
    Ok(())
}
