//! What no clause can say: that the definitions mean what a person reads, and that a text is read with memory at hand.
use qh_bits::{BitsFault, BitsWhy, read_bits};
use std::alloc::{AllocError, Global};
use std::process::Abort;
use std::test::Fail;

// Reads the text and compares the indices, or the line and its fault.
fn expect(
    rt: &(impl Abort + AllocGlobal),
    text: &[u8],
    qubits: u32,
    want: Result<&[u64], (u64, BitsWhy)>,
) {
    assert!(rt; 1 <= qubits && qubits <= 40);
    match (&read_bits(rt.alloc(), text, qubits), want) {
        (Ok(indices), Ok(wanted)) => assert_eq!(rt; indices.as_slice(), wanted, "{text:?}"),
        (Err(fault), Err((line, why))) => {
            assert_eq!(rt; *fault, BitsFault::Line { line, why }, "{text:?}");
        }
        (answer, _) => panic!(rt; "{text:?}: {answer:?}"),
    }
}

#[test]
fn texts_are_read(rt: HostRuntime) {
    for (text, qubits, want) in [
        ("00\n10\n01\n11\n", 2, [0, 1, 2, 3].as_slice()),
        ("1", 1, [1].as_slice()),
        (
            "0100000000000000000000000000000000000000\n",
            40,
            [2].as_slice(),
        ),
        (
            "1111111111111111111111111111111111111111\n",
            40,
            [1099511627775].as_slice(),
        ),
        (
            "# a\r\n\r\n \t01 \t\r\n  # b\n01\r\n\n11",
            2,
            [2, 2, 3].as_slice(),
        ),
    ] {
        expect(&rt, text.as_bytes(), qubits, Ok(want));
    }
}

#[test]
fn the_first_fault_is_named(rt: HostRuntime) {
    let (none, letter, length) = (BitsWhy::NoStrings, BitsWhy::Letter, BitsWhy::Length);
    for (text, line, why) in [
        (b"".as_slice(), 0, none),
        (b"\n \t\n# 00\n\r\n".as_slice(), 0, none),
        (b"00\n1\n".as_slice(), 2, length),
        (b"\n00\n# x\n010\n2\n".as_slice(), 4, length),
        (b"0a0\n".as_slice(), 1, letter),
        (b"0 1\n".as_slice(), 1, letter),
        (b"00\r\r\n".as_slice(), 1, letter),
        (b"00 \r \n".as_slice(), 1, letter),
        (b"00\r01\r".as_slice(), 1, letter),
        (b"\xef\xbb\xbf00\n".as_slice(), 1, letter),
        (b"0\x000\x00\n\x00".as_slice(), 1, letter),
        (b"00 # the ground state\n".as_slice(), 1, letter),
    ] {
        expect(&rt, text, 2, Err((line, why)));
    }
}

// So many lines, each with the string `1`.
fn ones(alloc: Global, count: usize) -> Result<Vec<u8>, AllocError> {
    let mut text = Vec::new(alloc);
    for _ in 0..count {
        text.extend_from_slice(b"1\n")?;
    }
    Ok(text)
}

#[test]
fn a_text_has_at_most_4096_strings(rt: HostRuntime) -> Result<(), Fail> {
    let mut text = ones(rt.alloc(), 4096)?;
    let Ok(indices) = read_bits(rt.alloc(), &text, 1) else {
        panic!(rt; "4,096 strings were refused");
    };
    assert_eq!(rt; indices.len(), 4096);
    text.extend_from_slice(b"# no string\n\n")?;
    let Ok(_) = read_bits(rt.alloc(), &text, 1) else {
        panic!(rt; "a comment was counted");
    };
    text.extend_from_slice(b"x\n")?;
    expect(&rt, &text, 1, Err((4099, BitsWhy::TooMany)));
    Ok(())
}
