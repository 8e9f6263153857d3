//! Worked rows: each has the words, the two texts, the calls that fail, and the status, output and message that follow.
mod cheapest;
mod probs;
mod workers;

use qh_disk::MemDisk;
use qh_io::{MemSink, MemSource};
use qh_lease::ScriptTimer;
use qh_top::qsimh_alone;
use std::alloc::{AllocError, Global};
use std::process::Abort;
use std::test::Fail;

/// One run of the call. `fails` names the calls of the circuit, the bitstrings, the output and the error sink that fail.
#[derive(Clone, Copy)]
struct Row {
    words: &'static [&'static str],
    circuit: &'static [u8],
    bits: &'static [u8],
    fails: [&'static [u64]; 4],
    status: u8,
    out: &'static [u8],
    err: &'static [u8],
}

const WORDS: &[&str] = &["-c", "a", "-i", "b"];

const NO_FAULT: [&[u64]; 4] = [&[], &[], &[], &[]];

const USAGE: &[u8] =
    b"usage: qsimh_amplitudes -c FILE -i FILE [-d T] [-k LIST] [-p N] [-r N] [-w N] [-o FILE] [-t N] [-v N] [-j FILE] [-l SECONDS] [--new] [-g S,R,C,D]\n";

/// A row without faults that ends with status 0.
const fn good(circuit: &'static [u8], bits: &'static [u8], out: &'static [u8]) -> Row {
    Row {
        words: WORDS,
        circuit,
        bits,
        fails: NO_FAULT,
        status: 0,
        out,
        err: b"",
    }
}

/// A row whose text is refused.
const fn refused(circuit: &'static [u8], bits: &'static [u8], err: &'static [u8]) -> Row {
    Row {
        words: WORDS,
        circuit,
        bits,
        fails: NO_FAULT,
        status: 2,
        out: b"",
        err,
    }
}

/// The first circuit with faults.
const fn faulty(
    fails: [&'static [u64]; 4],
    status: u8,
    out: &'static [u8],
    err: &'static [u8],
) -> Row {
    Row {
        words: WORDS,
        circuit: b"1\n",
        bits: b"0\n",
        fails,
        status,
        out,
        err,
    }
}

/// Other words over the first circuit.
const fn misused(words: &'static [&'static str]) -> Row {
    Row {
        words,
        circuit: b"1\n",
        bits: b"0\n",
        fails: NO_FAULT,
        status: 1,
        out: b"",
        err: USAGE,
    }
}

fn strings(alloc: Global, all: &[&str]) -> Result<Vec<String>, AllocError> {
    let mut words = Vec::new(alloc);
    for word in all {
        words.push(String::from_str(alloc, word)?)?;
    }
    Ok(words)
}

/// Runs without a journal, over two disks each call of which would fail.
fn run_alone(
    alloc: Global,
    words: &[String],
    circuit: &mut MemSource,
    bits: &mut MemSource,
    out: &mut MemSink,
    err: &mut MemSink,
) -> Result<u8, AllocError> {
    let mut disk = MemDisk::new(alloc, b"", 0, &[], Some(0))?;
    let mut old = MemDisk::new(alloc, b"", 0, &[], Some(0))?;
    let mut timer = ScriptTimer::new(alloc, &[])?;
    Ok(qsimh_alone(
        alloc, words, circuit, bits, out, err, &mut disk, &mut old, &mut timer,
    ))
}

fn check(rt: &(impl Abort + AllocGlobal), row: &Row) -> Result<(), Fail> {
    let alloc = rt.alloc();
    let words = strings(alloc, row.words)?;
    let mut circuit = MemSource::new(alloc, row.circuit, 3, row.fails[0])?;
    let mut bits = MemSource::new(alloc, row.bits, 2, row.fails[1])?;
    let mut out = MemSink::new(alloc, 1000, 10, row.fails[2])?;
    let mut err = MemSink::new(alloc, 1000, 7, row.fails[3])?;
    let status = run_alone(
        alloc,
        words.as_slice(),
        &mut circuit,
        &mut bits,
        &mut out,
        &mut err,
    )?;
    assert_eq!(rt; status, row.status);
    assert_eq!(rt; out.bytes(), row.out);
    assert_eq!(rt; err.bytes(), row.err);
    Ok(())
}

#[test]
fn amplitudes(rt: HostRuntime) -> Result<(), Fail> {
    for row in [
        good(b"1\n", b"0\n", b"0 1 0 0 0 0\n"),
        good(b"1\n0 h 0\n", b"0\n1\n", b"0 1 0 0 0 1\n1 1 0 0 0 1\n"),
        good(b"1\n0 hz_1_2 0\n", b"0\n1\n", b"0 0 1 0 0 1\n1 1 0 0 0 1\n"),
        good(b"2\n0 h 0\n0 h 1\n1 cz 0 1\n", b"11\n", b"11 -1 0 0 0 2\n"),
        good(b"2\n0 x 0\n1 is 0 1\n", b"01\n", b"01 0 0 1 0 0\n"),
        good(b"2\n0 id2 0 1\n1 x 0\n", b"10\n", b"10 1 0 0 0 0\n"),
        // A circuit as files of random circuits have it.
        good(
            b"2\n0 h 0\n0 h 1\n1 cz 0 1\n2 t 0\n2 x_1_2 1\n3 h 0\n3 h 1\n",
            b"00\n10\n01\n11\n",
            b"00 1 0 0 0 2\n10 1 0 0 0 2\n01 0 0 0 1 2\n11 0 0 0 -1 2\n",
        ),
        good(
            b"2\n0 h 0\n1 s 0\n2 sw 0 1\n",
            b"00\n10\n01\n11\n",
            b"00 1 0 0 0 1\n10 0 0 0 0 0\n01 0 0 1 0 1\n11 0 0 0 0 0\n",
        ),
        // Bell, as people write it. Bitstrings are answered in their order, repeats included; the first character is qubit 0.
        good(
            b"# a\r\n2\r\n\r\n 0 h 0 \r\n1\tcnot 0 1",
            b"00\n10\n# none\n 01 \n11\n00",
            b"00 1 0 0 0 1\n10 0 0 0 0 0\n01 0 0 0 0 0\n11 1 0 0 0 1\n00 1 0 0 0 1\n",
        ),
    ] {
        check(&rt, &row)?;
    }
    Ok(())
}

/// With and without the greatest time.
#[test]
fn greatest_time(rt: HostRuntime) -> Result<(), Fail> {
    let whole = good(
        b"1\n0 h 0\n1 t 0\n2 h 0\n",
        b"0\n1\n",
        b"0 1 1 0 0 2\n1 1 -1 0 0 2\n",
    );
    check(&rt, &whole)?;
    let front = Row {
        words: &["-c", "a", "-i", "b", "-d", "1"],
        out: b"0 1 0 0 0 1\n1 0 1 0 0 1\n",
        ..whole
    };
    check(&rt, &front)
}

#[test]
fn refusals(rt: HostRuntime) -> Result<(), Fail> {
    for row in [
        refused(
            b"2\n0 h 0\n0 cz 0 1\n",
            b"00\n",
            b"refused: circuit line 3: Overlap\n",
        ),
        refused(
            b"2\n1 h 0\n0 h 1\n",
            b"00\n",
            b"refused: circuit line 3: TimeBack\n",
        ),
        refused(
            b"1\n3 rx 0 0.5\n",
            b"0\n",
            b"refused: circuit line 2: UnknownGate\n",
        ),
        refused(b"", b"0\n", b"refused: circuit line 0: NoCount\n"),
        refused(b"41\n", b"0\n", b"refused: circuit line 1: BadCount\n"),
        refused(
            b"2\nx h 0\n",
            b"00\n",
            b"refused: circuit line 2: BadTime\n",
        ),
        refused(
            b"2\n0 h 2\n",
            b"00\n",
            b"refused: circuit line 2: BadQubit\n",
        ),
        refused(
            b"2\n0 cz 1 1\n",
            b"00\n",
            b"refused: circuit line 2: SameQubit\n",
        ),
        refused(
            b"2\n0 h 0 1\n",
            b"00\n",
            b"refused: circuit line 2: Extra\n",
        ),
        refused(
            b"2\n0 h 0\n",
            b"00\n1\n",
            b"refused: bitstrings line 2: Length\n",
        ),
        refused(
            b"2\n0 h 0\n",
            b"0a\n",
            b"refused: bitstrings line 1: Letter\n",
        ),
        refused(
            b"2\n0 h 0\n",
            b"",
            b"refused: bitstrings line 0: NoStrings\n",
        ),
        // A circuit that is too wide is refused once both texts are accepted.
        refused(
            b"17\n0 h 0\n",
            b"00000000000000000\n",
            b"refused: plan: UncutTooWide 17\n",
        ),
        refused(
            b"17\n0 h 0\n",
            b"0\n",
            b"refused: bitstrings line 1: Length\n",
        ),
    ] {
        check(&rt, &row)?;
    }
    Ok(())
}

/// A circuit with this first line and this many Hadamard gates on qubit 0.
fn hadamards(alloc: Global, head: &[u8], count: u32) -> Result<Vec<u8>, AllocError> {
    let mut text = Vec::from_slice(alloc, head)?;
    for time in 0..count {
        let line = format!(in alloc; "{time} h 0\n")?;
        text.extend_from_slice(line.as_bytes())?;
    }
    Ok(text)
}

/// The state reaches 2^126 after gate 251, counted from 0.
#[test]
fn overflow(rt: HostRuntime) -> Result<(), Fail> {
    let fits = hadamards(rt.alloc(), b"1\n", 251)?;
    over_text(&rt, &fits, 0, b"0 1 0 0 0 1\n", b"")?;
    let over = hadamards(rt.alloc(), b"1\n", 252)?;
    over_text(&rt, &over, 3, b"", b"overflow: gate 251\n")
}

/// Along a path both halves and their product count.
#[test]
fn overflow_of_a_path(rt: HostRuntime) -> Result<(), Fail> {
    let words = &["-c", "a", "-i", "b", "-k", "0"];
    let fits = hadamards(rt.alloc(), b"2\n", 182)?;
    over_words(&rt, words, &fits, b"00\n", 0, b"00 1 0 0 0 0\n", b"")?;
    let over = hadamards(rt.alloc(), b"2\n", 184)?;
    over_words(&rt, words, &over, b"00\n", 3, b"", b"overflow: path 0\n")
}

#[test]
fn faults(rt: HostRuntime) -> Result<(), Fail> {
    for row in [
        faulty([&[1], &[], &[], &[]], 4, b"", b"read fault: circuit\n"),
        faulty([&[], &[2], &[], &[]], 4, b"", b"read fault: bitstrings\n"),
        faulty(
            [&[], &[], &[2], &[]],
            6,
            b"0 1 0 0 0 ",
            b"write fault after 10 bytes\n",
        ),
        faulty(
            [&[], &[], &[1], &[]],
            6,
            b"",
            b"write fault after 0 bytes\n",
        ),
        // A fault of the error sink changes no status.
        faulty([&[], &[], &[1], &[3]], 6, b"", b"write fault af"),
    ] {
        check(&rt, &row)?;
    }
    Ok(())
}

#[test]
fn usage(rt: HostRuntime) -> Result<(), Fail> {
    for row in [
        misused(&[]),
        misused(&["-c", "a", "-i", "b", "-d"]),
        misused(&["-c", "a", "-i", "b", "-d", "4294967296"]),
        misused(&["-c", "a", "-i", "b", "-d", "-1"]),
        misused(&["-c", "a", "-i", "b", "-e", "1"]),
        misused(&["-c", "a", "-i", "b", "-c", "a"]),
        misused(&["-c", "a", "-i", "b", "-p", "1"]),
        misused(&["-c", "a", "-i", "b", "-k", "0", "-t", "17"]),
        misused(&["-c", "a", "-i", "b", "-t", "0"]),
        misused(&["-c", "a", "-i", "b", "-l", "1"]),
        misused(&["-c", "a", "-i", "b", "-g", "1,1,1,1"]),
        misused(&["-c", "a"]),
        misused(&["--help"]),
    ] {
        check(&rt, &row)?;
    }
    Ok(())
}

/// Bell with these words behind its files.
const fn bell(words: &'static [&'static str]) -> Row {
    Row {
        words,
        circuit: b"2\n0 h 0\n1 cnot 0 1\n",
        bits: b"00\n10\n01\n11\n",
        fails: NO_FAULT,
        status: 0,
        out: b"00 1 0 0 0 1\n10 0 0 0 0 0\n01 0 0 0 0 0\n11 1 0 0 0 1\n",
        err: b"",
    }
}

/// Two crossing gates, the first of which is a prefix gate.
const fn two(words: &'static [&'static str], out: &'static [u8]) -> Row {
    Row {
        words,
        circuit: b"2\n0 h 0\n0 h 1\n1 cz 0 1\n2 h 0\n3 cz 0 1\n",
        bits: b"00\n10\n01\n11\n",
        fails: NO_FAULT,
        status: 0,
        out,
        err: b"",
    }
}

#[test]
fn cuts(rt: HostRuntime) -> Result<(), Fail> {
    for row in [
        bell(&["-c", "a", "-i", "b", "-k", "0"]),
        bell(&["-k", "1", "-i", "b", "-c", "a"]),
        bell(&["-c", "a", "-i", "b", "-k", "0", "-p", "0", "-r", "1"]),
        Row {
            circuit: b"2\n0 x 0\n1 is 0 1\n",
            bits: b"01\n",
            out: b"01 0 0 1 0 0\n",
            ..bell(&["-c", "a", "-i", "b", "-k", "0"])
        },
        // No gate crosses: one path in one range.
        Row {
            circuit: b"2\n0 h 0\n",
            bits: b"00\n",
            out: b"00 1 0 0 0 1\n",
            ..bell(&["-c", "a", "-i", "b", "-k", "0"])
        },
        two(
            &["-c", "a", "-i", "b", "-k", "0", "-p", "1", "-w", "0"],
            b"00 1 0 0 0 3\n10 1 0 0 0 3\n01 1 0 0 0 3\n11 -1 0 0 0 3\n",
        ),
        two(
            &["-c", "a", "-i", "b", "-k", "0", "-p", "1", "-w", "1"],
            b"00 1 0 0 0 3\n10 -1 0 0 0 3\n01 -1 0 0 0 3\n11 -1 0 0 0 3\n",
        ),
        two(
            &["-c", "a", "-i", "b", "-k", "0", "-p", "1"],
            b"00 1 0 0 0 1\n10 0 0 0 0 0\n01 0 0 0 0 0\n11 -1 0 0 0 1\n",
        ),
    ] {
        check(&rt, &row)?;
    }
    Ok(())
}

/// Bell with another part 1, which is refused.
const fn cut_refused(words: &'static [&'static str], err: &'static [u8]) -> Row {
    Row {
        status: 2,
        out: b"",
        err,
        ..bell(words)
    }
}

#[test]
fn refused_cuts(rt: HostRuntime) -> Result<(), Fail> {
    for row in [
        cut_refused(
            &["-c", "a", "-i", "b", "-k", "0,,1"],
            b"refused: plan: PartText 1\n",
        ),
        cut_refused(
            &["-c", "a", "-i", "b", "-k", "2"],
            b"refused: plan: NoSuchQubit 2\n",
        ),
        cut_refused(
            &["-c", "a", "-i", "b", "-k", "0,0"],
            b"refused: plan: QubitTwice 0\n",
        ),
        cut_refused(
            &["-c", "a", "-i", "b", "-k", "0,1"],
            b"refused: plan: EmptyPart\n",
        ),
        cut_refused(
            &["-c", "a", "-i", "b", "-k", "0", "-p", "1", "-w", "2"],
            b"refused: plan: PrefixValue 2\n",
        ),
        cut_refused(
            &["-c", "a", "-i", "b", "-k", "0", "-p", "2"],
            b"refused: plan: PrefixRoot 1\n",
        ),
    ] {
        check(&rt, &row)?;
    }
    Ok(())
}

#[test]
fn generated(rt: HostRuntime) -> Result<(), Fail> {
    for row in [
        Row {
            circuit: b"not read",
            bits: b"",
            out: b"gen 2 5 4 1 1\n00 1 0 0 0 2\n10 1 0 0 0 2\n01 1 0 0 0 2\n11 -1 0 0 0 2\n",
            ..bell(&["-g", "1,1,2,1", "-k", "0"])
        },
        Row {
            circuit: b"not read",
            bits: b"",
            out: b"gen 2 5 4 0 0\n00 1 0 0 0 2\n10 1 0 0 0 2\n01 1 0 0 0 2\n11 -1 0 0 0 2\n",
            ..bell(&["-g", "1,1,2,1"])
        },
    ] {
        check(&rt, &row)?;
    }
    Ok(())
}

/// All gates on three qubits, and on six with gates across each pair of neighbours.
const ALL_GATES: [(u32, &str, &str); 2] = [
    (
        3,
        "3\n0 h 0\n0 h 1\n0 h 2\n1 cz 0 1\n2 cnot 1 2\n3 t 0\n3 s 1\n3 x_1_2 2\n4 is 0 2\n5 y_1_2 0\n5 hz_1_2 1\n5 x 2\n6 sw 0 1\n7 y 0\n7 z 1\n7 id1 2\n8 id2 1 2\n9 h 0\n9 h 1\n9 h 2\n",
        "000\n100\n010\n110\n001\n101\n011\n111\n",
    ),
    (
        6,
        "6\n0 h 0\n0 h 1\n0 h 2\n0 h 3\n0 h 4\n0 h 5\n1 cz 0 1\n1 cnot 3 2\n1 is 4 5\n2 t 0\n2 s 1\n2 x_1_2 2\n2 y_1_2 3\n2 hz_1_2 4\n3 cnot 1 2\n3 cz 3 4\n4 y 0\n4 z 5\n5 sw 5 0\n6 h 0\n6 h 2\n6 h 5\n",
        "000000\n111111\n101010\n010101\n100110\n001011\n",
    ),
];

/// The words with a part 1: the qubits of this mask.
fn cut_words(alloc: Global, qubits: u32, mask: u32) -> Result<Vec<String>, AllocError> {
    let mut part = String::new(alloc);
    for qubit in 0..qubits.min(6) {
        if mask >> qubit & 1 == 1 {
            let more = format!(in alloc; ",{qubit}")?;
            part.push_str(if part.is_empty() {
                more.trim_start_matches(',')
            } else {
                more.as_str()
            })?;
        }
    }
    let mut words = strings(alloc, &["-c", "a", "-i", "b", "-k"])?;
    words.push(part)?;
    Ok(words)
}

/// Runs both texts with these words, and compares the output with the wanted one, where there is one.
fn run_texts(
    rt: &(impl Abort + AllocGlobal),
    words: &[String],
    circuit: &str,
    bits: &str,
) -> Result<Vec<u8>, Fail> {
    let alloc = rt.alloc();
    let mut circuit = MemSource::new(alloc, circuit.as_bytes(), 4096, &[])?;
    let mut bits = MemSource::new(alloc, bits.as_bytes(), 4096, &[])?;
    let mut out = MemSink::new(alloc, 1000, 1000, &[])?;
    let mut err = MemSink::new(alloc, 1000, 1000, &[])?;
    let status = run_alone(alloc, words, &mut circuit, &mut bits, &mut out, &mut err)?;
    assert_eq!(rt; (status, err.bytes()), (0, b"".as_slice()));
    Ok(Vec::from_slice(alloc, out.bytes())?)
}

/// Every cut of a circuit gives the text of the circuit that is not cut.
#[test]
fn every_cut(rt: HostRuntime) -> Result<(), Fail> {
    let alloc = rt.alloc();
    let uncut = strings(alloc, WORDS)?;
    for (qubits, circuit, bits) in &ALL_GATES {
        let wanted = run_texts(&rt, &uncut, circuit, bits)?;
        for mask in 1..(1 << (*qubits).min(6)) - 1 {
            let words = cut_words(alloc, *qubits, mask)?;
            let found = run_texts(&rt, &words, circuit, bits)?;
            assert_eq!(rt; found, wanted);
        }
    }
    Ok(())
}

/// A text of line ends alone.
fn empty_lines(alloc: Global, length: usize) -> Result<Vec<u8>, AllocError> {
    vec![in alloc; b'\n'; length]
}

/// The answer over a long circuit text.
fn over_text(
    rt: &(impl Abort + AllocGlobal),
    circuit: &[u8],
    status: u8,
    text: &[u8],
    line: &[u8],
) -> Result<(), Fail> {
    over_texts(rt, circuit, b"0\n", status, text, line)
}

fn over_texts(
    rt: &(impl Abort + AllocGlobal),
    circuit: &[u8],
    bits: &[u8],
    status: u8,
    text: &[u8],
    line: &[u8],
) -> Result<(), Fail> {
    over_words(rt, WORDS, circuit, bits, status, text, line)
}

fn over_words(
    rt: &(impl Abort + AllocGlobal),
    words: &[&str],
    circuit: &[u8],
    bits: &[u8],
    status: u8,
    text: &[u8],
    line: &[u8],
) -> Result<(), Fail> {
    let alloc = rt.alloc();
    let words = strings(alloc, words)?;
    let mut circuit = MemSource::new(alloc, circuit, 4096, &[])?;
    let mut bits = MemSource::new(alloc, bits, 4096, &[])?;
    let mut out = MemSink::new(alloc, 100, 100, &[])?;
    let mut err = MemSink::new(alloc, 100, 100, &[])?;
    let answer = run_alone(
        alloc,
        words.as_slice(),
        &mut circuit,
        &mut bits,
        &mut out,
        &mut err,
    )?;
    assert_eq!(rt; answer, status);
    assert_eq!(rt; out.bytes(), text);
    assert_eq!(rt; err.bytes(), line);
    Ok(())
}

#[test]
fn too_long(rt: HostRuntime) -> Result<(), Fail> {
    let circuit = empty_lines(rt.alloc(), (1 << 20) + 1)?;
    over_texts(
        &rt,
        &circuit,
        b"0\n",
        2,
        b"",
        b"refused: circuit too long\n",
    )?;
    let bits = empty_lines(rt.alloc(), (1 << 18) + 1)?;
    over_texts(
        &rt,
        b"1\n",
        &bits,
        2,
        b"",
        b"refused: bitstrings too long\n",
    )?;
    let blank = empty_lines(rt.alloc(), 1 << 20)?;
    over_texts(
        &rt,
        &blank,
        b"0\n",
        2,
        b"",
        b"refused: circuit line 0: NoCount\n",
    )
}
