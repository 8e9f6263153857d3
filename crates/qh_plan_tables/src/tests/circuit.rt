//! Tables of texts.
use qh_circuit::{CircuitFault, Why, print_circuit, read_circuit};
use std::test::Fail;

#[test]
fn names_the_first_faulty_line(rt: HostRuntime) {
    for (text, line, why) in [
        ("", 0, Why::NoCount),
        ("\n# 2\n \t\r\n", 0, Why::NoCount),
        ("two\n", 1, Why::BadCount),
        ("\n#\n0\n", 3, Why::BadCount),
        ("41\n", 1, Why::BadCount),
        ("123456789012345678901234567890\n", 1, Why::BadCount),
        ("\u{feff}2\n0 h 0\n", 1, Why::BadCount),
        ("2\0\n\0", 1, Why::BadCount),
        ("2\r0 h 0\r", 1, Why::BadCount),
        ("2 qubits\n0 g 0\n", 1, Why::Extra),
        ("1\nh 0\n", 2, Why::BadTime),
        ("1\n0 h 0\n-1 h 0\n", 3, Why::BadTime),
        ("1\n4294967296 h 0\n", 2, Why::BadTime),
        ("1\n123456789012345678901234567890 h 0\n", 2, Why::BadTime),
        ("1\n0\n", 2, Why::UnknownGate),
        ("1\n0 H 0\n", 2, Why::UnknownGate),
        ("1\n3 rx 0 0.5\n", 2, Why::UnknownGate),
        ("1\n0 h 0\n\n1 measure 0\n", 4, Why::UnknownGate),
        ("1\n0 h\n", 2, Why::BadQubit),
        ("1\n0 h 1\n", 2, Why::BadQubit),
        ("1\n0 h q0\n", 2, Why::BadQubit),
        ("2\n0 cz 0\n", 2, Why::BadQubit),
        ("2\n0 cz 0 2\n", 2, Why::BadQubit),
        (
            "2\n0 cz 0 123456789012345678901234567890\n",
            2,
            Why::BadQubit,
        ),
        ("2\n0 cz 1 1 1\n", 2, Why::SameQubit),
        ("2\n0 h 0 0\n", 2, Why::Extra),
        ("2\n1 h 0\n0 h 0 # again\n", 3, Why::Extra),
        ("2\n1 h 0\n0 h 1\n", 3, Why::TimeBack),
        ("2\n0 h 0\n0 cz 0 1\n", 3, Why::Overlap),
        ("3\n0 cz 0 1\n0 h 2\n0 h 1\n", 4, Why::Overlap),
        ("3\n0 h 0\n# a\n7 h 0\n7 h 1\n7 h 0\n", 6, Why::Overlap),
        ("3\n7 h 0\n6 h 1\n", 3, Why::TimeBack),
        ("1\n7 x_1_2 0\n7 q 0\n8 h 1\n", 3, Why::UnknownGate),
    ] {
        let answer = read_circuit(rt.alloc(), text.as_bytes(), 5).err();
        assert_eq!(rt;
            answer,
            Some(CircuitFault::Line { line, why }),
            "of {text:?}"
        );
    }
}

#[test]
fn reads_and_prints(rt: HostRuntime) -> Result<(), Fail> {
    for (text, max_time, printed) in [
        ("1", 0, "1\n"),
        ("040\r\n\r\n", 9, "40\n"),
        (
            "# a\r\n2\r\n\r\n 0 h 0 \r\n1\tcnot 0 1",
            4294967295,
            "2\n0 h 0\n1 cnot 0 1\n",
        ),
        ("2\n 00 h\t01\n1 cnot 1 0\n", 0, "2\n0 h 1\n"),
        ("2\n4 h 1\n4 t 0\n5 cnot 1 0\n", 4, "2\n4 h 1\n4 t 0\n"),
        ("2\n5 h 1\n6 h 1\n", 4, "2\n"),
        (
            "9\n0 h 0\n0 t 1\n0 x 2\n0 y 3\n0 z 4\n0 x_1_2 5\n0 y_1_2 6\n0 hz_1_2 7\n",
            0,
            "9\n0 h 0\n0 t 1\n0 x 2\n0 y 3\n0 z 4\n0 x_1_2 5\n0 y_1_2 6\n0 hz_1_2 7\n",
        ),
        (
            "10\n0 cz 0 9\n0 cnot 8 1\n0 is 2 7\n0 sw 6 3\n0 id2 4 5\n4294967295 s 0\n4294967295 id1 1\n",
            4294967295,
            "10\n0 cz 0 9\n0 cnot 8 1\n0 is 2 7\n0 sw 6 3\n0 id2 4 5\n4294967295 s 0\n4294967295 id1 1\n",
        ),
    ] {
        let circuit = read_circuit(rt.alloc(), text.as_bytes(), max_time)?;
        let bytes = print_circuit(rt.alloc(), &circuit)?;
        assert_eq!(rt; bytes.as_slice(), printed.as_bytes(), "of {text:?}");
    }
    Ok(())
}

#[test]
fn keeps_4096_gates(rt: HostRuntime) -> Result<(), Fail> {
    for (gates, max_time, last_line) in [(4096u32, 9999, 0), (4097, 9999, 4098), (4097, 4095, 0)] {
        let mut text = String::from_str(rt.alloc(), "1\n")?;
        for time in 0..gates {
            writeln!(text, "{time} h 0")?;
        }
        match read_circuit(rt.alloc(), text.as_bytes(), max_time) {
            Ok(circuit) => {
                assert_eq!(rt; last_line, 0);
                assert_eq!(rt; circuit.gates().len(), 4096);
            }
            Err(fault) => {
                let why = Why::TooManyGates;
                assert_eq!(rt;
                    fault,
                    CircuitFault::Line {
                        line: last_line,
                        why
                    }
                );
            }
        }
    }
    Ok(())
}

#[test]
fn passes_over_a_million_blank_lines(rt: HostRuntime) -> Result<(), Fail> {
    let mut text = vec![in rt.alloc(); b'\n'; 1000000]?;
    text.extend_from_slice(b"1\n0 h 0\n0 h 0\n")?;
    let why = Why::Overlap;
    let answer = read_circuit(rt.alloc(), text.as_slice(), 0).err();
    assert_eq!(rt; answer, Some(CircuitFault::Line { line: 1000003, why }));
    Ok(())
}

#[test]
fn shows_line_and_cause(rt: HostRuntime) -> Result<(), Fail> {
    let why = Why::UnknownGate;
    let text = format!(in rt.alloc(); "{}", CircuitFault::Line { line: 2, why })?;
    assert_eq!(rt; text.as_str(), "line 2: UnknownGate");
    Ok(())
}
