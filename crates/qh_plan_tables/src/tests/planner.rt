//! Worked rows: tables of cuts by hand, their texts, and the row to take.
use qh_circuit::read_circuit;
use qh_plan::{PlanFault, are_bits};
use qh_planner::{CutAnswer, CutRow, cheapest, cut_table, print_table};
use std::alloc::Global;
use std::process::Abort;
use std::test::Fail;

const BELL: &[u8] = b"2\n0 h 0\n1 cnot 0 1\n";

/// Two terms cross the first cut, and four the second.
const CHAIN: &[u8] = b"3\n0 cz 0 1\n1 is 1 2\n";

/// The row of an allowed cut.
fn allowed(size: u32, log2: u32, cost: u64) -> CutRow {
    CutRow {
        size,
        answer: CutAnswer::Allowed { log2, cost },
    }
}

/// The row of a refused cut.
fn refused(size: u32, fault: PlanFault) -> CutRow {
    CutRow {
        size,
        answer: CutAnswer::Refused(fault),
    }
}

/// Whether the table of the circuit is this one with this text, and its cheapest row has this size.
fn expect(
    rt: &impl Abort,
    alloc: Global,
    text: &[u8],
    (p, w): (u32, Option<u32>),
    rows: &[CutRow],
    (lines, size): (&str, Option<u32>),
) -> Result<(), Fail> {
    let circuit = read_circuit(alloc, text, u32::MAX)?;
    let bits = [0u64];
    assert!(rt; circuit.qubits() <= 40);
    assert!(rt; are_bits(circuit.qubits(), &bits));
    let table = cut_table(alloc, &circuit, p, 0, w, &bits)?;
    assert_eq!(rt; table.as_slice(), rows);
    let written = print_table(alloc, &table)?;
    assert_eq!(rt; written.as_slice(), lines.as_bytes());
    assert_eq!(rt; cheapest(&table), size);
    Ok(())
}

#[test]
fn tables(rt: HostRuntime) -> Result<(), Fail> {
    let both = [allowed(1, 1, 12), allowed(2, 2, 24)];
    let split = [
        refused(1, PlanFault::PrefixRoot { crossing: 1 }),
        refused(2, PlanFault::PrefixRoot { crossing: 1 }),
    ];
    let value = [
        refused(1, PlanFault::PrefixValue { prefixes: 2 }),
        allowed(2, 2, 24),
    ];
    let bell = [allowed(1, 1, 8)];
    let bell_end = ("cut 1 1 8\n", Some(1));
    let both_end = ("cut 1 1 12\ncut 2 2 24\n", Some(1));
    let split_end = ("cut 1 PrefixRoot 1\ncut 2 PrefixRoot 1\n", None);
    let value_end = ("cut 1 PrefixValue 2\ncut 2 2 24\n", Some(2));
    expect(&rt, rt.alloc(), BELL, (0, None), &bell, bell_end)?;
    expect(&rt, rt.alloc(), CHAIN, (0, None), &both, both_end)?;
    expect(&rt, rt.alloc(), CHAIN, (2, None), &split, split_end)?;
    expect(&rt, rt.alloc(), CHAIN, (1, Some(2)), &value, value_end)?;
    expect(&rt, rt.alloc(), b"1\n0 h 0\n", (0, None), &[], ("", None))
}

/// A refusal's line has its name, and its number where it has one.
#[test]
fn refusals(rt: HostRuntime) -> Result<(), Fail> {
    let wide = 18446744073709551615;
    for (fault, line) in [
        (PlanFault::PartText { item: 0 }, "cut 39 PartText 0\n"),
        (
            PlanFault::NoSuchQubit { qubit: 4294967295 },
            "cut 39 NoSuchQubit 4294967295\n",
        ),
        (PlanFault::QubitTwice { qubit: 7 }, "cut 39 QubitTwice 7\n"),
        (PlanFault::EmptyPart, "cut 39 EmptyPart\n"),
        (
            PlanFault::PartTooWide { qubits: 21 },
            "cut 39 PartTooWide 21\n",
        ),
        (
            PlanFault::TooManyCrossing { count: 33 },
            "cut 39 TooManyCrossing 33\n",
        ),
        (
            PlanFault::TooManyPaths { log2: 64 },
            "cut 39 TooManyPaths 64\n",
        ),
        (
            PlanFault::PrefixRoot { crossing: 10 },
            "cut 39 PrefixRoot 10\n",
        ),
        (
            PlanFault::PrefixValue { prefixes: 4 },
            "cut 39 PrefixValue 4\n",
        ),
        (
            PlanFault::TooManyRanges { ranges: 32768 },
            "cut 39 TooManyRanges 32768\n",
        ),
        (
            PlanFault::JournalTooLong { bytes: wide },
            "cut 39 JournalTooLong 18446744073709551615\n",
        ),
        (
            PlanFault::UncutTooWide { qubits: 17 },
            "cut 39 UncutTooWide 17\n",
        ),
        (PlanFault::Memory, "cut 39 Memory\n"),
    ] {
        let written = print_table(rt.alloc(), &[refused(39, fault)])?;
        assert_eq!(rt; written.as_slice(), line.as_bytes());
    }
    Ok(())
}

/// A cut of 22 qubits leaves one part more than 20 at both ends.
#[test]
fn parts_too_wide(rt: HostRuntime) -> Result<(), Fail> {
    let circuit = read_circuit(rt.alloc(), b"22\n0 cz 0 21\n", u32::MAX)?;
    let bits = [0u64];
    assert!(rt; circuit.qubits() <= 40);
    assert!(rt; are_bits(circuit.qubits(), &bits));
    let table = cut_table(rt.alloc(), &circuit, 0, 0, None, &bits)?;
    assert_eq!(rt; table.len(), 21);
    let wide = PlanFault::PartTooWide { qubits: 21 };
    assert_eq!(rt; table.first(), Some(&refused(1, wide)));
    assert_eq!(rt; table.last(), Some(&refused(21, wide)));
    assert_eq!(rt; cheapest(&table), Some(11));
    Ok(())
}

#[test]
fn the_first_of_equal_costs(rt: HostRuntime) {
    let fault = PlanFault::EmptyPart;
    for (rows, size) in [
        (
            [allowed(1, 0, 9), allowed(2, 0, 9), allowed(3, 0, 9)],
            Some(1),
        ),
        (
            [allowed(1, 0, 9), allowed(2, 0, 7), allowed(3, 0, 7)],
            Some(2),
        ),
        (
            [refused(1, fault), allowed(2, 0, 9), allowed(3, 0, 8)],
            Some(3),
        ),
        (
            [refused(1, fault), refused(2, fault), refused(3, fault)],
            None,
        ),
    ] {
        assert_eq!(rt; cheapest(&rows), size, "{rows:?}");
    }
}
