//! What the clauses mean, on jobs worked out by hand.
use qh_circuit::read_circuit;
use qh_gates::{Circuit, Gate, Kind, arity};
use qh_plan::{
    Job, PlanFault, Sums, Verdict, are_bits, check_uncut, one_text_one_job,
    path_counts_are_powers_of_two, plan, read_part,
};
use qh_ring::{Omega, within};
use std::alloc::Global;
use std::process::Abort;
use std::test::Fail;

/// A Bell pair.
const BELL: &[u8] = b"2\n0 h 0\n1 cnot 0 1\n";

/// Three gates of two terms each.
const THREE: &[u8] = b"2\n0 cz 0 1\n1 cz 0 1\n2 cz 0 1\n";

/// A gate of two terms before one of four.
const MIXED: &[u8] = b"2\n0 cz 0 1\n1 is 1 0\n";

/// The job of these bitstrings of a circuit text, cut into qubit 0 and the others.
fn job_of(
    rt: &impl Abort,
    alloc: Global,
    text: &[u8],
    split: (u32, u32),
    prefix: Option<u32>,
    bits: &[u64],
) -> Result<Job, Fail> {
    let circuit = read_circuit(alloc, text, u32::MAX)?;
    let bits = Vec::from_slice(alloc, bits)?;
    assert!(rt; circuit.qubits() <= 40);
    assert!(rt; are_bits(circuit.qubits(), &bits));
    Ok(plan(alloc, circuit, &[0], split.0, split.1, prefix, bits)?)
}

/// What a plan refuses of a circuit of this many qubits with `count` gates of one kind on qubits 0 and 1.
fn refusal(
    rt: &impl Abort,
    alloc: Global,
    qubits: u32,
    gates: (Kind, u32),
    part: &[u32],
    split: (u32, u32),
    bits: &[u64],
) -> Result<Option<PlanFault>, Fail> {
    assert!(rt; 1 <= qubits && qubits <= 40);
    let mut circuit = Circuit::start(alloc, qubits);
    for time in 0..gates.1 {
        let gate = Gate {
            time,
            kind: gates.0,
            q0: 0,
            q1: 1,
        };
        assert!(rt; arity(gate.kind) == 2);
        assert!(rt; circuit.check(&gate).is_ok());
        circuit.push(gate)?;
    }
    let bits = Vec::from_slice(alloc, bits)?;
    assert!(rt; are_bits(circuit.qubits(), &bits));
    Ok(plan(alloc, circuit, part, split.0, split.1, None, bits).err())
}

#[test]
fn parts_of_a_text(rt: HostRuntime) -> Result<(), Fail> {
    assert_eq!(rt;
        read_part(rt.alloc(), "0,02,5")?.as_slice(),
        [0, 2, 5].as_slice()
    );
    for (text, item) in [
        ("", 0),
        ("0,,1", 1),
        ("0,1,", 2),
        ("0,4294967296", 1),
        ("0,+1", 1),
    ] {
        assert_eq!(rt;
            read_part(rt.alloc(), text).err(),
            Some(PlanFault::PartText { item })
        );
    }
    Ok(())
}

#[test]
fn uncut(rt: HostRuntime) -> Result<(), Fail> {
    let alloc: Global = rt.alloc();
    assert_eq!(rt; check_uncut(&Circuit::start(alloc, 16)), Ok(()));
    assert_eq!(rt;
        check_uncut(&Circuit::start(alloc, 17)),
        Err(PlanFault::UncutTooWide { qubits: 17 })
    );
    Ok(())
}

#[test]
fn refusals_of_a_cut(rt: HostRuntime) -> Result<(), Fail> {
    for (part, fault) in [
        ([1, 2], PlanFault::NoSuchQubit { qubit: 2 }),
        ([0, 0], PlanFault::QubitTwice { qubit: 0 }),
        ([0, 1], PlanFault::EmptyPart),
    ] {
        let answer = refusal(
            &rt,
            rt.alloc(),
            2,
            (Kind::Cz, 0),
            part.as_slice(),
            (0, 0),
            &[0],
        )?;
        assert_eq!(rt; answer, Some(fault));
    }
    let answer = refusal(&rt, rt.alloc(), 22, (Kind::Cz, 0), &[21], (0, 0), &[0])?;
    assert_eq!(rt; answer, Some(PlanFault::PartTooWide { qubits: 21 }));
    Ok(())
}

#[test]
fn refusals_of_paths(rt: HostRuntime) -> Result<(), Fail> {
    for (kind, count, split, answer) in [
        (
            Kind::Cz,
            33,
            (0, 0),
            Some(PlanFault::TooManyCrossing { count: 33 }),
        ),
        (
            Kind::Id2,
            33,
            (0, 0),
            Some(PlanFault::TooManyCrossing { count: 33 }),
        ),
        (
            Kind::Is,
            17,
            (0, 0),
            Some(PlanFault::TooManyPaths { log2: 34 }),
        ),
        (
            Kind::Cz,
            2,
            (3, 0),
            Some(PlanFault::PrefixRoot { crossing: 2 }),
        ),
        (
            Kind::Cz,
            15,
            (8, 7),
            Some(PlanFault::TooManyRanges { ranges: 32768 }),
        ),
        (Kind::Cz, 14, (7, 7), None),
        (Kind::Cz, 13, (13, 0), None),
        (Kind::Cz, 32, (6, 6), None),
    ] {
        assert_eq!(rt;
            refusal(&rt, rt.alloc(), 2, (kind, count), &[0], split, &[0])?,
            answer
        );
    }
    Ok(())
}

#[test]
fn a_journal_too_long(rt: HostRuntime) -> Result<(), Fail> {
    // The text has 3,257 bytes, and 16,384 ranges of 10 + 64 * 1,024 bytes follow it.
    let bits = vec![in rt.alloc(); 0u64; 1024]?;
    let answer = refusal(&rt, rt.alloc(), 2, (Kind::Cz, 14), &[0], (7, 7), &bits)?;
    assert_eq!(rt;
        answer,
        Some(PlanFault::JournalTooLong { bytes: 1073908953 })
    );
    Ok(())
}

#[test]
fn bitstrings_that_may_be_asked(rt: HostRuntime) -> Result<(), Fail> {
    for (bits, answer) in [
        ([].as_slice(), false),
        ([3].as_slice(), true),
        ([0, 4].as_slice(), false),
        ([1, 1].as_slice(), true),
    ] {
        assert_eq!(rt; are_bits(2, bits), answer);
    }
    Ok(())
}

#[test]
fn numbers_of_paths(rt: HostRuntime) -> Result<(), Fail> {
    let job = job_of(&rt, rt.alloc(), MIXED, (0, 0), None, &[0])?;
    assert!(rt; 6 < job.paths());
    let digits = job.digits(6);
    assert_eq!(rt; digits.as_slice(), [1, 2].as_slice());
    assert_eq!(rt; job.number(&digits), 6);
    path_counts_are_powers_of_two();
    Ok(())
}

#[test]
fn ranges_of_a_run(rt: HostRuntime) -> Result<(), Fail> {
    // With the first gate as prefix and the second as root, ranges hold two paths each.
    for (value, range, first, prefix, path, found) in [
        (None, 3, 6, 1, 5, Some(2)),
        (None, 3, 6, 1, 8, None),
        (Some(1), 1, 6, 1, 4, Some(0)),
        (Some(1), 1, 6, 1, 3, None),
    ] {
        let job = job_of(&rt, rt.alloc(), THREE, (1, 1), value, &[0])?;
        assert!(rt; range < job.ranges());
        assert_eq!(rt; job.first_path(range), first);
        assert_eq!(rt; job.prefix_of(range), prefix);
        assert_eq!(rt; job.range_of(path), found);
    }
    Ok(())
}

#[test]
fn readers_of_a_job(rt: HostRuntime) -> Result<(), Fail> {
    let job = job_of(&rt, rt.alloc(), THREE, (1, 1), Some(1), &[0])?;
    assert_eq!(rt; job.crossing(), 3);
    assert_eq!(rt; job.split(), (1, 1));
    assert_eq!(rt; job.prefix_value(), Some(1));
    assert_eq!(rt; job.prefixes(), 2);
    assert_eq!(rt; job.paths(), 8);
    assert_eq!(rt; job.per_range(), 2);
    assert_eq!(rt; job.circuit().gates().len(), 3);
    assert_eq!(rt; job.in_one(0), true);
    assert_eq!(rt; job.in_one(1), false);
    Ok(())
}

#[test]
fn verdicts_that_fit(rt: HostRuntime) -> Result<(), Fail> {
    let job = job_of(&rt, rt.alloc(), THREE, (1, 1), Some(1), &[0])?;
    assert!(rt; 1 < job.ranges());
    assert_eq!(rt; job.fits(1, &Verdict::Over { path: 7 }), true);
    assert_eq!(rt; job.fits(1, &Verdict::Over { path: 5 }), false);
    // Two paths in a range, so each coefficient's magnitude is below 2^95.
    for (d, fits) in [
        ((1 << 95) - 1, true),
        (1 - (1 << 95), true),
        (1 << 95, false),
    ] {
        let value = Omega {
            a: 0,
            b: 0,
            c: 0,
            d,
        };
        assert!(rt; within(&value, 126));
        let values = Vec::from_array(rt.alloc(), [value])?;
        assert_eq!(rt; job.fits(1, &Verdict::Sum(Sums::of(values))), fits);
    }
    Ok(())
}

#[test]
fn the_text_of_bell(rt: HostRuntime) -> Result<(), Fail> {
    let text =
        b"job 1\npart 0\nsplit 0 0\nprefix all\nbits 4\n00\n10\n01\n11\ngates 2\n2\n0 h 0\n1 cnot 0 1\n";
    let job = job_of(&rt, rt.alloc(), BELL, (0, 0), None, &[0, 1, 2, 3])?;
    assert_eq!(rt; job.bits(), [0, 1, 2, 3].as_slice());
    assert_eq!(rt; job.job_text(rt.alloc())?.as_slice(), text.as_slice());
    assert_eq!(rt; job.text(), text.as_slice());
    assert_eq!(rt; text.len(), 80);
    one_text_one_job();
    Ok(())
}

#[test]
fn jobs_that_differ(rt: HostRuntime) -> Result<(), Fail> {
    let job = job_of(&rt, rt.alloc(), THREE, (1, 1), None, &[0])?;
    for (text, split, prefix, same, but_prefix) in [
        (THREE, (1, 1), None, true, true),
        (THREE, (1, 1), Some(1), false, true),
        (THREE, (1, 2), None, false, false),
        (MIXED, (1, 1), None, false, false),
    ] {
        let other = job_of(&rt, rt.alloc(), text, split, prefix, &[0])?;
        assert_eq!(rt; job.same(&other), same);
        assert_eq!(rt; job.same_but_prefix(&other), but_prefix);
    }
    Ok(())
}
