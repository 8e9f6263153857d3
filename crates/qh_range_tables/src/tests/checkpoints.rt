//! Checkpoints of two small circuits, kept and found.
ghost use Rattle.std.specs.Prelude.{◌≡◌, ◌<◌, ◌≤◌, IsTrue};
ghost use Rattle.qh_plan.specs.Plans.{AreBits};

use qh_gates::{Circuit, Gate, Kind, arity};
use qh_half::{Half, Steps};
use qh_plan::{Job, plan};
use qh_prefix::{Checkpoint, PrefixCache, make_checkpoint};
use qh_ring::Omega;
use std::alloc::{AllocError, Global};
use std::marker::Brand;
use std::process::Abort;
use std::sync::Arc;
use std::sync::ledger::{Blank, Ledger};
use std::test::Fail;

/// A time, a kind and two qubits.
type Row = (u32, Kind, u32, u32);

const BELL: [Row; 2] = [(0, Kind::H, 0, 0), (1, Kind::Cnot, 0, 1)];

const TWO: [Row; 5] = [
    (0, Kind::H, 0, 0),
    (0, Kind::H, 1, 1),
    (1, Kind::Cz, 0, 1),
    (2, Kind::H, 0, 0),
    (3, Kind::Cz, 0, 1),
];

/// The circuit of two qubits with these gates.
fn circuit_of(rt: &impl Abort, alloc: Global, rows: &[Row]) -> Result<Circuit, AllocError> {
    let mut circuit = Circuit::start(alloc, 2);
    for (time, kind, q0, q1) in rows {
        let next = Gate {
            time: *time,
            kind: *kind,
            q0: *q0,
            q1: *q1,
        };
        assert!(rt; arity(next.kind) == 2 || next.q0 == next.q1);
        assert!(rt; circuit.check(&next).is_ok());
        circuit.push(next)?;
    }
    Ok(circuit)
}

/// Whether these may be asked.
fn are_bits(qubits: u32, bits: &[u64]) -> bool
    requires { qubits ≤ 40 }
    ensures { IsTrue result → AreBits qubits bits.now }
{
    1 <= bits.len() && bits.len() <= 4096 && bits.iter().all(|b| *b < 1 << qubits)
}

/// The job over the gates, cut between qubits 0 and 1, with this many prefix gates.
fn job_of(rt: &impl Abort, alloc: Global, rows: &[Row], p: u32) -> Result<Arc<Job>, Fail> {
    let circuit = circuit_of(rt, alloc, rows)?;
    let bits = Vec::from_array(alloc, [0u64, 1, 2, 3])?;
    assert!(rt; are_bits(circuit.qubits(), &bits));
    Ok(Arc::new(alloc, plan(alloc, circuit, &[0], p, 0, None, bits)?)?)
}

fn whole(a: i128) -> Omega {
    Omega { a, ..Omega::ZERO }
}

fn number(rt: &impl Abort, half: &Half, index: u32) -> Omega {
    assert!(rt; !half.is_over() && half.qubits() == 1 && index < 2);
    half.at(index)
}

/// The checkpoint of a prefix value, whose halves hold these numbers.
fn check<L: Ledger>(
    rt: &impl Abort,
    alloc: Global,
    job: &Arc<Job>,
    prefix: u64,
    wanted: [[i128; 2]; 2],
    steps: &mut Steps<L>,
) -> Result<Arc<Checkpoint>, Fail> {
    assert!(rt; prefix < job.prefixes());
    let point = make_checkpoint(alloc, job, prefix, steps)?;
    assert!(rt; point.is_for(job, prefix) && !point.is_for(job, prefix.wrapping_add(1)));
    let [one, two] = wanted;
    for (half, numbers) in [(point.one(), one), (point.two(), two)] {
        assert_eq!(rt; number(rt, half, 0), whole(numbers[0]));
        assert_eq!(rt; number(rt, half, 1), whole(numbers[1]));
    }
    Ok(Arc::new(alloc, point)?)
}

fn run_all<L: Ledger>(rt: &impl Abort, alloc: Global, blank: Blank) -> Result<(), Fail>
    requires name { blank.name ≡ L.name }
    requires parts { blank.parts ≡ L.parts }
    requires some { 0 < blank.parts }
{
    let mut steps = Steps::<L>::new(blank);
    let two = job_of(rt, alloc, &TWO, 1)?;
    let bell = job_of(rt, alloc, &BELL, 1)?;
    let zero = check(rt, alloc, &two, 0, [[1, 1], [1, 1]], &mut steps)?;
    let one = check(rt, alloc, &two, 1, [[1, -1], [1, -1]], &mut steps)?;
    let other = check(rt, alloc, &bell, 1, [[0, 1], [0, 1]], &mut steps)?;

    let mut cache = PrefixCache::new(alloc, Arc::try_clone(&two)?)?;
    assert!(rt; cache.find(1)?.is_none());
    assert!(rt; cache.keep(zero)?);
    assert!(rt; cache.keep(one)?);
    assert!(rt; !cache.keep(other)?);
    for prefix in [1, 0, 1] {
        let Some(found) = cache.find(prefix)? else {
            assert!(rt; false, "{prefix} is not held");
            continue;
        };
        assert!(rt; found.is_for(&two, prefix));
    }
    assert!(rt; cache.find(2)?.is_none());
    Ok(())
}

#[test]
fn keeps_and_finds_checkpoints(rt: HostRuntime) -> Result<(), Fail> {
    run_all::<Brand>(&rt, rt.alloc(), Blank::new(1))
}
