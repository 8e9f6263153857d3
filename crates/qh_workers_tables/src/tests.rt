//! Workers over fake desks and gates: what no contract says is the order of their calls.
ghost use Rattle.std.specs.Prelude.{◌≡◌, ◌<◌, ◌≤◌, ◌+◌, [], Bool, true, false, All, IfSome, IsTrue};
ghost use Rattle.std.specs.Arc.{arc_value};
ghost use Rattle.qh_lease.specs.Register.{IsBlankOf};
ghost use Rattle.qh_lease.specs.Tally.{nothing};
ghost use Rattle.qh_plan.specs.Jobs.{ranges};
ghost use Rattle.qh_plan.specs.Plans.{AreBits};
ghost use Rattle.qh_draw.specs.Seats.{seat_of};

use crate::tests::desk::{Answer, Call, FakeDesk, Till};
use qh_draw::{Draw, Seat};
use qh_gates::{Circuit, Gate, Kind, arity};
use qh_half::Steps;
use qh_lease::{Counted, LEDGER_PARTS, Ledgers, Tally, Three, Totals};
use qh_plan::{Job, plan};
use qh_prefix::PrefixCache;
use qh_workers::{Ended, FreeGate, Pass, Point, WorkerGate, work};
use std::alloc::{AllocError, Global};
use std::marker::Brand;
use std::process::Abort;
use std::sync::ledger::{Blank, Ledger};
use std::sync::{Arc, Mutex, Wait};
use std::test::Fail;

mod desk;

/// A time, a kind and two qubits.
type Row = (u32, Kind, u32, u32);

const TWO: [Row; 5] = [
    (0, Kind::H, 0, 0),
    (0, Kind::H, 1, 1),
    (1, Kind::Cz, 0, 1),
    (2, Kind::H, 0, 0),
    (3, Kind::Cz, 0, 1),
];

/// A gate that ends a worker before it delivers.
struct NoDelivery;

impl WorkerGate for NoDelivery {
    ghost may_quit = { λ _. Unit {0} };

    ghost stops = { λ _ _ _. ⊥ };

    fn pass(&self, _worker: u32, point: Point) -> Pass {
        match point {
            Point::BeforeDeliver { .. } => Pass::Quit,
            Point::BeforeClaim | Point::Computing { .. } => Pass::Go,
        }
    }
}

/// The circuit of two qubits with these gates.
fn circuit_of(rt: &impl Abort, alloc: Global, rows: &[Row]) -> Result<Circuit, AllocError> {
    let mut circuit = Circuit::start(alloc, 2);
    for (time, kind, q0, q1) in rows {
        let next = Gate {
            time: *time,
            kind: *kind,
            q0: *q0,
            q1: *q1,
        };
        assert!(rt; arity(next.kind) == 2 || next.q0 == next.q1);
        assert!(rt; circuit.check(&next).is_ok());
        circuit.push(next)?;
    }
    Ok(circuit)
}

/// Whether these may be asked.
fn are_bits(qubits: u32, bits: &[u64]) -> bool
    requires { qubits ≤ 40 }
    ensures { IsTrue result → AreBits qubits bits.now }
{
    1 <= bits.len() && bits.len() <= 4096 && bits.iter().all(|b| *b < 1 << qubits)
}

/// The job over `TWO`, cut between its qubits, with this many prefix and root gates.
fn job_of(rt: &impl Abort, alloc: Global, split: (u32, u32)) -> Result<Arc<Job>, Fail> {
    let circuit = circuit_of(rt, alloc, &TWO)?;
    let bits = Vec::from_array(alloc, [0u64, 1, 2, 3])?;
    assert!(rt; are_bits(circuit.qubits(), &bits));
    Ok(Arc::new(
        alloc,
        plan(alloc, circuit, &[0], split.0, split.1, None, bits)?,
    )?)
}

// The last of the seats.
fn last_seat(draw: &Draw, seats: &mut Vec<Seat>, each: u64) -> Option<Seat>
    requires { All (λ s. s ≡ seat_of draw.now each each []) seats.old.items }
    ensures { IfSome result (λ s. s ≡ seat_of draw.now each each []) }
{
    seats.pop()
}

/// What the tables compare: how a worker ended, what its share counts, and the calls that its desk saw.
#[derive(Drop)]
struct Outcome {
    ended: Ended,
    counts: Totals,
    calls: Vec<Call>,
}

/// One worker works at a fake desk.
fn work_at<R: Wait, N: Ledgers, W: WorkerGate, L: Ledger>(
    rt: &R,
    alloc: Global,
    job: &Arc<Job>,
    cache: &Mutex<PrefixCache>,
    gate: &W,
    mut till: Till<N>,
    steps: &mut Steps<L>,
) -> Result<Outcome, Fail>
    requires { till.tally.out ≡ 0 }
{
    let mut share = till.new_share();
    let desk = FakeDesk::new(rt, Arc::try_clone(job)?, till);
    let each = u64::from(job.ranges()) + 1;
    let (draw, mut seats) = Draw::new(alloc, 1, each)?;
    let mut seat = last_seat(&draw, &mut seats, each).ok_or("no seat")?;
    let ended = work(
        rt, alloc, job, &desk, gate, cache, &draw, &mut seat, 3, &mut share, steps,
    );
    Ok(Outcome {
        ended,
        counts: share.counts(),
        calls: desk.into_calls(),
    })
}
/// One worker works at a fake desk, which counts with these blanks.
fn work_over<R, W, G, B, A, L>(
    rt: &R,
    alloc: Global,
    job: &Arc<Job>,
    cache: &Mutex<PrefixCache>,
    gate: &W,
    admits: bool,
    answers: &[Answer],
    blanks: (Blank, Blank, Blank, Blank),
) -> Result<Outcome, Fail>
where
    R: Wait,
    W: WorkerGate,
    G: Counted,
    B: Counted,
    A: Counted,
    L: Ledger,
    requires grants { IsBlankOf blanks.0.name blanks.0.parts G.name G.parts }
    requires backs { IsBlankOf blanks.1.name blanks.1.parts B.name B.parts }
    requires acks { IsBlankOf blanks.2.name blanks.2.parts A.name A.parts }
    requires steps { (blanks.3.name ≡ L.name) × (blanks.3.parts ≡ L.parts) × (0 < blanks.3.parts) }
{
    let (grants, backs, acks, blank) = blanks;
    let tally = Tally::<Three<G, B, A>>::new(grants, backs, acks);
    let till = Till::new(alloc, tally, admits, answers)?;
    let mut steps = Steps::<L>::new(blank);
    work_at(rt, alloc, job, cache, gate, till, &mut steps)
}

fn worked<R: Wait, W: WorkerGate>(
    rt: &R,
    alloc: Global,
    job: &Arc<Job>,
    cache: &Mutex<PrefixCache>,
    gate: &W,
    admits: bool,
    answers: &[Answer],
) -> Result<Outcome, Fail> {
    let blanks = (
        Blank::new(LEDGER_PARTS),
        Blank::new(LEDGER_PARTS),
        Blank::new(LEDGER_PARTS),
        Blank::new(1),
    );
    work_over::<R, W, Brand, Brand, Brand, Brand>(
        rt, alloc, job, cache, gate, admits, answers, blanks,
    )
}

/// A worker at a job of four ranges ends, counts and calls its desk as wanted.
fn check<W: WorkerGate>(
    rt: &(impl Abort + Wait),
    alloc: Global,
    gate: &W,
    admits: bool,
    answers: &[Answer],
    wanted: (Ended, u64, u64),
    calls: &[Call],
) -> Result<(), Fail> {
    let job = job_of(rt, alloc, (1, 1))?;
    let cache = Mutex::new(PrefixCache::new(alloc, Arc::try_clone(&job)?)?);
    let worked = worked(rt, alloc, &job, &cache, gate, admits, answers)?;
    assert_eq!(rt; worked.calls.as_slice(), calls);
    assert_eq!(rt; worked.ended, wanted.0);
    assert_eq!(rt;
        (worked.counts.grants, worked.counts.acks),
        (wanted.1, wanted.2)
    );
    Ok(())
}

#[test]
fn draws_and_then_claims(rt: HostRuntime) -> Result<(), Fail> {
    let alloc = rt.alloc();
    let admitted = [
        Call::Admit(0),
        Call::Deliver(0),
        Call::Admit(1),
        Call::Deliver(1),
        Call::Admit(2),
        Call::Deliver(2),
        Call::Admit(3),
        Call::Deliver(3),
        Call::Claim,
    ];
    check(
        &rt,
        alloc,
        &FreeGate,
        true,
        &[Answer::Drained],
        (Ended::Drained, 4, 4),
        &admitted,
    )?;
    let claimed = [
        Call::Admit(0),
        Call::Admit(1),
        Call::Admit(2),
        Call::Admit(3),
        Call::Claim,
        Call::Deliver(2),
        Call::Claim,
    ];
    let script = [Answer::Grant(2), Answer::Drained];
    check(
        &rt,
        alloc,
        &FreeGate,
        false,
        &script,
        (Ended::Drained, 1, 1),
        &claimed,
    )?;
    let halted = &claimed[..5];
    check(
        &rt,
        alloc,
        &FreeGate,
        false,
        &[],
        (Ended::Halted, 0, 0),
        halted,
    )
}

#[test]
fn quits_before_it_delivers(rt: HostRuntime) -> Result<(), Fail> {
    let script = [Answer::Drained];
    check(
        &rt,
        rt.alloc(),
        &NoDelivery,
        true,
        &script,
        (Ended::Quit, 1, 0),
        &[Call::Admit(0)],
    )
}

/// The checkpoint that the first range left in the cache serves the second: it is still the one in the cache then, and a
/// worker that made one anew would have put that in its place.
#[test]
fn a_checkpoint_serves_all_ranges(rt: HostRuntime) -> Result<(), Fail> {
    let alloc = rt.alloc();
    let job = job_of(&rt, alloc, (0, 1))?;
    let cache = Mutex::new(PrefixCache::new(alloc, Arc::try_clone(&job)?)?);
    worked(
        &rt,
        alloc,
        &job,
        &cache,
        &FreeGate,
        false,
        &[Answer::Grant(0), Answer::Drained],
    )?;
    let found = cache.lock(&rt).find(0)?;
    let point = found.ok_or("no checkpoint is kept")?;
    assert_eq!(rt; Arc::strong_count(&point), 2);
    let script = [Answer::Grant(0), Answer::Grant(1), Answer::Drained];
    let worked = worked(&rt, alloc, &job, &cache, &FreeGate, false, &script)?;
    assert_eq!(rt; (worked.ended, worked.counts.acks), (Ended::Drained, 2));
    assert_eq!(rt; Arc::strong_count(&point), 2);
    Ok(())
}
