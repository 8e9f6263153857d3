//! The text of a circuit, by several workers.
ghost use Rattle.std.specs.Prelude.{◌≡◌, ◌≢◌, ◌≤◌, ◌⊎◌, [], true, false, Some, None, IfOk, IfErr, OnOk, IsSomeAnd};
ghost use Rattle.std.specs.Arc.{arc_value};
ghost use Rattle.qh_limits.specs.Limits.{max_uncut_qubits};
ghost use Rattle.qh_plan.specs.Plans.{AreBits, IsPlanned};
ghost use Rattle.qh_plan.specs.declared.verdict.Verdict.TheVariants.{Sum};
ghost use Rattle.qh_words.specs.Request.{HasWorkers};
ghost use Rattle.qh_request.specs.Chosen.{is_auto, asks_auto, IsTableBy};
ghost use Rattle.qh_request.specs.Jobs.{keeping};
ghost use Rattle.qh_request.specs.Indexed.{IsCutText, IsIndexedBy, IsUncutText, IsProbText, IsWholeText};
ghost use Rattle.qh_request.specs.Request.{EndsEarly, IsRun, AnyGrants};
ghost use Rattle.qh_request.specs.Stops.{status_of};
ghost use Rattle.qh_request.specs.Parts.{UncutMayStop, JobMayStop, CutMayStop, AnswerMayStop, JobMoves, PlannedMoves, AnswerMoves};
ghost use Rattle.qh_top.specs.Parts.{IsPrintable};

use crate::answer::{check_prob, prob_text, state_text, uncut_answer};
use crate::cut::{JobEnd, planned, sums_into, sums_text};
use qh_disk::Disk;
use qh_gates::Circuit;
use qh_lease::Timer;
use qh_plan::{Job, check_uncut};
use qh_planner::CutRow;
use qh_prob::chunk_probabilities;
use qh_request::Stop;
use qh_ring::Omega;
use qh_run_shared::{run_kept_shared, run_unkept_shared};
use qh_uncut::evolve_chunks;
use qh_words::{GenSize, Options};
use qh_workers::WorkerGate;
use std::alloc::Global;
use std::sync::{Arc, Wait};
use std::thread::Threads;

/// Runs a job and puts its sums in `sums`. It keeps a journal on the disk where the options ask for one.
fn run_job_shared<R, D, F, T, W>(
    rt: &R,
    alloc: Global,
    options: &Options,
    job: Arc<Job>,
    disk: D,
    old: &mut F,
    timer: &mut T,
    gate: &W,
    sums: &mut Vec<Omega>,
) -> JobEnd<D>
where
    R: Threads + Wait + Sync,
    D: Disk + Send,
    T: Timer + Send,
    W: WorkerGate + Sync,
    F: Disk,
    requires planned { IsPlanned (arc_value job) }
    requires workers { HasWorkers options.now }
    ensures run { OnOk result.answer (IsRun (keeping options.now) (arc_value job) (F.face old.old) (D.face disk) (D.face result.disk) AnyGrants (Sum sums.new.items)) }
    ensures printable { OnOk result.answer (IsPrintable (arc_value job) sums.new.items) }
    ensures cause { IfErr result.answer (JobMayStop (keeping options.now) (arc_value job) (D.face disk) (D.face result.disk) (F.face old.old) (F.face old.new) AnyGrants) }
    ensures moves { ((result.disk ≡ disk) × (old.new ≡ old.old)) ⊎ JobMoves (keeping options.now) (arc_value job) (D.face disk) (D.face result.disk) (F.face old.old) (F.face old.new) }
    ensures old_unasked { (options.now.from ≡ None) ⊎ ((options.now.fresh ≡ false) × IsSomeAnd (D.face disk).content (λ f. f ≢ [])) → old.new ≡ old.old }
    ensures loans { D.loans result.disk ≡ D.loans disk }
    ensures old_loans { F.loans old.new ≡ F.loans old.old }
{
    if options.journal.is_none() {
        let ran = run_unkept_shared(rt, alloc, disk, job, options.workers, timer, gate);
        return JobEnd {
            disk: ran.disk,
            answer: sums_into(ran.end, sums),
        };
    }
    let taking = options.from.is_some();
    let fresh = options.fresh;
    let workers = options.workers;
    let ran = run_kept_shared(
        rt, alloc, disk, old, job, fresh, taking, workers, timer, gate,
    );
    JobEnd {
        disk: ran.disk,
        answer: sums_into(ran.end, sums),
    }
}

/// The sums of a job's run over a disk that is lent.
fn job_sums_shared<R, D, F, T, W>(
    rt: &R,
    alloc: Global,
    options: &Options,
    job: Arc<Job>,
    disk: &mut D,
    old: &mut F,
    timer: &mut T,
    gate: &W,
) -> Result<Vec<Omega>, Stop>
where
    R: Threads + Wait + Sync,
    D: Disk + Send,
    T: Timer + Send,
    W: WorkerGate + Sync,
    F: Disk,
    requires planned { IsPlanned (arc_value job) }
    requires workers { HasWorkers options.now }
    ensures run { IfOk result (λ sums. IsRun (keeping options.now) (arc_value job) (F.face old.old) (D.face disk.old) (D.face disk.new) AnyGrants (Sum sums.items)) }
    ensures printable { IfOk result (λ sums. IsPrintable (arc_value job) sums.items) }
    ensures cause { IfErr result (JobMayStop (keeping options.now) (arc_value job) (D.face disk.old) (D.face disk.new) (F.face old.old) (F.face old.new) AnyGrants) }
    ensures moves { ((disk.new ≡ disk.old) × (old.new ≡ old.old)) ⊎ JobMoves (keeping options.now) (arc_value job) (D.face disk.old) (D.face disk.new) (F.face old.old) (F.face old.new) }
    ensures old_unasked { (options.now.from ≡ None) ⊎ ((options.now.fresh ≡ false) × IsSomeAnd (D.face disk.old).content (λ f. f ≢ [])) → old.new ≡ old.old }
    ensures loans { D.loans disk.new ≡ D.loans disk.old }
    ensures old_loans { F.loans old.new ≡ F.loans old.old }
{
    let mut sums = Vec::new(alloc);
    let ran = run_job_shared(rt, alloc, options, job, disk, old, timer, gate, &mut sums);
    match ran.answer {
        Ok(()) => Ok(sums),
        Err(stop) => Err(stop),
    }
}

/// The text of a circuit that is cut.
fn cut_answer_shared<R, D, F, T, W>(
    rt: &R,
    alloc: Global,
    options: &Options,
    part: &str,
    circuit: Circuit,
    indices: Vec<u64>,
    rows: &[CutRow],
    disk: &mut D,
    old: &mut F,
    timer: &mut T,
    gate: &W,
) -> Result<Vec<u8>, Stop>
where
    R: Threads + Wait + Sync,
    D: Disk + Send,
    T: Timer + Send,
    W: WorkerGate + Sync,
    F: Disk,
    requires bits { AreBits circuit.qubits indices.items }
    requires table { IsTableBy (is_auto part.now) options.now circuit indices.items rows.now }
    requires workers { HasWorkers options.now }
    ensures answer { IfOk result (λ text. IsCutText options.now (D.face disk.old) (D.face disk.new) (F.face old.old) AnyGrants part.now circuit indices.items text.items) }
    ensures cause { IfErr result (CutMayStop options.now part.now circuit indices.items (D.face disk.old) (D.face disk.new) (F.face old.old) (F.face old.new) AnyGrants) }
    ensures moves { ((disk.new ≡ disk.old) × (old.new ≡ old.old)) ⊎ PlannedMoves options.now part.now circuit indices.items (D.face disk.old) (D.face disk.new) (F.face old.old) (F.face old.new) }
    ensures alone { IfErr result (λ stop. EndsEarly (status_of stop) → (disk.new ≡ disk.old) × (old.new ≡ old.old)) }
    ensures old_unasked { (options.now.from ≡ None) ⊎ ((options.now.fresh ≡ false) × IsSomeAnd (D.face disk.old).content (λ f. f ≢ [])) → old.new ≡ old.old }
    ensures loans { D.loans disk.new ≡ D.loans disk.old }
    ensures old_loans { F.loans old.new ≡ F.loans old.old }
{
    let job = match planned(alloc, options, part, circuit, indices, rows) {
        Ok(job) => job,
        Err(stop) => return Err(stop),
    };
    let Ok(job) = Arc::new(alloc, job) else {
        return Err(Stop::Memory);
    };
    let Ok(mine) = Arc::try_clone(&job) else {
        return Err(Stop::Memory);
    };
    let sums = match job_sums_shared(rt, alloc, options, mine, disk, old, timer, gate) {
        Ok(sums) => sums,
        Err(stop) => return Err(stop),
    };
    sums_text(alloc, options.generated, &job, &sums)
}

/// The text of the probabilities of a circuit of at most 16 qubits, which several threads may evolve.
fn prob_answer_shared<R: Threads + Sync>(
    rt: &R,
    alloc: Global,
    generated: Option<GenSize>,
    circuit: &Circuit,
    indices: &[u64],
) -> Result<Vec<u8>, Stop>
    requires bits { AreBits circuit.now.qubits indices.now }
    requires narrow { circuit.now.qubits ≤ max_uncut_qubits }
    ensures answer { IfOk result (λ text. IsProbText generated circuit.now indices.now text.items) }
    ensures cause { IfErr result (UncutMayStop true circuit.now) }
{
    if let Err(stop) = check_prob(circuit) {
        return Err(stop);
    }
    let probs = chunk_probabilities(rt, alloc, circuit);
    prob_text(alloc, generated, circuit, indices, probs)
}

/// The text of the amplitudes of a circuit of at most 16 qubits, which several threads may evolve.
fn amplitude_answer_shared<R: Threads + Sync>(
    rt: &R,
    alloc: Global,
    generated: Option<GenSize>,
    circuit: &Circuit,
    indices: &[u64],
) -> Result<Vec<u8>, Stop>
    requires bits { AreBits circuit.now.qubits indices.now }
    requires narrow { circuit.now.qubits ≤ max_uncut_qubits }
    ensures answer { IfOk result (λ text. IsUncutText generated circuit.now indices.now text.items) }
    ensures cause { IfErr result (UncutMayStop false circuit.now) }
{
    let state = evolve_chunks(rt, alloc, circuit);
    state_text(alloc, generated, circuit, indices, state)
}

/// The text of a circuit that is not cut: its probabilities, or its amplitudes.
fn uncut_answer_shared<R: Threads + Sync>(
    rt: &R,
    alloc: Global,
    prob: bool,
    generated: Option<GenSize>,
    circuit: &Circuit,
    indices: &[u64],
) -> Result<Vec<u8>, Stop>
    requires { AreBits circuit.now.qubits indices.now }
    ensures answer { IfOk result (λ text. IsWholeText prob generated circuit.now indices.now text.items) }
    ensures cause { IfErr result (UncutMayStop prob circuit.now) }
{
    if let Err(fault) = check_uncut(circuit) {
        return Err(Stop::of_plan(fault));
    }
    if prob {
        prob_answer_shared(rt, alloc, generated, circuit, indices)
    } else {
        amplitude_answer_shared(rt, alloc, generated, circuit, indices)
    }
}

/// The text that the options ask for of a circuit at these indices. Only a circuit that is cut calls on a disk, and only
/// several workers evolve by threads.
pub(crate) fn answer_shared<R, D, F, T, W>(
    rt: &R,
    alloc: Global,
    options: &Options,
    circuit: Circuit,
    indices: Vec<u64>,
    rows: &[CutRow],
    disk: &mut D,
    old: &mut F,
    timer: &mut T,
    gate: &W,
) -> Result<Vec<u8>, Stop>
where
    R: Threads + Wait + Sync,
    D: Disk + Send,
    T: Timer + Send,
    W: WorkerGate + Sync,
    F: Disk,
    requires bits { AreBits circuit.qubits indices.items }
    requires table { IsTableBy (asks_auto options.now.part) options.now circuit indices.items rows.now }
    requires workers { HasWorkers options.now }
    ensures answer { IfOk result (λ text. IsIndexedBy options.now.part options.now (D.face disk.old) (D.face disk.new) (F.face old.old) AnyGrants circuit indices.items text.items) }
    ensures cause { IfErr result (AnswerMayStop options.now.part options.now circuit indices.items (D.face disk.old) (D.face disk.new) (F.face old.old) (F.face old.new) AnyGrants) }
    ensures moves { ((disk.new ≡ disk.old) × (old.new ≡ old.old)) ⊎ AnswerMoves options.now.part options.now circuit indices.items (D.face disk.old) (D.face disk.new) (F.face old.old) (F.face old.new) }
    ensures alone { IfErr result (λ stop. EndsEarly (status_of stop) → (disk.new ≡ disk.old) × (old.new ≡ old.old)) }
    ensures old_unasked { (options.now.from ≡ None) ⊎ ((options.now.fresh ≡ false) × IsSomeAnd (D.face disk.old).content (λ f. f ≢ [])) → old.new ≡ old.old }
    ensures loans { D.loans disk.new ≡ D.loans disk.old }
    ensures old_loans { F.loans old.new ≡ F.loans old.old }
{
    match &options.part {
        None if options.workers == 1 => uncut_answer(
            alloc,
            options.prob,
            options.generated,
            &circuit,
            &indices,
        ),
        None => uncut_answer_shared(
            rt,
            alloc,
            options.prob,
            options.generated,
            &circuit,
            &indices,
        ),
        Some(part) => cut_answer_shared(
            rt,
            alloc,
            options,
            part.as_str(),
            circuit,
            indices,
            rows,
            disk,
            old,
            timer,
            gate,
        ),
    }
}
