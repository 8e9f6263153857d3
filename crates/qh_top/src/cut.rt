//! The text of a circuit that is cut.
ghost use Rattle.std.specs.Prelude.{◌≡◌, ◌≢◌, ◌⊎◌, [], true, false, Some, None, IfOk, IfErr, OnOk, IsSomeAnd};
ghost use Rattle.std.specs.Arc.{arc_value};
ghost use Rattle.qh_plan.specs.Plans.{AreBits, IsPlanned};
ghost use Rattle.qh_plan.specs.declared.verdict.Verdict.TheVariants.{Sum};
ghost use Rattle.qh_request.specs.Chosen.{is_auto, IsPart, IsTableBy, NoneAllowed};
ghost use Rattle.qh_request.specs.Jobs.{IsPlannedJob, keeping};
ghost use Rattle.qh_request.specs.Indexed.{IsSumsText, IsCutText};
ghost use Rattle.qh_request.specs.Refusals.{PlanRefusesBy};
ghost use Rattle.qh_request.specs.Request.{EndsEarly, IsRun, HeardOf};
ghost use Rattle.qh_request.specs.Stops.{status_of};
ghost use Rattle.qh_request.specs.Parts.{PlanMayStop, JobMayStop, CutMayStop, JobMoves, PlannedMoves};
ghost use Rattle.qh_top.specs.Parts.{StopsWith, IsPrintable};

use crate::answer::with_head;
use qh_disk::Disk;
use qh_gates::Circuit;
use qh_lease::Timer;
use qh_plan::{Job, plan, read_part};
use qh_planner::CutRow;
use qh_print::lines_of;
use qh_request::{JournalRefusal, Stop, cheapest_part, is_auto};
use qh_ring::Omega;
use qh_run::{RunEnd, run_kept, run_unkept};
use qh_words::{GenSize, Options};
use std::alloc::Global;
use std::sync::Arc;

/// The items of part 1: the numbers that its text lists, or the qubits of the cheapest cut of the table.
fn part_items(
    alloc: Global,
    options: &Options,
    part: &str,
    circuit: &Circuit,
    indices: &[u64],
    rows: &[CutRow],
) -> Result<Vec<u32>, Stop>
    requires { IsTableBy (is_auto part.now) options.now circuit.now indices.now rows.now }
    ensures items { IfOk result (λ items. IsPart options.now part.now circuit.now indices.now items.items) }
    ensures cause { IfErr result (PlanMayStop (PlanRefusesBy (Some part.now) options.now circuit.now indices.now)
        ((is_auto part.now ≡ true) × NoneAllowed options.now circuit.now indices.now)) }
{
    if is_auto(part) {
        return cheapest_part(alloc, rows);
    }
    match read_part(alloc, part) {
        Ok(items) => Ok(items),
        Err(fault) => Err(Stop::of_plan(fault)),
    }
}

/// The job that the options plan over a part 1.
pub(crate) fn planned(
    alloc: Global,
    options: &Options,
    part: &str,
    circuit: Circuit,
    indices: Vec<u64>,
    rows: &[CutRow],
) -> Result<Job, Stop>
    requires bits { AreBits circuit.qubits indices.items }
    requires table { IsTableBy (is_auto part.now) options.now circuit indices.items rows.now }
    ensures job { IfOk result (IsPlannedJob options.now part.now circuit indices.items) }
    ensures planned { IfOk result IsPlanned }
    ensures cause { IfErr result (PlanMayStop (PlanRefusesBy (Some part.now) options.now circuit indices.items)
        ((is_auto part.now ≡ true) × NoneAllowed options.now circuit indices.items)) }
{
    let items = match part_items(alloc, options, part, &circuit, &indices, rows) {
        Ok(items) => items,
        Err(stop) => return Err(stop),
    };
    match plan(
        alloc, circuit, &items, options.p, options.r, options.w, indices,
    ) {
        Ok(job) => Ok(job),
        Err(fault) => Err(Stop::of_plan(fault)),
    }
}

/// How a job's run ended, and its disk.
#[derive(Drop)]
pub(crate) struct JobEnd<D> {
    pub(crate) disk: D,
    pub(crate) answer: Result<(), Stop>,
}

/// Puts the sums of a run in `sums`, or answers the stop that its end is.
pub(crate) fn sums_into(end: RunEnd, sums: &mut Vec<Omega>) -> Result<(), Stop>
    ensures sums { OnOk result (end ≡ RunEnd.Sums sums.new) }
    ensures stop { IfErr result (StopsWith end) }
{
    match end {
        RunEnd::Sums(values) => {
            *sums = values;
            Ok(())
        }
        RunEnd::Over { path } => Err(Stop::OverflowPath(path)),
        RunEnd::Disk | RunEnd::OldDisk => Err(Stop::DiskFault),
        RunEnd::Refused(fault) => Err(Stop::Journal(JournalRefusal::OfJournal(fault))),
        RunEnd::OldRefused(fault) => Err(Stop::Journal(JournalRefusal::OfOld(fault))),
        RunEnd::Memory => Err(Stop::Memory),
    }
}

/// Runs a job and puts its sums in `sums`. It keeps a journal on the disk where the options ask for one.
fn run_job<D: Disk, F: Disk, T: Timer>(
    alloc: Global,
    options: &Options,
    job: Arc<Job>,
    disk: D,
    old: &mut F,
    timer: &mut T,
    sums: &mut Vec<Omega>,
) -> JobEnd<D>
    requires { IsPlanned (arc_value job) }
    ensures run { OnOk result.answer (IsRun (keeping options.now) (arc_value job) (F.face old.old) (D.face disk) (D.face result.disk) (HeardOf (T.granted_count timer.old) (T.granted_count timer.new)) (Sum sums.new.items)) }
    ensures printable { OnOk result.answer (IsPrintable (arc_value job) sums.new.items) }
    ensures cause { IfErr result.answer (JobMayStop (keeping options.now) (arc_value job) (D.face disk) (D.face result.disk) (F.face old.old) (F.face old.new) (HeardOf (T.granted_count timer.old) (T.granted_count timer.new))) }
    ensures moves { ((result.disk ≡ disk) × (old.new ≡ old.old)) ⊎ JobMoves (keeping options.now) (arc_value job) (D.face disk) (D.face result.disk) (F.face old.old) (F.face old.new) }
    ensures old_unasked { (options.now.from ≡ None) ⊎ ((options.now.fresh ≡ false) × IsSomeAnd (D.face disk).content (λ f. f ≢ [])) → old.new ≡ old.old }
    ensures loans { D.loans result.disk ≡ D.loans disk }
    ensures old_loans { F.loans old.new ≡ F.loans old.old }
{
    if options.journal.is_none() {
        let ran = run_unkept(alloc, disk, job, timer);
        return JobEnd {
            disk: ran.disk,
            answer: sums_into(ran.end, sums),
        };
    }
    let taking = options.from.is_some();
    let ran = run_kept(alloc, disk, old, job, options.fresh, taking, timer);
    JobEnd {
        disk: ran.disk,
        answer: sums_into(ran.end, sums),
    }
}

/// The sums of a job's run over a disk that is lent.
fn job_sums<D: Disk, F: Disk, T: Timer>(
    alloc: Global,
    options: &Options,
    job: Arc<Job>,
    disk: &mut D,
    old: &mut F,
    timer: &mut T,
) -> Result<Vec<Omega>, Stop>
    requires { IsPlanned (arc_value job) }
    ensures run { IfOk result (λ sums. IsRun (keeping options.now) (arc_value job) (F.face old.old) (D.face disk.old) (D.face disk.new) (HeardOf (T.granted_count timer.old) (T.granted_count timer.new)) (Sum sums.items)) }
    ensures printable { IfOk result (λ sums. IsPrintable (arc_value job) sums.items) }
    ensures cause { IfErr result (JobMayStop (keeping options.now) (arc_value job) (D.face disk.old) (D.face disk.new) (F.face old.old) (F.face old.new) (HeardOf (T.granted_count timer.old) (T.granted_count timer.new))) }
    ensures moves { ((disk.new ≡ disk.old) × (old.new ≡ old.old)) ⊎ JobMoves (keeping options.now) (arc_value job) (D.face disk.old) (D.face disk.new) (F.face old.old) (F.face old.new) }
    ensures old_unasked { (options.now.from ≡ None) ⊎ ((options.now.fresh ≡ false) × IsSomeAnd (D.face disk.old).content (λ f. f ≢ [])) → old.new ≡ old.old }
    ensures loans { D.loans disk.new ≡ D.loans disk.old }
    ensures old_loans { F.loans old.new ≡ F.loans old.old }
{
    let mut sums = Vec::new(alloc);
    let ran = run_job(alloc, options, job, disk, old, timer, &mut sums);
    match ran.answer {
        Ok(()) => Ok(sums),
        Err(stop) => Err(stop),
    }
}

/// The lines of these sums, behind the first line where the circuit is generated.
pub(crate) fn sums_text(
    alloc: Global,
    generated: Option<GenSize>,
    job: &Job,
    sums: &[Omega],
) -> Result<Vec<u8>, Stop>
    requires { IsPrintable job.now sums.now }
    ensures text { IfOk result (λ text. IsSumsText generated job.now sums.now text.items) }
    ensures err { IfErr result (λ stop. stop ≡ Stop.Memory) }
{
    let circuit = job.circuit();
    let made = lines_of(alloc, circuit.qubits(), circuit.weight(), job.bits(), sums);
    let Ok(lines) = made else {
        return Err(Stop::Memory);
    };
    with_head(
        alloc,
        generated,
        circuit,
        job.crossing(),
        job.ranges(),
        &lines,
    )
}

/// The text of a circuit that is cut.
pub(crate) fn cut_answer<D: Disk, F: Disk, T: Timer>(
    alloc: Global,
    options: &Options,
    part: &str,
    circuit: Circuit,
    indices: Vec<u64>,
    rows: &[CutRow],
    disk: &mut D,
    old: &mut F,
    timer: &mut T,
) -> Result<Vec<u8>, Stop>
    requires bits { AreBits circuit.qubits indices.items }
    requires table { IsTableBy (is_auto part.now) options.now circuit indices.items rows.now }
    ensures answer { IfOk result (λ text. IsCutText options.now (D.face disk.old) (D.face disk.new) (F.face old.old) (HeardOf (T.granted_count timer.old) (T.granted_count timer.new)) part.now circuit indices.items text.items) }
    ensures cause { IfErr result (CutMayStop options.now part.now circuit indices.items (D.face disk.old) (D.face disk.new) (F.face old.old) (F.face old.new) (HeardOf (T.granted_count timer.old) (T.granted_count timer.new))) }
    ensures moves { ((disk.new ≡ disk.old) × (old.new ≡ old.old)) ⊎ PlannedMoves options.now part.now circuit indices.items (D.face disk.old) (D.face disk.new) (F.face old.old) (F.face old.new) }
    ensures alone { IfErr result (λ stop. EndsEarly (status_of stop) → (disk.new ≡ disk.old) × (old.new ≡ old.old)) }
    ensures old_unasked { (options.now.from ≡ None) ⊎ ((options.now.fresh ≡ false) × IsSomeAnd (D.face disk.old).content (λ f. f ≢ [])) → old.new ≡ old.old }
    ensures loans { D.loans disk.new ≡ D.loans disk.old }
    ensures old_loans { F.loans old.new ≡ F.loans old.old }
{
    let job = match planned(alloc, options, part, circuit, indices, rows) {
        Ok(job) => job,
        Err(stop) => return Err(stop),
    };
    let Ok(job) = Arc::new(alloc, job) else {
        return Err(Stop::Memory);
    };
    let Ok(mine) = Arc::try_clone(&job) else {
        return Err(Stop::Memory);
    };
    let sums = match job_sums(alloc, options, mine, disk, old, timer) {
        Ok(sums) => sums,
        Err(stop) => return Err(stop),
    };
    sums_text(alloc, options.generated, &job, &sums)
}
