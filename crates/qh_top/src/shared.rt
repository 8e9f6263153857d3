//! The top call of several workers.
ghost use Rattle.std.specs.Prelude.{◌≡◌, ◌≢◌, ◌≤◌, ◌<◌, ◌⊎◌, ℕ, List, [], true, false, Err, Some, None, IfErr, OnOk, IfSome, IsSome, IsSomeAnd};
ghost use Rattle.qh_plan.specs.Jobs.{Job as JobValue, IsJob, ranges};
ghost use Rattle.qh_disk.specs.Moments.{EachImageSince, IsStableAt, Runs};
ghost use Rattle.qh_slots.specs.Stands.{Made, Holds};
ghost use Rattle.qh_slots.specs.Record.{counted, taken_over, IfTold, Extends, IsFull, Grows, IsFinished};
ghost use Rattle.qh_slots.specs.Moments.{IsMade, OldIsMade, BeginsTrue, IsOldOrMade, IsOldOrGoesOn, StaysStable, IsEmptyAt, IsUnwritten, IsReadOnly};
ghost use Rattle.qh_words.specs.declared.options.Options.{Options as OptionsValue};
ghost use Rattle.qh_words.specs.declared.size.GenSize.{GenSize as Size};
ghost use Rattle.qh_request.specs.Seen.{seen};
ghost use Rattle.qh_request.specs.Chosen.{asks_auto};
ghost use Rattle.qh_request.specs.Jobs.{request, keeping, Asks, Takes};
ghost use Rattle.qh_request.specs.Refusals.{Refuses, Reading, RefusesAll, SourceRises, JournalRefuses};
ghost use Rattle.qh_request.specs.Request.{Prints, PrintsAsked, RunIsWhole, EndsWholeBy, AnyGrants, EndsEarly, Answers, FaultCame, FaultFirst};
ghost use Rattle.qh_request.specs.declared.stop.Refusal.{Refusal as RefusalValue};
ghost use Rattle.qh_request.specs.declared.stop.JournalRefusal.{JournalRefusal as JournalRefusalValue};
ghost use Rattle.qh_request.specs.Outcomes.{MayStop, Stops, TellsTable, Tells};

use crate::shared_call::answered_shared;
use qh_disk::Disk;
use qh_io::{Sink, Source};
use qh_lease::Timer;
use qh_workers::WorkerGate;
use std::alloc::Global;
use std::sync::Wait;
use std::thread::Threads;

/// How a call ended, and the disk of its journal, which it hands back.
#[derive(Drop)]
pub struct Ran<D> {
    pub status: u8,
    pub disk: D,
}

/// As [`qsimh_alone`](crate::qsimh_alone), by as many workers as `-t` says, each on a thread of its own.
///
/// A circuit that is not cut may evolve by several threads where there are several workers. Each worker passes `gate`; where
/// the gate ends workers, the caller does what they leave. A worker whose range the timer answers to be due may see it granted
/// to another. The disk is handed back. The call may wait for a lock and for its workers: what is said of it is said where it
/// returns, and nothing is said of the timer then.
pub fn qsimh<R, C, B, O, E, D, F, T, W>(
    rt: &R,
    alloc: Global,
    words: &[String],
    circuit: &mut C,
    bits: &mut B,
    out: &mut O,
    err: &mut E,
    mut disk: D,
    old: &mut F,
    timer: &mut T,
    gate: &W,
) -> Ran<D>
where
    R: Threads + Wait + Sync,
    C: Source,
    B: Source,
    O: Sink,
    E: Sink,
    D: Disk + Send,
    F: Disk,
    T: Timer + Send,
    W: WorkerGate + Sync,
    // Journal: where each image at entry was made by runs of the job, so is each image at each moment of the call. With --new each is one at entry, or made so,
    // whatever stood there. An empty journal goes only over images that are not begun to ones that keep every slot that is taken over.
    ensures journal { (o : OptionsValue) (j : JobValue) → Asks (request words.now) (C.left circuit.old) (B.left bits.old) o j
        → IsMade (keeping o) j (D.face disk) (F.face old.old) → EachImageSince (D.face disk).clock (D.face result.disk) (Made j) }
    ensures renewed { (o : OptionsValue) (j : JobValue) → Asks (request words.now) (C.left circuit.old) (B.left bits.old) o j → o.fresh ≡ true
        → OldIsMade (keeping o) j (D.face disk) (F.face old.old) → EachImageSince (D.face disk).clock (D.face result.disk) (IsOldOrMade j (D.face disk)) }
    ensures begun { (o : OptionsValue) (j : JobValue) → Asks (request words.now) (C.left circuit.old) (B.left bits.old) o j
        → IsSomeAnd (D.face disk).content (λ f. counted (keeping o) f ≡ []) → IfSome (taken_over (keeping o) j (F.face old.old).content)
        (λ before. EachImageSince (D.face disk).clock (D.face result.disk) (IsOldOrGoesOn j before (D.face disk))) }

    // A slot that is stable at a moment of the call stays stable; with --new from a moment at which the empty file is the only image.
    ensures stable { (o : OptionsValue) (j : JobValue) → request words.now ≡ Some o → o.fresh ≡ false → IsJob j
        → StaysStable j (D.face disk).clock (D.face result.disk) }
    ensures stable_new { (o : OptionsValue) (j : JobValue) (t : ℕ) → Asks (request words.now) (C.left circuit.old) (B.left bits.old) o j
        → (D.face disk).clock ≤ t → IsEmptyAt t (D.face result.disk) → StaysStable j t (D.face result.disk) }
    ensures old_kept { IsReadOnly (F.face old.old) (F.face old.new) }

    // Safe at the end: with status 0, 3 or 6 each slot of the run is stable.
    ensures safe { (o : OptionsValue) (j : JobValue) (r : ℕ) → Asks (request words.now) (C.left circuit.old) (B.left bits.old) o j → IsSome o.journal
        → RunIsWhole result.status → r < ranges j → IsStableAt (Holds j r) (D.face result.disk).clock (D.face result.disk) }

    // The record: the slots at entry stand unchanged, and each other slot holds its range's value. With status 0, 3 or 6 none is missing.
    ensures record_done { (o : OptionsValue) (j : JobValue) → Asks (request words.now) (C.left circuit.old) (B.left bits.old) o j → RunIsWhole result.status
        → IfTold (keeping o) j (D.face disk) (F.face old.old) (D.face result.disk) (λ before after. Extends j before after × IsFull j after) }
    ensures record_grows { (o : OptionsValue) (j : JobValue) → Asks (request words.now) (C.left circuit.old) (B.left bits.old) o j → o.fresh ≡ false
        → IfTold (keeping o) j (D.face disk) (F.face old.old) (D.face result.disk) (Grows (keeping o) j (D.face disk)) }

    // The print follows the record: with status 0 the input was taken whole, and the sink got exactly the text of the slots at exit, or, uncut, of the
    // amplitudes. Nothing went to the error sink.
    ensures printed { result.status ≡ 0 → IsSomeAnd (request words.now) (λ o.
        Prints o (seen C.left C.faults circuit.old circuit.new) (seen B.left B.faults bits.old bits.new) (seen O.held O.faults out.old out.new) (D.face result.disk) (λ text. text)) }
    ensures quiet { (o : OptionsValue) → request words.now ≡ Some o → asks_auto o.part ≡ false → result.status ≡ 0 → err.new ≡ err.old }
    ensures tabled { result.status ≡ 0 → IfSome (request words.now) (λ o. TellsTable (asks_auto o.part) o (seen C.left C.faults circuit.old circuit.new) (seen B.left B.faults bits.old bits.new) (seen E.held E.faults err.old err.new)) }

    // Exact: where the slots at entry are true, the sink got the amplitudes that the job asks for, or a front of their text, or a path is over.
    ensures exact { (o : OptionsValue) (j : JobValue) → Asks (request words.now) (C.left circuit.old) (B.left bits.old) o j
        → BeginsTrue (keeping o) j (D.face disk) (F.face old.old) → PrintsAsked o j (seen O.held O.faults out.old out.new) result.status }

    // All of this of the job that the call came to, also where the sources tell nothing.
    ensures whole { RunIsWhole result.status → IfSome (request words.now) (λ o. IsSome o.part →
        EndsWholeBy o (seen C.left C.faults circuit.old circuit.new) (seen B.left B.faults bits.old bits.new) (seen O.held O.faults out.old out.new) (D.face disk) (D.face result.disk) (F.face old.old) AnyGrants result.status) }

    // Causes: every other status has its own, and its line went to the error sink.
    ensures stopped { result.status ≢ 0 → Stops result.status
        (MayStop (request words.now) (seen C.left C.faults circuit.old circuit.new) (seen B.left B.faults bits.old bits.new) (seen O.held O.faults out.old out.new) (D.face disk) (D.face result.disk) (F.face old.old) (F.face old.new))
        (Tells (request words.now) (seen C.left C.faults circuit.old circuit.new) (seen B.left B.faults bits.old bits.new) (seen E.held E.faults err.old err.new)) }

    // Probabilities are over nowhere.
    ensures prob_fits { (o : OptionsValue) → request words.now ≡ Some o → o.prob ≡ true → result.status ≢ 3 }

    // Untouched: only a write fault leaves anything in the sink. No call is made on a disk before a job is accepted that keeps a journal.
    ensures untouched { result.status ≢ 0 → result.status ≢ 6 → out.new ≡ out.old }
    ensures disks_alone { EndsEarly result.status → (result.disk ≡ disk) × (old.new ≡ old.old) }
    ensures reached { ((result.disk ≡ disk) × (old.new ≡ old.old)) ⊎ IsSomeAnd (request words.now) (λ o.
        IsSome o.journal × ((j : JobValue) × Takes o (seen C.left C.faults circuit.old circuit.new) (seen B.left B.faults bits.old bits.new) j)) }
    ensures old_unasked { (o : OptionsValue) → request words.now ≡ Some o
        → (o.from ≡ None) ⊎ ((o.fresh ≡ false) × IsSomeAnd (D.face disk).content (λ f. f ≢ [])) → old.new ≡ old.old }

    // A journal that is refused, or that was finished, is not written, whatever the status.
    ensures unwritten { (o : OptionsValue) → request words.now ≡ Some o → o.fresh ≡ false → result.status ≡ 8 → IsUnwritten (D.face disk) (D.face result.disk) }
    ensures unwritten_refused { (o : OptionsValue) (j : JobValue) (r : JournalRefusalValue) → Asks (request words.now) (C.left circuit.old) (B.left bits.old) o j
        → o.fresh ≡ false → JournalRefuses (λ known P. IsSomeAnd known P) (keeping o) j (D.face disk) (F.face old.old) r → IsUnwritten (D.face disk) (D.face result.disk) }
    ensures unwritten_finished { (o : OptionsValue) (j : JobValue) → Asks (request words.now) (C.left circuit.old) (B.left bits.old) o j
        → o.fresh ≡ false → IsFinished j (D.face disk) → IsUnwritten (D.face disk) (D.face result.disk) }

    // Words that are no request give Usage, or want of memory, and nothing else does.
    ensures usage { request words.now ≡ None → (result.status ≡ 1) ⊎ (result.status ≡ 7) }
    ensures usage_only { result.status ≡ 1 → request words.now ≡ None }

    // A request that is refused gives 2, or want of memory, or a read fault; so does one whose words alone are refused, as by a part 1 that is no list of
    // numbers, over sources that tell nothing too. One whose journals are refused gives 8, or want of memory, or the fault that came first.
    ensures refused { (o : OptionsValue) (r : RefusalValue) → request words.now ≡ Some o → Refuses (λ known P. IsSomeAnd known P) o r (C.left circuit.old) (B.left bits.old)
        → (result.status ≡ 2) ⊎ ((result.status ≡ 7) ⊎ ((result.status ≡ 4) × Reading o (seen C.left C.faults circuit.old circuit.new) (seen B.left B.faults bits.old bits.new) r)) }
    ensures refused_by_words { (o : OptionsValue) → request words.now ≡ Some o → RefusesAll o
        → (result.status ≡ 2) ⊎ ((result.status ≡ 7) ⊎ ((result.status ≡ 4) × SourceRises o.generated (seen C.left C.faults circuit.old circuit.new) (seen B.left B.faults bits.old bits.new))) }
    ensures journal_refused { (o : OptionsValue) (j : JobValue) (r : JournalRefusalValue) → Asks (request words.now) (C.left circuit.old) (B.left bits.old) o j
        → JournalRefuses (λ known P. IsSomeAnd known P) (keeping o) j (D.face disk) (F.face old.old) r
        → (result.status ≡ 8) ⊎ ((result.status ≡ 7) ⊎ FaultFirst o (seen C.left C.faults circuit.old circuit.new) (seen B.left B.faults bits.old bits.new) (D.face disk) (D.face result.disk) (F.face old.old) (F.face old.new) result.status) }

    // Without a request, or with a generated circuit, nothing is read. No count falls, and no moment is lost.
    ensures unread { result.status ≡ 1 → (circuit.new ≡ circuit.old) × (bits.new ≡ bits.old) }
    ensures generated { IfSome (request words.now) (λ o. (size : Size) → o.generated ≡ Some size → (circuit.new ≡ circuit.old) × (bits.new ≡ bits.old)) }
    ensures counts { (C.faults circuit.old ≤ C.faults circuit.new) × (B.faults bits.old ≤ B.faults bits.new)
        × (O.faults out.old ≤ O.faults out.new) × (E.faults err.old ≤ E.faults err.new) }
    ensures moments { Runs (D.face disk) (D.face result.disk) × Runs (F.face old.old) (F.face old.new) }
    ensures loans { (D.loans result.disk ≡ D.loans disk) × (F.loans old.new ≡ F.loans old.old) }

    // Complete: where no fault came, the request is answered as it is.
    ensures complete { ¬ FaultCame (request words.now) (seen C.left C.faults circuit.old circuit.new) (seen B.left B.faults bits.old bits.new) (seen O.held O.faults out.old out.new) (D.face disk) (D.face result.disk) (F.face old.old) (F.face old.new)
        → Answers (request words.now) (C.left circuit.old) (B.left bits.old) (D.face disk) (F.face old.old) result.status }
{
    let status = answered_shared(
        rt, alloc, words, circuit, bits, out, err, &mut disk, old, timer, gate,
    );
    Ran { status, disk }
}
