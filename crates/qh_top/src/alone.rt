//! The top call of one caller.
ghost use Rattle.std.specs.Prelude.{◌≡◌, ◌≢◌, ◌≤◌, ◌<◌, ◌⊎◌, ℕ, List, [], true, false, Err, Some, None, IfErr, OnOk, IfSome, IsSome, IsSomeAnd};
ghost use Rattle.qh_limits.specs.Counts.{RoseBy};
ghost use Rattle.qh_plan.specs.Jobs.{Job as JobValue, IsJob, ranges};
ghost use Rattle.qh_disk.specs.Moments.{EachImageSince, IsStableAt, Runs};
ghost use Rattle.qh_slots.specs.Stands.{Made, Holds};
ghost use Rattle.qh_slots.specs.Record.{counted, taken_over, IfTold, slots_before, Extends, IsFull, Grows, IsFinished, count_bare};
ghost use Rattle.qh_slots.specs.Moments.{IsMade, OldIsMade, BeginsTrue, IsOldOrMade, IsOldOrGoesOn, StaysStable, IsEmptyAt, IsUnwritten, IsReadOnly};
ghost use Rattle.qh_words.specs.declared.options.Options.{Options as OptionsValue};
ghost use Rattle.qh_words.specs.declared.size.GenSize.{GenSize as Size};
ghost use Rattle.qh_request.specs.Seen.{seen};
ghost use Rattle.qh_request.specs.Chosen.{asks_auto};
ghost use Rattle.qh_request.specs.Jobs.{request, keeping, Asks, Takes};
ghost use Rattle.qh_request.specs.Refusals.{Refuses, Reading, RefusesAll, SourceRises, JournalRefuses};
ghost use Rattle.qh_request.specs.Request.{Prints, PrintsAsked, RunIsWhole, EndsWhole, EndsEarly, Answers, FaultCame, FaultFirst};
ghost use Rattle.qh_request.specs.declared.stop.Refusal.{Refusal as RefusalValue};
ghost use Rattle.qh_request.specs.declared.stop.JournalRefusal.{JournalRefusal as JournalRefusalValue};
ghost use Rattle.qh_request.specs.Outcomes.{MayStop, Stops, TellsTable, Tells};

use crate::call::answered;
use qh_disk::Disk;
use qh_io::{Sink, Source};
use qh_lease::Timer;
use std::alloc::Global;

/// Takes a circuit and bitstrings as the words ask, and writes the amplitude of each, or with `--prob` its probability: uncut, or cut with all ranges in order, and then over the journal on
/// `disk` where the words ask for one.
///
/// A circuit that is generated asks nothing of the sources. `old` is the journal of the first format that an empty journal takes over with `--from`; it is
/// only read. Each range of the run that has no slot is granted by the timer, which has no other use here.
pub fn qsimh_alone<C: Source, B: Source, O: Sink, E: Sink, D: Disk, F: Disk, T: Timer>(
    alloc: Global,
    words: &[String],
    circuit: &mut C,
    bits: &mut B,
    out: &mut O,
    err: &mut E,
    disk: &mut D,
    old: &mut F,
    timer: &mut T,
) -> u8
    // Journal: where each image at entry was made by runs of the job, so is each image at each moment of the call. With --new each is one at entry, or made so,
    // whatever stood there. An empty journal goes only over images that are not begun to ones that keep every slot that is taken over.
    ensures journal { (o : OptionsValue) (j : JobValue) → Asks (request words.now) (C.left circuit.old) (B.left bits.old) o j
        → IsMade (keeping o) j (D.face disk.old) (F.face old.old) → EachImageSince (D.face disk.old).clock (D.face disk.new) (Made j) }
    ensures renewed { (o : OptionsValue) (j : JobValue) → Asks (request words.now) (C.left circuit.old) (B.left bits.old) o j → o.fresh ≡ true
        → OldIsMade (keeping o) j (D.face disk.old) (F.face old.old) → EachImageSince (D.face disk.old).clock (D.face disk.new) (IsOldOrMade j (D.face disk.old)) }
    ensures begun { (o : OptionsValue) (j : JobValue) → Asks (request words.now) (C.left circuit.old) (B.left bits.old) o j
        → IsSomeAnd (D.face disk.old).content (λ f. counted (keeping o) f ≡ []) → IfSome (taken_over (keeping o) j (F.face old.old).content)
        (λ before. EachImageSince (D.face disk.old).clock (D.face disk.new) (IsOldOrGoesOn j before (D.face disk.old))) }

    // A slot that is stable at a moment of the call stays stable; with --new from a moment at which the empty file is the only image.
    ensures stable { (o : OptionsValue) (j : JobValue) → request words.now ≡ Some o → o.fresh ≡ false → IsJob j
        → StaysStable j (D.face disk.old).clock (D.face disk.new) }
    ensures stable_new { (o : OptionsValue) (j : JobValue) (t : ℕ) → Asks (request words.now) (C.left circuit.old) (B.left bits.old) o j
        → (D.face disk.old).clock ≤ t → IsEmptyAt t (D.face disk.new) → StaysStable j t (D.face disk.new) }
    ensures old_kept { IsReadOnly (F.face old.old) (F.face old.new) }

    // Safe at the end: with status 0, 3 or 6 each slot of the run is stable.
    ensures safe { (o : OptionsValue) (j : JobValue) (r : ℕ) → Asks (request words.now) (C.left circuit.old) (B.left bits.old) o j → IsSome o.journal
        → RunIsWhole result → r < ranges j → IsStableAt (Holds j r) (D.face disk.new).clock (D.face disk.new) }

    // The record: the slots at entry stand unchanged, and each other slot holds its range's value. With status 0, 3 or 6 none is missing.
    ensures record_done { (o : OptionsValue) (j : JobValue) → Asks (request words.now) (C.left circuit.old) (B.left bits.old) o j → RunIsWhole result
        → IfTold (keeping o) j (D.face disk.old) (F.face old.old) (D.face disk.new) (λ before after. Extends j before after × IsFull j after) }
    ensures record_grows { (o : OptionsValue) (j : JobValue) → Asks (request words.now) (C.left circuit.old) (B.left bits.old) o j → o.fresh ≡ false
        → IfTold (keeping o) j (D.face disk.old) (F.face old.old) (D.face disk.new) (Grows (keeping o) j (D.face disk.old)) }

    // The print follows the record: with status 0 the input was taken whole, and the sink got exactly the text of the slots at exit, or, uncut, of the
    // amplitudes. Nothing went to the error sink.
    ensures printed { result ≡ 0 → IsSomeAnd (request words.now) (λ o.
        Prints o (seen C.left C.faults circuit.old circuit.new) (seen B.left B.faults bits.old bits.new) (seen O.held O.faults out.old out.new) (D.face disk.new) (λ text. text)) }
    ensures quiet { (o : OptionsValue) → request words.now ≡ Some o → asks_auto o.part ≡ false → result ≡ 0 → err.new ≡ err.old }
    ensures tabled { result ≡ 0 → IfSome (request words.now) (λ o. TellsTable (asks_auto o.part) o (seen C.left C.faults circuit.old circuit.new) (seen B.left B.faults bits.old bits.new) (seen E.held E.faults err.old err.new)) }

    // Exact: where the slots at entry are true, the sink got the amplitudes that the job asks for, or a front of their text, or a path is over.
    ensures exact { (o : OptionsValue) (j : JobValue) → Asks (request words.now) (C.left circuit.old) (B.left bits.old) o j
        → BeginsTrue (keeping o) j (D.face disk.old) (F.face old.old) → PrintsAsked o j (seen O.held O.faults out.old out.new) result }

    // All of this of the job that the call came to, also where the sources tell nothing.
    ensures whole { RunIsWhole result → IfSome (request words.now) (λ o. IsSome o.part →
        EndsWhole o (seen C.left C.faults circuit.old circuit.new) (seen B.left B.faults bits.old bits.new) (seen O.held O.faults out.old out.new) (D.face disk.old) (D.face disk.new) (F.face old.old) (T.granted_count timer.old) (T.granted_count timer.new) result) }

    // Causes: every other status has its own, and its line went to the error sink.
    ensures stopped { result ≢ 0 → Stops result
        (MayStop (request words.now) (seen C.left C.faults circuit.old circuit.new) (seen B.left B.faults bits.old bits.new) (seen O.held O.faults out.old out.new) (D.face disk.old) (D.face disk.new) (F.face old.old) (F.face old.new))
        (Tells (request words.now) (seen C.left C.faults circuit.old circuit.new) (seen B.left B.faults bits.old bits.new) (seen E.held E.faults err.old err.new)) }

    // Probabilities are over nowhere.
    ensures prob_fits { (o : OptionsValue) → request words.now ≡ Some o → o.prob ≡ true → result ≢ 3 }

    // Untouched: only a write fault leaves anything in the sink. No call is made on a disk before a job is accepted that keeps a journal.
    ensures untouched { result ≢ 0 → result ≢ 6 → out.new ≡ out.old }
    ensures disks_alone { EndsEarly result → (disk.new ≡ disk.old) × (old.new ≡ old.old) }
    ensures reached { ((disk.new ≡ disk.old) × (old.new ≡ old.old)) ⊎ IsSomeAnd (request words.now) (λ o.
        IsSome o.journal × ((j : JobValue) × Takes o (seen C.left C.faults circuit.old circuit.new) (seen B.left B.faults bits.old bits.new) j)) }
    ensures old_unasked { (o : OptionsValue) → request words.now ≡ Some o
        → (o.from ≡ None) ⊎ ((o.fresh ≡ false) × IsSomeAnd (D.face disk.old).content (λ f. f ≢ [])) → old.new ≡ old.old }

    // A journal that is refused, or that was finished, is not written, whatever the status.
    ensures unwritten { (o : OptionsValue) → request words.now ≡ Some o → o.fresh ≡ false → result ≡ 8 → IsUnwritten (D.face disk.old) (D.face disk.new) }
    ensures unwritten_refused { (o : OptionsValue) (j : JobValue) (r : JournalRefusalValue) → Asks (request words.now) (C.left circuit.old) (B.left bits.old) o j
        → o.fresh ≡ false → JournalRefuses (λ known P. IsSomeAnd known P) (keeping o) j (D.face disk.old) (F.face old.old) r → IsUnwritten (D.face disk.old) (D.face disk.new) }
    ensures unwritten_finished { (o : OptionsValue) (j : JobValue) → Asks (request words.now) (C.left circuit.old) (B.left bits.old) o j
        → o.fresh ≡ false → IsFinished j (D.face disk.old) → IsUnwritten (D.face disk.old) (D.face disk.new) }

    // Words that are no request give Usage, or want of memory, and nothing else does.
    ensures usage { request words.now ≡ None → (result ≡ 1) ⊎ (result ≡ 7) }
    ensures usage_only { result ≡ 1 → request words.now ≡ None }

    // A request that is refused gives 2, or want of memory, or a read fault; so does one whose words alone are refused, as by a part 1 that is no list of
    // numbers, over sources that tell nothing too. One whose journals are refused gives 8, or want of memory, or the fault that came first.
    ensures refused { (o : OptionsValue) (r : RefusalValue) → request words.now ≡ Some o → Refuses (λ known P. IsSomeAnd known P) o r (C.left circuit.old) (B.left bits.old)
        → (result ≡ 2) ⊎ ((result ≡ 7) ⊎ ((result ≡ 4) × Reading o (seen C.left C.faults circuit.old circuit.new) (seen B.left B.faults bits.old bits.new) r)) }
    ensures refused_by_words { (o : OptionsValue) → request words.now ≡ Some o → RefusesAll o
        → (result ≡ 2) ⊎ ((result ≡ 7) ⊎ ((result ≡ 4) × SourceRises o.generated (seen C.left C.faults circuit.old circuit.new) (seen B.left B.faults bits.old bits.new))) }
    ensures journal_refused { (o : OptionsValue) (j : JobValue) (r : JournalRefusalValue) → Asks (request words.now) (C.left circuit.old) (B.left bits.old) o j
        → JournalRefuses (λ known P. IsSomeAnd known P) (keeping o) j (D.face disk.old) (F.face old.old) r
        → (result ≡ 8) ⊎ ((result ≡ 7) ⊎ FaultFirst o (seen C.left C.faults circuit.old circuit.new) (seen B.left B.faults bits.old bits.new) (D.face disk.old) (D.face disk.new) (F.face old.old) (F.face old.new) result) }

    // Without a request, or with a generated circuit, nothing is read. No count falls, and no moment is lost.
    ensures unread { result ≡ 1 → (circuit.new ≡ circuit.old) × (bits.new ≡ bits.old) }
    ensures generated { IfSome (request words.now) (λ o. (size : Size) → o.generated ≡ Some size → (circuit.new ≡ circuit.old) × (bits.new ≡ bits.old)) }
    ensures counts { (C.faults circuit.old ≤ C.faults circuit.new) × (B.faults bits.old ≤ B.faults bits.new)
        × (O.faults out.old ≤ O.faults out.new) × (E.faults err.old ≤ E.faults err.new) }
    ensures moments { Runs (D.face disk.old) (D.face disk.new) × Runs (F.face old.old) (F.face old.new) }
    ensures loans { (D.loans disk.new ≡ D.loans disk.old) × (F.loans old.new ≡ F.loans old.old) }

    // Complete: where no fault came, the request is answered as it is.
    ensures complete { ¬ FaultCame (request words.now) (seen C.left C.faults circuit.old circuit.new) (seen B.left B.faults bits.old bits.new) (seen O.held O.faults out.old out.new) (D.face disk.old) (D.face disk.new) (F.face old.old) (F.face old.new)
        → Answers (request words.now) (C.left circuit.old) (B.left bits.old) (D.face disk.old) (F.face old.old) result }

    // Each range without a slot at entry was granted.
    ensures granted { (o : OptionsValue) (j : JobValue) → Asks (request words.now) (C.left circuit.old) (B.left bits.old) o j → RunIsWhole result
        → IfSome (slots_before (keeping o) j (D.face disk.old) (F.face old.old)) (λ before. RoseBy (count_bare j before) (T.granted_count timer.old) (T.granted_count timer.new)) }
{
    answered(alloc, words, circuit, bits, out, err, disk, old, timer)
}
