//! The call of several workers.
ghost use Rattle.std.specs.Prelude.{◌≡◌, ◌≢◌, ◌≤◌, ◌⊎◌, [], true, false, Err, Some, None, IfErr, OnOk, IfSome, IsSomeAnd};
ghost use Rattle.qh_words.specs.Request.{HasWorkers};
ghost use Rattle.qh_words.specs.Size.{IsGenSize};
ghost use Rattle.qh_words.specs.declared.options.Options.{Options as OptionsValue};
ghost use Rattle.qh_words.specs.declared.size.GenSize.{GenSize as Size};
ghost use Rattle.qh_request.specs.Seen.{seen};
ghost use Rattle.qh_request.specs.Chosen.{asks_auto};
ghost use Rattle.qh_request.specs.Jobs.{request};
ghost use Rattle.qh_request.specs.Request.{Prints, EndsEarly, AnyGrants};
ghost use Rattle.qh_request.specs.Stops.{status_of, Says};
ghost use Rattle.qh_request.specs.Outcomes.{MayStopBy, MayStop, Stops, SaysBefore, TellsTable, Tells};
ghost use Rattle.qh_request.specs.Parts.{Moves, Ended};

use crate::shared_answer::answer_shared;
use qh_disk::Disk;
use qh_io::{Sink, Source, write_all_of};
use qh_lease::Timer;
use qh_request::{Stop, take_input, tell_on, tell_table};
use qh_words::{Options, WordsFault, read_words};
use qh_workers::WorkerGate;
use std::alloc::Global;
use std::sync::Wait;
use std::thread::Threads;

/// Takes the input that the options ask for, computes, and writes.
fn run_with_shared<R, C, B, O, E, D, F, T, W>(
    rt: &R,
    alloc: Global,
    options: &Options,
    circuit: &mut C,
    bits: &mut B,
    out: &mut O,
    err: &mut E,
    whole: &mut bool,
    disk: &mut D,
    old: &mut F,
    timer: &mut T,
    gate: &W,
) -> Result<(), Stop>
where
    R: Threads + Wait + Sync,
    D: Disk + Send,
    T: Timer + Send,
    W: WorkerGate + Sync,
    C: Source,
    B: Source,
    O: Sink,
    E: Sink,
    F: Disk,
    requires size { IfSome options.now.generated IsGenSize }
    requires workers { HasWorkers options.now }
    requires still { whole.old ≡ true }
    ensures later_circuit { C.faults circuit.old ≤ C.faults circuit.new }
    ensures later_bits { B.faults bits.old ≤ B.faults bits.new }
    ensures later_err { E.faults err.old ≤ E.faults err.new }
    ensures quiet { asks_auto options.now.part ≡ false → err.new ≡ err.old }
    ensures tabled { OnOk result (TellsTable (asks_auto options.now.part) options.now (seen C.left C.faults circuit.old circuit.new) (seen B.left B.faults bits.old bits.new) (seen E.held E.faults err.old err.new)) }
    ensures said { IfErr result (SaysBefore options.now (seen C.left C.faults circuit.old circuit.new) (seen B.left B.faults bits.old bits.new) (seen E.held E.faults err.old err.new) whole.new) }
    ensures later_out { O.faults out.old ≤ O.faults out.new }
    ensures unread { (size : Size) → options.now.generated ≡ Some size → (circuit.new ≡ circuit.old) × (bits.new ≡ bits.old) }
    ensures cause { IfErr result (MayStopBy options.now (seen C.left C.faults circuit.old circuit.new) (seen B.left B.faults bits.old bits.new) (seen O.held O.faults out.old out.new) (D.face disk.old) (D.face disk.new) (F.face old.old) (F.face old.new)) }
    ensures untouched { IfErr result (λ stop. (status_of stop ≡ 6 → ⊥) → out.new ≡ out.old) }
    ensures printed { OnOk result (Prints options.now (seen C.left C.faults circuit.old circuit.new) (seen B.left B.faults bits.old bits.new) (seen O.held O.faults out.old out.new) (D.face disk.new) (λ text. text)) }
    ensures ended { OnOk result (Ended options.now (seen C.left C.faults circuit.old circuit.new) (seen B.left B.faults bits.old bits.new) (seen O.held O.faults out.old out.new) (D.face disk.old) (D.face disk.new) (F.face old.old) AnyGrants 0) }
    ensures ended_by { IfErr result (λ stop. Ended options.now (seen C.left C.faults circuit.old circuit.new) (seen B.left B.faults bits.old bits.new) (seen O.held O.faults out.old out.new) (D.face disk.old) (D.face disk.new) (F.face old.old) AnyGrants (status_of stop)) }
    ensures moves { ((disk.new ≡ disk.old) × (old.new ≡ old.old)) ⊎ Moves options.now (seen C.left C.faults circuit.old circuit.new) (seen B.left B.faults bits.old bits.new) (D.face disk.old) (D.face disk.new) (F.face old.old) (F.face old.new) }
    ensures alone { IfErr result (λ stop. EndsEarly (status_of stop) → (disk.new ≡ disk.old) × (old.new ≡ old.old)) }
    ensures old_unasked { (options.now.from ≡ None) ⊎ ((options.now.fresh ≡ false) × IsSomeAnd (D.face disk.old).content (λ f. f ≢ [])) → old.new ≡ old.old }
    ensures loans { D.loans disk.new ≡ D.loans disk.old }
    ensures old_loans { F.loans old.new ≡ F.loans old.old }
{
    let (value, indices) = match take_input(alloc, options, circuit, bits) {
        Ok(input) => input,
        Err(stop) => return Err(stop),
    };
    let rows = match tell_table(alloc, options, &value, &indices, err, whole) {
        Ok(rows) => rows,
        Err(_) => return Err(Stop::Memory),
    };
    let text = match answer_shared(
        rt, alloc, options, value, indices, &rows, disk, old, timer, gate,
    ) {
        Ok(text) => text,
        Err(stop) => return Err(stop),
    };
    match write_all_of(out, &text) {
        Ok(()) => Ok(()),
        Err(fault) => Err(Stop::WriteFault(fault.written)),
    }
}

/// Reads the words, and runs where they are a request.
fn run_shared<R, C, B, O, E, D, F, T, W>(
    rt: &R,
    alloc: Global,
    words: &[String],
    circuit: &mut C,
    bits: &mut B,
    out: &mut O,
    err: &mut E,
    whole: &mut bool,
    disk: &mut D,
    old: &mut F,
    timer: &mut T,
    gate: &W,
) -> Result<(), Stop>
where
    R: Threads + Wait + Sync,
    D: Disk + Send,
    T: Timer + Send,
    W: WorkerGate + Sync,
    C: Source,
    B: Source,
    O: Sink,
    E: Sink,
    F: Disk,
    requires { whole.old ≡ true }
    ensures later_circuit { C.faults circuit.old ≤ C.faults circuit.new }
    ensures later_bits { B.faults bits.old ≤ B.faults bits.new }
    ensures later_err { E.faults err.old ≤ E.faults err.new }
    ensures quiet { (o : OptionsValue) → request words.now ≡ Some o → asks_auto o.part ≡ false → err.new ≡ err.old }
    ensures tabled { OnOk result (IfSome (request words.now) (λ o. TellsTable (asks_auto o.part) o (seen C.left C.faults circuit.old circuit.new) (seen B.left B.faults bits.old bits.new) (seen E.held E.faults err.old err.new))) }
    ensures said { IfErr result (λ stop. IfSome (request words.now) (λ o. SaysBefore o (seen C.left C.faults circuit.old circuit.new) (seen B.left B.faults bits.old bits.new) (seen E.held E.faults err.old err.new) whole.new stop)) }
    ensures unsaid { request words.now ≡ None → (err.new ≡ err.old) × (whole.new ≡ true) }
    ensures later_out { O.faults out.old ≤ O.faults out.new }
    ensures unread { result ≡ Err Stop.Usage → (circuit.new ≡ circuit.old) × (bits.new ≡ bits.old) }
    ensures generated { IfSome (request words.now) (λ o. (size : Size) → o.generated ≡ Some size → (circuit.new ≡ circuit.old) × (bits.new ≡ bits.old)) }
    ensures cause { IfErr result (MayStop (request words.now) (seen C.left C.faults circuit.old circuit.new) (seen B.left B.faults bits.old bits.new) (seen O.held O.faults out.old out.new) (D.face disk.old) (D.face disk.new) (F.face old.old) (F.face old.new)) }
    ensures untouched { IfErr result (λ stop. (status_of stop ≡ 6 → ⊥) → out.new ≡ out.old) }
    ensures printed { OnOk result (IsSomeAnd (request words.now) (λ o.
        Prints o (seen C.left C.faults circuit.old circuit.new) (seen B.left B.faults bits.old bits.new) (seen O.held O.faults out.old out.new) (D.face disk.new) (λ text. text))) }
    ensures ended { OnOk result (IfSome (request words.now) (λ o.
        Ended o (seen C.left C.faults circuit.old circuit.new) (seen B.left B.faults bits.old bits.new) (seen O.held O.faults out.old out.new) (D.face disk.old) (D.face disk.new) (F.face old.old) AnyGrants 0)) }
    ensures ended_by { IfErr result (λ stop. IfSome (request words.now) (λ o.
        Ended o (seen C.left C.faults circuit.old circuit.new) (seen B.left B.faults bits.old bits.new) (seen O.held O.faults out.old out.new) (D.face disk.old) (D.face disk.new) (F.face old.old) AnyGrants (status_of stop))) }
    ensures moves { ((disk.new ≡ disk.old) × (old.new ≡ old.old)) ⊎ IsSomeAnd (request words.now) (λ o.
        Moves o (seen C.left C.faults circuit.old circuit.new) (seen B.left B.faults bits.old bits.new) (D.face disk.old) (D.face disk.new) (F.face old.old) (F.face old.new)) }
    ensures alone { IfErr result (λ stop. EndsEarly (status_of stop) → (disk.new ≡ disk.old) × (old.new ≡ old.old)) }
    ensures old_unasked { (o : OptionsValue) → request words.now ≡ Some o
        → (o.from ≡ None) ⊎ ((o.fresh ≡ false) × IsSomeAnd (D.face disk.old).content (λ f. f ≢ [])) → old.new ≡ old.old }
    ensures loans { D.loans disk.new ≡ D.loans disk.old }
    ensures old_loans { F.loans old.new ≡ F.loans old.old }
{
    match read_words(alloc, words) {
        Ok(options) => run_with_shared(
            rt, alloc, &options, circuit, bits, out, err, whole, disk, old, timer, gate,
        ),
        Err(WordsFault::Usage) => Err(Stop::Usage),
        Err(WordsFault::Memory) => Err(Stop::Memory),
    }
}

/// Runs, tells why it stopped, and answers the status.
pub(crate) fn answered_shared<R, C, B, O, E, D, F, T, W>(
    rt: &R,
    alloc: Global,
    words: &[String],
    circuit: &mut C,
    bits: &mut B,
    out: &mut O,
    err: &mut E,
    disk: &mut D,
    old: &mut F,
    timer: &mut T,
    gate: &W,
) -> u8
where
    R: Threads + Wait + Sync,
    D: Disk + Send,
    T: Timer + Send,
    W: WorkerGate + Sync,
    C: Source,
    B: Source,
    O: Sink,
    E: Sink,
    F: Disk,
    ensures printed { result ≡ 0 → IsSomeAnd (request words.now) (λ o.
        Prints o (seen C.left C.faults circuit.old circuit.new) (seen B.left B.faults bits.old bits.new) (seen O.held O.faults out.old out.new) (D.face disk.new) (λ text. text)) }
    ensures quiet { (o : OptionsValue) → request words.now ≡ Some o → asks_auto o.part ≡ false → result ≡ 0 → err.new ≡ err.old }
    ensures tabled { result ≡ 0 → IfSome (request words.now) (λ o. TellsTable (asks_auto o.part) o (seen C.left C.faults circuit.old circuit.new) (seen B.left B.faults bits.old bits.new) (seen E.held E.faults err.old err.new)) }
    ensures stopped { result ≢ 0 → Stops result
        (MayStop (request words.now) (seen C.left C.faults circuit.old circuit.new) (seen B.left B.faults bits.old bits.new) (seen O.held O.faults out.old out.new) (D.face disk.old) (D.face disk.new) (F.face old.old) (F.face old.new))
        (Tells (request words.now) (seen C.left C.faults circuit.old circuit.new) (seen B.left B.faults bits.old bits.new) (seen E.held E.faults err.old err.new)) }
    ensures ended { IfSome (request words.now) (λ o.
        Ended o (seen C.left C.faults circuit.old circuit.new) (seen B.left B.faults bits.old bits.new) (seen O.held O.faults out.old out.new) (D.face disk.old) (D.face disk.new) (F.face old.old) AnyGrants result) }
    ensures moves { ((disk.new ≡ disk.old) × (old.new ≡ old.old)) ⊎ IsSomeAnd (request words.now) (λ o.
        Moves o (seen C.left C.faults circuit.old circuit.new) (seen B.left B.faults bits.old bits.new) (D.face disk.old) (D.face disk.new) (F.face old.old) (F.face old.new)) }
    ensures untouched { result ≢ 0 → result ≢ 6 → out.new ≡ out.old }
    ensures alone { EndsEarly result → (disk.new ≡ disk.old) × (old.new ≡ old.old) }
    ensures old_unasked { (o : OptionsValue) → request words.now ≡ Some o
        → (o.from ≡ None) ⊎ ((o.fresh ≡ false) × IsSomeAnd (D.face disk.old).content (λ f. f ≢ [])) → old.new ≡ old.old }
    ensures unread { result ≡ 1 → (circuit.new ≡ circuit.old) × (bits.new ≡ bits.old) }
    ensures generated { IfSome (request words.now) (λ o. (size : Size) → o.generated ≡ Some size → (circuit.new ≡ circuit.old) × (bits.new ≡ bits.old)) }
    ensures counts { (C.faults circuit.old ≤ C.faults circuit.new) × (B.faults bits.old ≤ B.faults bits.new)
        × (O.faults out.old ≤ O.faults out.new) × (E.faults err.old ≤ E.faults err.new) }
    ensures loans { (D.loans disk.new ≡ D.loans disk.old) × (F.loans old.new ≡ F.loans old.old) }
{
    let mut whole = true;
    match run_shared(
        rt, alloc, words, circuit, bits, out, err, &mut whole, disk, old, timer, gate,
    ) {
        Ok(()) => 0,
        Err(stop) => {
            tell_on(err, stop, whole);
            stop.status()
        }
    }
}
