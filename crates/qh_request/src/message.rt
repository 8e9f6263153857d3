//! What the call says on the error sink. It takes no memory.
ghost use Rattle.std.specs.Prelude.{◌≡◌, ◌++◌, ◌∷◌, [], true, false, decimal, codes};
ghost use Rattle.std.specs.Io.KnownBytes.{Appends};
ghost use Rattle.qh_limits.specs.Counts.{Rose};
ghost use Rattle.qh_request.specs.Seen.{seen};
ghost use Rattle.qh_request.specs.Stops.{message_of, refusal_line, number_text, circuit_why, bits_why, fault_line, attach_name, attach_number, attach_text, journal_line, Says};
ghost use Rattle.qh_planner.specs.Spelling.{fault_text};
ghost use Rattle.qh_migrate.specs.Faults.{attach_of};

use crate::stop::{Input, JournalRefusal, Refusal, Stop};
use itoa::Buffer;
use qh_bits::BitsWhy;
use qh_circuit::Why;
use qh_io::{Sink, write_all_of};
use qh_migrate::OldRefusal;
use qh_plan::PlanFault;
use qh_planner::{fault_name, fault_number};
use qh_slots::AttachFault;

/// The one line of usage.
const USAGE: &str =
    "usage: qsimh_amplitudes -c FILE -i FILE [-d T] [-k LIST] [-p N] [-r N] [-w N] [-o FILE] [-t N] [-v N] [-j FILE] [-l SECONDS] [--new] [-g S,R,C,D]\n";

/// Writes the bytes; whether all of them went. It takes no memory.
pub fn say<E: Sink>(err: &mut E, bytes: &[u8]) -> bool
    ensures says { Says (seen E.held E.faults err.old err.new) bytes.now }
    ensures whole { result ≡ true → Appends (E.held err.old) (E.held err.new) bytes.now }
    ensures cause { result ≡ false → Rose (E.faults err.old) (E.faults err.new) }
{
    match write_all_of(err, bytes) {
        Ok(()) => true,
        Err(_) => false,
    }
}

fn say_three<E: Sink>(err: &mut E, first: &[u8], second: &[u8], third: &[u8])
    ensures { Says (seen E.held E.faults err.old err.new) (first.now ++ second.now ++ third.now) }
{
    if !say(err, first) {
        return;
    }
    if !say(err, second) {
        return;
    }
    say(err, third);
}

/// How the line ends that names a faulty line of a circuit.
fn circuit_why_text(why: Why) -> &'static str
    ensures { result.now ≡ circuit_why why }
{
    match why {
        Why::NoCount => ": NoCount\n",
        Why::BadCount => ": BadCount\n",
        Why::BadTime => ": BadTime\n",
        Why::UnknownGate => ": UnknownGate\n",
        Why::BadQubit => ": BadQubit\n",
        Why::SameQubit => ": SameQubit\n",
        Why::Extra => ": Extra\n",
        Why::TimeBack => ": TimeBack\n",
        Why::Overlap => ": Overlap\n",
        Why::TooManyGates => ": TooManyGates\n",
    }
}

/// How the line ends that names a faulty bitstring.
fn bits_why_text(why: BitsWhy) -> &'static str
    ensures { result.now ≡ bits_why why }
{
    match why {
        BitsWhy::NoStrings => ": NoStrings\n",
        BitsWhy::TooMany => ": TooMany\n",
        BitsWhy::Letter => ": Letter\n",
        BitsWhy::Length => ": Length\n",
    }
}

/// Says a number between two texts.
fn say_number<E: Sink>(err: &mut E, before: &str, number: u64, after: &str)
    ensures { Says (seen E.held E.faults err.old err.new) (before.now ++ decimal number ++ after.now) }
{
    let mut buffer = Buffer::new();
    say_three(
        err,
        before.as_bytes(),
        buffer.format(number).as_bytes(),
        after.as_bytes(),
    );
}

/// Says the name of a refusal of the plan, its number where it has one, and the end of the line.
fn tell_fault<E: Sink>(err: &mut E, fault: PlanFault)
    ensures { Says (seen E.held E.faults err.old err.new) (fault_text fault ++ codes "\n") }
{
    let name = fault_name(fault);
    let bytes = name.as_bytes();
    let Some(number) = fault_number(fault) else {
        say_three(err, bytes, "".as_bytes(), "\n".as_bytes());
        return;
    };
    if !say(err, bytes) {
        return;
    }
    say_number(err, " ", number, "\n");
}

/// Says why a plan is refused.
fn tell_plan<E: Sink>(err: &mut E, fault: PlanFault)
    ensures { Says (seen E.held E.faults err.old err.new) (codes "refused: plan: " ++ (fault_text fault ++ codes "\n")) }
{
    if !say(err, "refused: plan: ".as_bytes()) {
        return;
    }
    tell_fault(err, fault);
}

/// Says why a text is refused.
fn tell_refusal<E: Sink>(err: &mut E, refusal: Refusal)
    ensures { Says (seen E.held E.faults err.old err.new) (refusal_line refusal) }
{
    match refusal {
        Refusal::CircuitTooLong => {
            say(err, "refused: circuit too long\n".as_bytes());
        }
        Refusal::CircuitLine { line, why } => {
            say_number(err, "refused: circuit line ", line, circuit_why_text(why));
        }
        Refusal::BitsTooLong => {
            say(err, "refused: bitstrings too long\n".as_bytes());
        }
        Refusal::BitsLine { line, why } => {
            say_number(err, "refused: bitstrings line ", line, bits_why_text(why));
        }
        Refusal::Plan(fault) => {
            tell_plan(err, fault);
        }
        Refusal::ProbTooDeep { weight } => {
            say_number(err, "refused: plan: ProbTooDeep ", weight as u64, "\n");
        }
        Refusal::NoCut => {
            say(err, "refused: plan: NoCut\n".as_bytes());
        }
    }
}

/// The line of a read fault.
fn fault_text(input: Input) -> &'static str
    ensures { result.now ≡ fault_line input }
{
    match input {
        Input::OfCircuit => "read fault: circuit\n",
        Input::OfBits => "read fault: bitstrings\n",
    }
}

/// The name of a refusal of a journal.
fn attach_name_text(fault: AttachFault) -> &'static str
    ensures { result.now ≡ attach_name fault }
{
    match fault {
        AttachFault::DiskFault => "DiskFault",
        AttachFault::Empty => "Empty",
        AttachFault::Unbegun => "Unbegun",
        AttachFault::OldJournal => "OldJournal",
        AttachFault::NotAJournal => "NotAJournal",
        AttachFault::OtherJob { .. } => "OtherJob at ",
        AttachFault::BadLength { .. } => "BadLength ",
        AttachFault::BadSlot { .. } => "BadSlot ",
        AttachFault::Memory => "Memory",
    }
}

/// The number of a refusal of a journal.
fn number_of_attach(fault: AttachFault) -> Option<u64>
    ensures { attach_number fault ≡ number_text result }
{
    match fault {
        AttachFault::OtherJob { place } => Some(place),
        AttachFault::BadLength { found } => Some(found),
        AttachFault::BadSlot { range } => Some(range as u64),
        _ => None,
    }
}

/// The refusal of a journal that a refusal of an old one is.
fn attach_of(fault: OldRefusal) -> AttachFault
    ensures { result ≡ attach_of fault }
{
    match fault {
        OldRefusal::Empty => AttachFault::Empty,
        OldRefusal::Unbegun => AttachFault::Unbegun,
        OldRefusal::NotAJournal => AttachFault::NotAJournal,
        OldRefusal::OtherJob { place } => AttachFault::OtherJob { place },
        OldRefusal::BadLength { found } => AttachFault::BadLength { found },
        OldRefusal::BadSlot { range } => AttachFault::BadSlot { range },
    }
}

/// Says what refuses a journal.
fn tell_cause<E: Sink>(err: &mut E, fault: AttachFault)
    ensures { Says (seen E.held E.faults err.old err.new) (attach_text fault) }
{
    let name = attach_name_text(fault);
    let Some(number) = number_of_attach(fault) else {
        say_three(err, name.as_bytes(), "".as_bytes(), "\n".as_bytes());
        return;
    };
    say_number(err, name, number, "\n");
}

/// Says whose journal is refused, and what refuses it.
fn tell_attach<E: Sink>(err: &mut E, whose: &str, fault: AttachFault)
    ensures { Says (seen E.held E.faults err.old err.new) (whose.now ++ attach_text fault) }
{
    if !say(err, whose.as_bytes()) {
        return;
    }
    tell_cause(err, fault);
}

/// Says why a journal is refused.
fn tell_journal<E: Sink>(err: &mut E, refusal: JournalRefusal)
    ensures { Says (seen E.held E.faults err.old err.new) (journal_line refusal) }
{
    match refusal {
        JournalRefusal::OfJournal(fault) => tell_attach(err, "journal: ", fault),
        JournalRefusal::OfOld(fault) => tell_attach(err, "old journal: ", attach_of(fault)),
    }
}

/// Says why the call stops. It takes no memory.
pub fn tell<E: Sink>(err: &mut E, stop: Stop)
    ensures { Says (seen E.held E.faults err.old err.new) (message_of stop) }
{
    match stop {
        Stop::Usage => {
            say(err, USAGE.as_bytes());
        }
        Stop::Refused(refusal) => {
            tell_refusal(err, refusal);
        }
        Stop::OverflowGate(gate) => {
            say_number(err, "overflow: gate ", gate as u64, "\n");
        }
        Stop::OverflowPath(path) => {
            say_number(err, "overflow: path ", path, "\n");
        }
        Stop::ReadFault(input) => {
            say(err, fault_text(input).as_bytes());
        }
        Stop::DiskFault => {
            say(err, "disk fault\n".as_bytes());
        }
        Stop::WriteFault(count) => {
            say_number(err, "write fault after ", count as u64, " bytes\n");
        }
        Stop::Memory => {
            say(err, "out of memory\n".as_bytes());
        }
        Stop::Journal(refusal) => {
            tell_journal(err, refusal);
        }
    }
}
