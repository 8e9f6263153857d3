//! Why a call ends otherwise than with status 0.
ghost use Rattle.std.specs.Prelude.{◌≡◌};

use qh_bits::BitsWhy;
use qh_circuit::Why;
use qh_migrate::OldRefusal;
use qh_plan::PlanFault;
use qh_slots::AttachFault;

/// Why a text is refused.
#[derive(Clone, Copy, PartialEq, Eq, Debug)]
pub enum Refusal {
    CircuitTooLong,
    /// The circuit's first faulty line and its first fault.
    CircuitLine { line: u64, why: Why },
    BitsTooLong,
    /// The bitstrings' first faulty line and its first fault.
    BitsLine { line: u64, why: BitsWhy },
    /// Why the plan refuses: the text of part 1, the cut, the split, or an uncut circuit of more than 16 qubits.
    Plan(PlanFault),
    /// Probabilities are asked of a circuit whose weight is this, above 120.
    ProbTooDeep { weight: u32 },
    /// The cheapest cut is asked for, and no cut is allowed.
    NoCut,
}

/// Why a journal is refused: that of the run, or the old one that is to be taken over.
#[derive(Clone, Copy, PartialEq, Eq, Debug)]
pub enum JournalRefusal {
    OfJournal(AttachFault),
    OfOld(OldRefusal),
}

/// One of the two sources.
#[derive(Clone, Copy, PartialEq, Eq, Debug)]
pub enum Input {
    OfCircuit,
    OfBits,
}

/// Why the call ends otherwise than with status 0. A write fault has the number of bytes that went out.
#[derive(Clone, Copy, PartialEq, Eq, Debug)]
pub enum Stop {
    Usage,
    Refused(Refusal),
    /// Uncut, the first gate after which a coefficient reaches 2^126.
    OverflowGate(u32),
    /// Cut, the least path that is over.
    OverflowPath(u64),
    ReadFault(Input),
    /// A call of the journal's disk failed, or of the old journal's.
    DiskFault,
    WriteFault(usize),
    Memory,
    Journal(JournalRefusal),
}

impl Stop {
    ghost use Rattle.qh_request.specs.Stops.{status_of, stop_of};

    /// The exit status.
    pub fn status(self) -> u8
        ensures { result ≡ status_of self }
    {
        match self {
            Stop::Usage => 1,
            Stop::Refused(_) => 2,
            Stop::OverflowGate(_) | Stop::OverflowPath(_) => 3,
            Stop::ReadFault(_) => 4,
            Stop::DiskFault => 5,
            Stop::WriteFault(_) => 6,
            Stop::Memory => 7,
            Stop::Journal(_) => 8,
        }
    }

    /// The stop of a plan that is refused, or that wants memory.
    pub fn of_plan(fault: PlanFault) -> Stop
        ensures { result ≡ stop_of fault }
    {
        match fault {
            PlanFault::Memory => Stop::Memory,
            _ => Stop::Refused(Refusal::Plan(fault)),
        }
    }
}
