//! Where bytes go.
ghost use Rattle.std.specs.Prelude.{◌≡◌, ◌≤◌, ◌<◌, ℕ, List, Option, IfOk, IfErr, OnErr, OnOk, length, take};
ghost use Rattle.std.specs.Io.{WritesAtMost};
ghost use Rattle.std.specs.Io.KnownBytes.{WriteAppends, Appends};
ghost use Rattle.qh_limits.specs.Counts.{Rose};
ghost use Rattle.qh_io.specs.Causes.{HasCause};

use crate::faults::{Failed, WriteFault};

/// Bytes that go in pieces, with a count of faults that never falls.
///
/// `held` is what the sink holds, where it tells it, and `faults` is the count, which stays at its last value, 2^64 - 1.
pub trait Sink {
    ghost held: { Self → Option (List ℕ) };

    ghost faults: { Self → ℕ };

    /// Takes bytes from the front of `piece` and answers how many, at least one. A call that fails takes none.
    fn write(&mut self, piece: &[u8]) -> Result<usize, Failed>
        requires { 0 < length piece.now }
        ensures bound { WritesAtMost result piece.now }
        ensures some { IfOk result (λ n. 0 < n) }
        ensures bytes { WriteAppends (held self.old) (held self.new) result piece.now }
        ensures cause { HasCause (faults self.old) (faults self.new) result };
}

/// Writes all bytes, or as many as the sink takes before a fault, which says how many these are. Takes no memory.
pub fn write_all_of<K: Sink>(sink: &mut K, bytes: &[u8]) -> Result<(), WriteFault>
    ensures later { K.faults sink.old ≤ K.faults sink.new }
    ensures whole { OnOk result (Appends (K.held sink.old) (K.held sink.new) bytes.now) }
    ensures part { IfErr result (λ fault. (fault.written < length bytes.now)
        × Appends (K.held sink.old) (K.held sink.new) (take fault.written bytes.now)) }
    ensures cause { OnErr result (Rose (K.faults sink.old) (K.faults sink.new)) }
{
    let mut written = 0;
    while written < bytes.len() {
        let Ok(count) = sink.write(&bytes[written..]) else {
            return Err(WriteFault { written });
        };
        written += count;
    }
    Ok(())
}
