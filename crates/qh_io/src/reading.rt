//! Where bytes come from.
ghost use Rattle.std.specs.Prelude.{◌≡◌, ◌≤◌, ◌<◌, ◌↔◌, ℕ, List, Option, IfOk, length};
ghost use Rattle.std.specs.Io.{ReadsAtMost};
ghost use Rattle.std.specs.Io.KnownBytes.{ReadConsumes, Consumes};
ghost use Rattle.qh_limits.specs.Limits.{max_circuit_bytes};
ghost use Rattle.qh_limits.specs.Counts.{Rose};
ghost use Rattle.qh_io.specs.Causes.{HasCause};
ghost use Rattle.qh_io.specs.Reading.{IsReadWhole};

use crate::faults::{Failed, ReadAllFault};
use std::alloc::Global;

/// Bytes that come in pieces, with a count of faults that never falls.
///
/// `left` is what is still to come, where the source tells it, and `faults` is the count, which stays at its last value,
/// 2^64 - 1.
pub trait Source {
    ghost left: { Self → Option (List ℕ) };

    ghost faults: { Self → ℕ };

    /// Puts the next bytes at the front of `buf` and answers how many, 0 at the end alone. A call that fails takes none.
    fn read(&mut self, buf: &mut [u8]) -> Result<usize, Failed>
        requires { 0 < length buf.old }
        ensures bound { ReadsAtMost result buf.new }
        ensures bytes { ReadConsumes (left self.old) (left self.new) result buf.new }
        ensures cause { HasCause (faults self.old) (faults self.new) result };
}

/// All bytes up to the end of the source, of which there may be `limit`: at most as many as a circuit text may have.
///
/// By every answer, what was taken from the source is gone. The last read that it makes comes after at most `limit`
/// bytes. A `Memory` answer comes for want of memory alone.
pub fn read_all<S: Source>(
    alloc: Global,
    source: &mut S,
    limit: usize,
) -> Result<Vec<u8>, ReadAllFault>
    requires { limit ≤ max_circuit_bytes }
    ensures later { S.faults source.old ≤ S.faults source.new }
    ensures fault { result ≡ Err ReadAllFault.Fault → Rose (S.faults source.old) (S.faults source.new) }

    // TooLong comes exactly where more than the limit was taken, and Ok has all that was taken.
    ensures taken { (bytes : List ℕ) × Consumes (S.left source.old) (S.left source.new) bytes
        × ((result ≡ Err ReadAllFault.TooLong) ↔ (limit < length bytes))
        × IfOk result (λ v. (v.items ≡ bytes) × IsReadWhole (S.left source.old) (S.left source.new) bytes) }
{
    let mut bytes = Vec::new(alloc);
    let mut buf = [0u8; 4096];
    loop {
        let Ok(count) = source.read(&mut buf) else {
            return Err(ReadAllFault::Fault);
        };
        if count == 0 {
            return Ok(bytes);
        }
        if count > limit - bytes.len() {
            return Err(ReadAllFault::TooLong);
        }
        let Ok(()) = bytes.extend_from_slice(&buf[..count]) else {
            return Err(ReadAllFault::Memory);
        };
    }
}
