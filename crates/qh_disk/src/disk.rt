//! What a disk promises.
ghost use Rattle.std.specs.Prelude.{◌≡◌, ◌≤◌, ◌+◌, ◌∷◌, ℕ, List, length, take, drop, IfOk, OnOk, OnErr};
ghost use Rattle.qh_disk.specs.Disk.{Face, IsImage, Reads, Becomes, overwritten, resized, Torn, Stretched, Calls, Unchanged, Shrinks, Turns, IsSafe};

use crate::Failed;

/// A file of bytes on a device that may stop at any moment.
///
/// Its images at a moment are the lists of bytes that a crash at that moment may leave.
///
/// 1. What it reads as is one of its images.
/// 2. Between two syncs a range that was written may hold any bytes in an image. The bytes outside
///    it stay.
/// 3. A write lies inside the length. One that succeeds makes its range read as the given bytes,
///    and changes nothing else.
/// 4. `set_len` shortens the file, or lengthens it with zeros. Until the next sync an image has any
///    length from the old one to the new one, and zeros past the old end where no write has gone
///    since.
/// 5. A sync that succeeds changes nothing that is read, and leaves that as the only image.
/// 6. A write that fails leaves any bytes in its range, a `set_len` that fails some length from the
///    old one to the new one, and a sync that fails makes nothing safe: it loses no image. `len` and
///    `read_at` change nothing, whether they succeed or fail.
/// 7. A disk that tells what it reads as goes on telling it, and one that does not never begins to.
/// 8. Each call tells which images there were at some moment since it began: those before it, and
///    those after it.
///
/// A call fails only where the count of faults rose. That count never falls, and stays at 2^64 - 1.
pub trait Disk {
    /// What it reads as, its images at each moment so far, and its count of faults.
    ghost face: { Self → Face };

    /// The loans through which it is reached, the outermost first.
    ghost loans: { Self → List ℕ };

    /// The number of bytes.
    fn len(&mut self) -> Result<u64, Failed>
        ensures length { IfOk result (λ n. Reads (face self.old) (λ f. n ≡ length f)) }
        ensures unchanged { Unchanged (face self.old) (face self.new) }
        ensures call { Calls result (face self.old) (face self.new) }
        ensures same { loans self.new ≡ loans self.old };

    /// Fills `buf` with the bytes from `at` on. They lie inside the length.
    fn read_at(&mut self, at: u64, buf: &mut [u8]) -> Result<(), Failed>
        requires { Reads (face self.old) (λ f. at + length buf.old ≤ length f) }
        ensures bytes { OnOk result (Reads (face self.old) (λ f. buf.new ≡ take (length buf.old) (drop at f))) }
        ensures unchanged { Unchanged (face self.old) (face self.new) }
        ensures call { Calls result (face self.old) (face self.new) }
        ensures same { loans self.new ≡ loans self.old };

    /// Writes these bytes from `at` on. Their range lies inside the length.
    fn write_at(&mut self, at: u64, bytes: &[u8]) -> Result<(), Failed>
        requires { Reads (face self.old) (λ f. at + length bytes.now ≤ length f) }
        ensures written { OnOk result (Becomes (overwritten at bytes.now) (face self.old) (face self.new)) }
        ensures torn { Turns (Torn at (length bytes.now)) (face self.old) (face self.new) }
        ensures call { Calls result (face self.old) (face self.new) }
        ensures same { loans self.new ≡ loans self.old };

    /// Cuts the file to this length, or lengthens it with zeros.
    fn set_len(&mut self, length: u64) -> Result<(), Failed>
        ensures resized { OnOk result (Becomes (resized length) (face self.old) (face self.new)) }
        ensures stretched { Turns (Stretched length) (face self.old) (face self.new) }
        ensures call { Calls result (face self.old) (face self.new) }
        ensures same { loans self.new ≡ loans self.old };

    /// Makes what it reads as safe: a crash leaves that.
    fn sync(&mut self) -> Result<(), Failed>
        ensures safe { OnOk result (IsSafe (face self.new)) }
        ensures shrinks { Shrinks (face self.old) (face self.new) }
        ensures loses_none { OnErr result (Unchanged (face self.old) (face self.new)) }
        ensures call { Calls result (face self.old) (face self.new) }
        ensures same { loans self.new ≡ loans self.old };

    /// What it reads as is one of its images.
    ghost current: { (disk : Self) → Reads (face disk) (IsImage (face disk)) };
}

/// A disk that is lent is that disk: each call goes to it.
impl<D: Disk> Disk for &mut D {
    ghost face = { λ d. D.face d.now };

    ghost loans = { λ d. d.ghost_name ∷ D.loans d.now };

    ghost current = { λ d. D.current d.now };

    fn len(&mut self) -> Result<u64, Failed> {
        (**self).len()
    }

    fn read_at(&mut self, at: u64, buf: &mut [u8]) -> Result<(), Failed> {
        (**self).read_at(at, buf)
    }

    fn write_at(&mut self, at: u64, bytes: &[u8]) -> Result<(), Failed> {
        (**self).write_at(at, bytes)
    }

    fn set_len(&mut self, length: u64) -> Result<(), Failed> {
        (**self).set_len(length)
    }

    fn sync(&mut self) -> Result<(), Failed> {
        (**self).sync()
    }
}
