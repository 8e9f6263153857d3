//! A struct that holds a lent disk loses nothing of it: what its calls did is known of the disk
//! after the struct is gone.
ghost use Rattle.std.specs.Prelude.{◌≡◌, ◌≢◌, ◌≤◌, ◌+◌, ◌↔◌, [], ◌∷◌, ℕ, length, OnOk};
ghost use Rattle.std.proofs.Common.{get_or};
ghost use Rattle.qh_disk.specs.Disk.{Reads, Becomes, overwritten, Torn, Calls, Turns, IsSafe, IsHonest};
ghost use Rattle.qh_disk.specs.Moments.{Runs, Lasts};
ghost use Rattle.qh_disk.specs.History.{face_of};

use qh_disk::{Disk, Failed, MemDisk, Pick};
use std::test::Fail;

// Writes single bytes to its disk.
#[derive(Drop)]
struct Pen<D: Disk> {
    disk: D,
}

impl<D: Disk> Pen<D> {
    fn put(&mut self, at: u64, byte: u8) -> Result<(), Failed>
        requires { Reads (D.face self.old.disk) (λ f. at + 1 ≤ length f) }
        ensures written { OnOk result (Becomes (overwritten at (byte ∷ [])) (D.face self.old.disk) (D.face self.new.disk)) }
        ensures torn { Turns (Torn at 1) (D.face self.old.disk) (D.face self.new.disk) }
        ensures call { Calls result (D.face self.old.disk) (D.face self.new.disk) }
        ensures same { D.loans self.new.disk ≡ D.loans self.old.disk }
    {
        self.disk.write_at(at, &[byte])
    }
}

// Writes one byte through a pen over the disk that is lent.
fn put<D: Disk>(disk: &mut D, at: u64, byte: u8) -> Result<(), Failed>
    requires { Reads (D.face disk.old) (λ f. at + 1 ≤ length f) }
    ensures written { OnOk result (Becomes (overwritten at (byte ∷ [])) (D.face disk.old) (D.face disk.new)) }
    ensures torn { Turns (Torn at 1) (D.face disk.old) (D.face disk.new) }
    ensures call { Calls result (D.face disk.old) (D.face disk.new) }
    ensures same { D.loans disk.new ≡ D.loans disk.old }
{
    let mut pen = Pen { disk };
    pen.put(at, byte)
}

// Writes one byte and makes it safe. Each other byte that was stable stays so at every moment.
fn save<D: Disk>(disk: &mut D, at: u64, byte: u8) -> Result<(), Failed>
    requires { Reads (D.face disk.old) (λ f. at + 1 ≤ length f) }
    ensures written { OnOk result (Becomes (overwritten at (byte ∷ [])) (D.face disk.old) (D.face disk.new)) }
    ensures safe { OnOk result (IsSafe (D.face disk.new)) }
    ensures others { (i b : ℕ) → i ≢ at → Lasts (λ c. get_or c i 0 ≡ b) (D.face disk.old) (D.face disk.new) }
    ensures runs { Runs (D.face disk.old) (D.face disk.new) }
    ensures honest { IsHonest (D.face disk.old) ↔ IsHonest (D.face disk.new) }
    ensures same { D.loans disk.new ≡ D.loans disk.old }
{
    put(disk, at, byte)?;
    disk.sync()
}

// Stops the machine. Each byte that was stable stays so.
fn stop(disk: &mut MemDisk, pick: Pick)
    ensures { (i b : ℕ) → Lasts (λ c. get_or c i 0 ≡ b) (face_of disk.old) (face_of disk.new) }
{
    disk.crash(pick);
}

#[test]
fn a_byte_is_saved_through_a_lent_disk(rt: HostRuntime) -> Result<(), Fail> {
    let mut disk = MemDisk::new(rt.alloc(), b"abcd", 4, &[3], None)?;
    assert_eq!(rt; disk.bytes().len(), 4);
    let saved = save(&mut disk, 2, b'Z');
    assert_eq!(rt; saved, Ok(()));
    stop(&mut disk, Pick::Old);
    assert_eq!(rt; disk.bytes(), b"abZd".as_slice());
    let refused = save(&mut disk, 0, b'Y');
    assert_eq!(rt; refused, Err(Failed { faults: 1 }));
    assert_eq!(rt; disk.bytes(), b"abZd".as_slice());
    Ok(())
}
