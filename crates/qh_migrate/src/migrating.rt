//! A journal of the first format, taken over into a new file.
ghost use Rattle.std.specs.Prelude.{◌≡◌, ℕ, List, [], Some, IfOk, IfErr};
ghost use Rattle.std.specs.Arc.{arc_value};
ghost use Rattle.qh_disk.specs.Moments.{EachImage, EachImageSince};
ghost use Rattle.qh_slots.specs.Stands.{Made, Made1};
ghost use Rattle.qh_parts.specs.Reading.{OnlyReads};
ghost use Rattle.qh_migrate.specs.Moving.{Leaves, MigrateMayFail, Moved};

use crate::fault::{MigrateFault, migrate_fault};
use crate::moving::{fill, look_through};
use qh_disk::Disk;
use qh_plan::Job;
use qh_slots::{body_size, head, old_head};
use std::alloc::Global;
use std::sync::Arc;

/// Takes over the journal of the first format that `old` holds into `new`, whose only image is the empty file, and counts its open slots. It
/// reads all of the old file, and takes all its memory, before the first call of the new disk, and makes no other calls of the old disk than
/// for its length and its bytes.
pub fn migrate<F: Disk, D: Disk>(
    alloc: Global,
    old: &mut F,
    new: &mut D,
    job: &Arc<Job>,
) -> Result<u32, MigrateFault>
    requires { EachImage (D.face new.old) (λ f. f ≡ []) }
    ensures moved { IfOk result (λ n. Moved (arc_value job.now) n (F.face old.old) (D.face new.new)) }
    ensures fault { IfErr result (λ u. MigrateMayFail F.face D.face (arc_value job.now) u old.old old.new new.old new.new) }
    ensures leaves { Leaves (arc_value job.now) (F.face old.old) (D.face new.old) (D.face new.new) }
    ensures made { (f : List ℕ) → (F.face old.old).content ≡ Some f → Made1 (arc_value job.now) f → EachImageSince (D.face new.old).clock (D.face new.new) (Made (arc_value job.now)) }
    ensures reading { OnlyReads (F.face old.old) (F.face old.new) }
    ensures old_same { F.loans old.new ≡ F.loans old.old }
    ensures same { D.loans new.new ≡ D.loans new.old }
{
    let Ok(old_wanted) = old_head(alloc, job) else {
        return Err(MigrateFault::Memory);
    };
    let Ok(wanted) = head(alloc, job) else {
        return Err(MigrateFault::Memory);
    };
    let Ok(mut bytes) = vec![in alloc; 0; 1 + body_size(job)] else {
        return Err(MigrateFault::Memory);
    };
    let table = match look_through(alloc, old, job, old_wanted.as_slice()) {
        Ok(table) => table,
        Err(fault) => return Err(migrate_fault(fault)),
    };
    match fill(
        new,
        job,
        wanted.as_slice(),
        table.as_slice(),
        bytes.as_mut_slice(),
    ) {
        Ok(moved) => Ok(moved),
        Err(_) => Err(MigrateFault::NewDisk),
    }
}
