//! A journal: the verdicts of a run, and the disk that keeps them.
ghost use Rattle.std.specs.Prelude.{◌≡◌, ◌≢◌, ◌⊎◌, ◌<◌, ◌≤◌, ℕ, List, [], Some, None, OnOk, OnErr, IfOk, IfErr, IsOk, option_map, true, false, length, set};
ghost use Rattle.std.specs.Option.{IsSomeAnd, ForSome};
ghost use Rattle.std.specs.Arc.{arc_value};
ghost use Rattle.qh_limits.specs.Counts.{Rose};
ghost use Rattle.qh_plan.specs.Jobs.{ranges, IsJob};
ghost use Rattle.qh_plan.specs.Ranges.{Fits};
ghost use Rattle.qh_plan.specs.Values.{range_value};
ghost use Rattle.qh_disk.specs.Disk.{IsSafe, Reads};
ghost use Rattle.qh_disk.specs.Moments.{Lasts};
ghost use Rattle.qh_slots.specs.Stands.{Slots, Stands, Made, slot_at, nones};
ghost use Rattle.qh_slots.specs.Moments.{GoesOn};
ghost use Rattle.qh_parts.specs.Sparing.{Spares};
ghost use Rattle.qh_parts.specs.Groups.{AreShut, AreValues, IsGroup, StandsPartly, filled};
ghost use Rattle.qh_journal.specs.Calls.{Attaches, AttachMayFail, CreateMayFail, IsCreated, IsJournal, Same, Went};

use crate::fault::CreateFault;
use crate::kept::{Kept, keep, make, unkept};
use crate::writing::{fill, spell, write, write_group};
use arrayvec::ArrayVec;
use qh_disk::Disk;
use qh_parts::{DiskFault, Member};
use qh_plan::{Job, Verdict};
use qh_slots::{AttachFault, slot_size};
use std::alloc::{AllocError, Global};
use std::marker::Model;
use std::sync::Arc;

/// The verdicts of a job's ranges, kept on a disk or in memory alone. Contracts see these as one record.
#[derive(Drop)]
pub struct Journal<D: Disk> {
    disk: Option<D>,
    job: Arc<Job>,
    table: Vec<Option<Verdict>>,
    failed: bool,
    body: Vec<u8>,
    start: u64,
}

impl<D: Disk> Model for Journal<D> {
    ghost use Rattle.qh_journal.specs.Calls.{JournalView};

    ghost Value = { JournalView D };

    ghost use Rattle.std.specs.Prelude.{vec_len};
    ghost use Rattle.std.specs.Arc.{arc_value};
    ghost use Rattle.qh_journal.specs.Calls.{IsJournal, IsRoom};

    ghost view = { λ k. record { disk = k.disk; job = arc_value k.job; table = k.table.items; failed = k.failed } };

    ghost invariant = { λ k. IsJournal D.face (record { disk = k.disk; job = arc_value k.job; table = k.table.items; failed = k.failed })
        × IsRoom (arc_value k.job) (vec_len k.body) k.start };
}

/// A disk that is handed back, and why.
#[derive(Drop)]
pub struct Unmade<D, F> {
    pub disk: D,
    pub fault: F,
}

impl<D: Disk> Journal<D> {
    /// The journal of a job on a disk that has one. It makes what is read safe, and writes nothing. Else the disk is handed back with the
    /// first refusal that applies to what it reads as.
    #[tactic(auto, using(crate::proofs::AttachLemmas::stable_from))]
    pub fn attach(
        alloc: Global,
        mut disk: D,
        job: &Arc<Job>,
    ) -> Result<Journal<D>, Unmade<D, AttachFault>>
        ensures job { IfOk result (λ k. (k.job ≡ arc_value job.now) × (k.failed ≡ false)) }
        ensures disk { IfOk result (λ k. IsSomeAnd k.disk (λ e. Attaches D.face D.loans disk e × IsSafe (D.face e) × Reads (D.face e) (Stands k.job k.table))) }
        ensures valid { IsJob (arc_value job.now) }
        ensures back { IfErr result (λ u. Attaches D.face D.loans disk u.disk) }
        ensures fault { IfErr result (λ u. AttachMayFail (arc_value job.now) u.fault (D.face disk) (D.face u.disk)) }
    {
        match keep(alloc, &mut disk, job) {
            Ok(kept) => Ok(Journal {
                disk: Some(disk),
                job: kept.job,
                table: kept.table,
                failed: false,
                body: kept.body,
                start: kept.start,
            }),
            Err(fault) => Err(Unmade { disk, fault }),
        }
    }

    /// The journal of a job on an empty file, with no open slot. Its memory is taken before the first call of the disk. A failure hands the disk
    /// back.
    pub fn create(
        alloc: Global,
        mut disk: D,
        job: &Arc<Job>,
    ) -> Result<Journal<D>, Unmade<D, CreateFault>>
        requires { Reads (D.face disk) (λ f. f ≡ []) }
        ensures job { IfOk result (λ k. (k.job ≡ arc_value job.now) × (k.failed ≡ false) × (k.table ≡ nones (arc_value job.now))) }
        ensures disk { IfOk result (λ k. IsSomeAnd k.disk (λ e. IsCreated D.face D.loans (arc_value job.now) disk e × IsSafe (D.face e) × Reads (D.face e) (Stands k.job k.table))) }
        ensures back { IfErr result (λ u. IsCreated D.face D.loans (arc_value job.now) disk u.disk) }
        ensures fault { IfErr result (λ u. CreateMayFail D.face u.fault disk u.disk) }
    {
        match make(alloc, &mut disk, job) {
            Ok(kept) => Ok(Journal {
                disk: Some(disk),
                job: kept.job,
                table: kept.table,
                failed: false,
                body: kept.body,
                start: kept.start,
            }),
            Err(fault) => Err(Unmade { disk, fault }),
        }
    }

    /// A journal without a disk, with no open slot. Its stores never fail.
    pub fn unkept(alloc: Global, job: &Arc<Job>) -> Result<Journal<D>, AllocError>
        ensures { IfOk result (λ k. k ≡ record { disk = None; job = arc_value job.now; table = nones (arc_value job.now); failed = false }) }
    {
        let kept = unkept(alloc, job)?;
        Ok(Journal {
            disk: None,
            job: kept.job,
            table: kept.table,
            failed: false,
            body: kept.body,
            start: kept.start,
        })
    }

    /// Stores a verdict in a closed slot. It takes no memory. After a failure the table is as it was, and the journal takes no more stores: what
    /// is read stands with the table, or with the table and this verdict.
    pub fn store(&mut self, range: u32, verdict: Verdict) -> Result<(), DiskFault>
        requires ready { self.old.failed ≡ false }
        requires range { range < ranges self.old.job }
        requires shut { slot_at self.old.table range ≡ None }
        requires fits { Fits self.old.job range verdict }
        ensures ok { OnOk result (self.new ≡ record { disk = self.new.disk; job = self.old.job; table = set self.old.table range (Some verdict); failed = false }) }
        ensures err { OnErr result (self.new ≡ record { disk = self.new.disk; job = self.old.job; table = self.old.table; failed = true }) }
        ensures disk { Went (λ d e. Same D.face D.loans d e × Spares self.old.job (D.face d) (D.face e)) self.old.disk self.new.disk }
        ensures made { verdict ≡ range_value self.old.job range → Went (λ d e. Lasts (Made self.old.job) (D.face d) (D.face e)) self.old.disk self.new.disk }
        ensures goes_on { verdict ≡ range_value self.old.job range
            → Went (λ d e. (s : Slots) → Lasts (GoesOn self.old.job s) (D.face d) (D.face e)) self.old.disk self.new.disk }
        ensures reads { Went (λ d e. Reads (D.face e) (λ f. Stands self.old.job self.old.table f ⊎ Stands self.old.job (set self.old.table range (Some verdict)) f)) self.old.disk self.new.disk }
        ensures rose { OnErr result (Went (λ d e. Rose (D.face d).faults (D.face e).faults) self.old.disk self.new.disk) }
        ensures count { IfErr result (λ u. ForSome self.new.disk (λ e. u.faults ≡ (D.face e).faults)) }
        ensures unkept { self.old.disk ≡ None → IsOk result }
    {
        spell(&self.job, range, &verdict, self.body.as_mut_slice());
        let at = self.start + u64::from(range) * slot_size(&self.job);
        let answer = write(
            &mut self.disk,
            &self.job,
            range,
            &verdict,
            at,
            self.body.as_slice(),
        );
        if let Err(failed) = answer {
            self.failed = true;
            return Err(DiskFault {
                faults: failed.faults,
            });
        }
        self.table[range as usize] = Some(verdict);
        Ok(())
    }

    /// Stores a group of verdicts in closed slots of different ranges: all bodies under one sync, and then all gates under one. It takes no
    /// memory. An empty group makes no call of the disk. After a failure the table is as it was, and the journal takes no more stores: what is
    /// read stands with the table and some of the first members.
    pub fn store_group(&mut self, group: ArrayVec<Member, 8>) -> Result<(), DiskFault>
        requires ready { self.old.failed ≡ false }
        requires group { IsGroup self.old.job group.items }
        requires shut { AreShut self.old.table group.items }
        ensures ok { OnOk result (self.new ≡ record { disk = self.new.disk; job = self.old.job; table = filled self.old.table group.items; failed = false }) }
        ensures err { OnErr result (self.new ≡ record { disk = self.new.disk; job = self.old.job; table = self.old.table; failed = true }) }
        ensures disk { Went (λ d e. Same D.face D.loans d e × Spares self.old.job (D.face d) (D.face e)) self.old.disk self.new.disk }
        ensures made { AreValues self.old.job group.items → Went (λ d e. Lasts (Made self.old.job) (D.face d) (D.face e)) self.old.disk self.new.disk }
        ensures goes_on { AreValues self.old.job group.items
            → Went (λ d e. (s : Slots) → Lasts (GoesOn self.old.job s) (D.face d) (D.face e)) self.old.disk self.new.disk }
        ensures reads { Went (λ d e. Reads (D.face e) (StandsPartly self.old.job self.old.table group.items)) self.old.disk self.new.disk }
        ensures rose { OnErr result (Went (λ d e. Rose (D.face d).faults (D.face e).faults) self.old.disk self.new.disk) }
        ensures count { IfErr result (λ u. ForSome self.new.disk (λ e. u.faults ≡ (D.face e).faults)) }
        ensures unkept { self.old.disk ≡ None → IsOk result }
        ensures nothing { group.items ≡ [] → (self.new ≡ self.old) × IsOk result }
    {
        if group.is_empty() {
            prove!(!self.failed);
            return Ok(());
        }
        let answer = write_group(
            &mut self.disk,
            &self.job,
            self.start,
            group.as_slice(),
            self.body.as_mut_slice(),
        );
        if let Err(failed) = answer {
            self.failed = true;
            return Err(DiskFault {
                faults: failed.faults,
            });
        }
        fill(&mut self.table, group);
        Ok(())
    }

    /// The verdict of a range, if its slot is open.
    pub fn slot(&self, range: u32) -> Option<&Verdict>
        requires { range < ranges self.now.job }
        ensures { option_map (λ v. v.now) result ≡ slot_at self.now.table range }
    {
        self.table[range as usize].as_ref()
    }

    /// Whether a store failed.
    pub fn failed(&self) -> bool
        ensures value { result ≡ self.now.failed }
        ensures valid { IsJournal D.face self.now }
    {
        self.failed
    }

    /// The disk of a journal that is kept on one.
    pub fn into_disk(self) -> Option<D>
        ensures { result ≡ self.disk }
    {
        self.disk
    }
}
