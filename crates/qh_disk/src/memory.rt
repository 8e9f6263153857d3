//! A disk in memory.
ghost use Rattle.std.specs.Prelude.{◌≡◌, ◌<◌, ◌≤◌, ◌+◌, ◌⊎◌, ◌↔◌, [], ◌∷◌, length, take, drop, vec_len, map, reverse, Some, IfOk, OnOk, OnErr, IsErr};
ghost use Rattle.std.specs.List.{All};
ghost use Rattle.std.specs.Vec.{vec_capacity};
ghost use Rattle.qh_limits.specs.Counts.{raised};
ghost use Rattle.qh_disk.specs.Disk.{Becomes, overwritten, resized, IsImage, Reads, Torn, Stretched, Calls, Unchanged, Shrinks, Turns, IsSafe};
ghost use Rattle.qh_disk.specs.Moments.{Runs};
ghost use Rattle.qh_disk.specs.Plan.{IsPlanned, listed};
ghost use Rattle.qh_disk.specs.History.{HasRoom, left, picked, IsPicked, wrote, sized, synced, state_of, content_of, face_of, current_told, after_call, IsRefused, FailsOnly};
ghost use Rattle.qh_disk.specs.Event.{event_of};

use crate::bytes::{copy, place, resize, with_room};
use crate::change::{Change, make_place, note, remake};
use crate::plan::Plan;
use crate::{Disk, Failed, Pick};
use qh_limits::raise;
use std::alloc::{AllocError, Global};
use std::marker::Model;

/// A disk in memory, which keeps each change that was made to it, and with them its images at each
/// moment.
///
/// Calls of `Disk` are numbered from 1, and those fail that a plan names. So does a length above
/// the room, and a change whose record finds no memory. No other call fails. One that fails raises
/// the count of faults and leaves content and images as they are. Only one whose record found no
/// memory raises the count of shortages too.
#[derive(Drop)]
pub struct MemDisk {
    alloc: Global,
    first: Vec<u8>,
    changes: Vec<Change>,
    bytes: Vec<u8>,
    safe: Vec<u8>,
    settled: usize,
    room: u64,
    plan: Plan,
    shortages: u64,
    faults: u64,
}

impl Model for MemDisk {
    ghost use Rattle.qh_disk.specs.History.{History};

    ghost Value = { History };

    ghost use Rattle.qh_disk.specs.Inside.{history_of, Keeps};

    ghost view = { history_of };

    ghost invariant = { Keeps };
}

impl MemDisk {
    /// A disk that holds these bytes, all of them safe, and whose length is at most `room`.
    ///
    /// The calls with a number in `fails` fail, and with `Some(n)` each call after the n-th. It
    /// takes the room twice.
    pub fn new(
        alloc: Global,
        bytes: &[u8],
        room: u64,
        fails: &[u64],
        stop: Option<u64>,
    ) -> Result<MemDisk, AllocError>
        requires { length bytes.now ≤ room }
        ensures { IfOk result (λ d. d ≡ record {
          first = bytes.now;
          events = [];
          room = room;
          plan = record { calls = 0; fails = fails.now; stop = stop };
          shortages = 0;
          faults = 0;
        }) }
    {
        Ok(MemDisk {
            alloc,
            first: bytes.to_vec(alloc)?,
            changes: Vec::new(alloc),
            bytes: with_room(alloc, room as usize, bytes)?,
            safe: with_room(alloc, room as usize, bytes)?,
            settled: 0,
            room,
            plan: Plan::new(alloc, fails, stop)?,
            shortages: 0,
            faults: 0,
        })
    }

    /// Numbers the calls from 1 anew, and plans anew which of them fail: the one with the number in
    /// `fail`, and with `Some(n)` in `stop` each after the n-th. It changes nothing else and takes no
    /// memory.
    pub fn again(&mut self, fail: Option<u64>, stop: Option<u64>)
        ensures { self.new ≡ record self.old { plan = record { calls = 0; fails = listed fail; stop = stop } } }
    {
        self.plan.renew(fail, stop);
    }

    /// The machine stops. The disk is left as one of its images, the one that `pick` names.
    pub fn crash(&mut self, pick: Pick)
        ensures image { IsImage (face_of self.old) (content_of self.new) }
        ensures picked { content_of self.new ≡ picked pick (state_of self.old) }
        ensures named { IsPicked pick (state_of self.old) (content_of self.new) }
        ensures safe { IsSafe (face_of self.new) }

        ensures runs { Runs (face_of self.old) (face_of self.new) }
        ensures moment { (face_of self.new).clock ≤ (face_of self.old).clock + 1 }
        ensures faults { self.new.faults ≡ self.old.faults }
        ensures plan { self.new.plan ≡ self.old.plan }
        ensures room { self.new.room ≡ self.old.room }
        ensures shortages { self.new.shortages ≡ self.old.shortages }
    {
        if self.settled == self.changes.len() {
            return;
        }
        let since = &self.changes[self.settled..];
        settle(&mut self.safe, since, pick, self.room);
        copy(&mut self.bytes, &self.safe);
        note(&mut self.changes, Change::Crashed(pick));
        self.settled = self.changes.len();
    }

    /// What it reads as.
    pub fn bytes(&self) -> &[u8]
        ensures { result.now ≡ content_of self.now }
    {
        &self.bytes
    }
}

impl Disk for MemDisk {
    ghost face = { face_of };

    ghost loans = { λ _. [] };

    ghost current = { current_told };

    fn len(&mut self) -> Result<u64, Failed>
        ensures length { IfOk result (λ n. Reads (face_of self.old) (λ f. n ≡ length f)) }
        ensures unchanged { Unchanged (face_of self.old) (face_of self.new) }
        ensures call { Calls result (face_of self.old) (face_of self.new) }

        ensures done { OnOk result (self.new ≡ after_call [] self.old) }
        ensures refused { OnErr result (IsRefused self.old self.new) }
        ensures fails { IsErr result ↔ IsPlanned self.old.plan }
        ensures shortages { self.new.shortages ≡ self.old.shortages }
    {
        if self.plan.refuses() {
            return Err(failed(&mut self.faults));
        }
        Ok(self.bytes.len() as u64)
    }

    fn read_at(&mut self, at: u64, buf: &mut [u8]) -> Result<(), Failed>
        requires { Reads (face_of self.old) (λ f. at + length buf.old ≤ length f) }
        ensures bytes { OnOk result (Reads (face_of self.old) (λ f. buf.new ≡ take (length buf.old) (drop at f))) }
        ensures unchanged { Unchanged (face_of self.old) (face_of self.new) }
        ensures call { Calls result (face_of self.old) (face_of self.new) }

        ensures done { OnOk result (self.new ≡ after_call [] self.old) }
        ensures refused { OnErr result (IsRefused self.old self.new) }
        ensures fails { IsErr result ↔ IsPlanned self.old.plan }
        ensures shortages { self.new.shortages ≡ self.old.shortages }
    {
        if self.plan.refuses() {
            return Err(failed(&mut self.faults));
        }
        let from = at as usize;
        buf.copy_from_slice(&self.bytes[from..from + buf.len()]);
        Ok(())
    }

    fn write_at(&mut self, at: u64, bytes: &[u8]) -> Result<(), Failed>
        requires { Reads (face_of self.old) (λ f. at + length bytes.now ≤ length f) }
        ensures written { OnOk result (Becomes (overwritten at bytes.now) (face_of self.old) (face_of self.new)) }
        ensures torn { Turns (Torn at (length bytes.now)) (face_of self.old) (face_of self.new) }
        ensures call { Calls result (face_of self.old) (face_of self.new) }

        ensures done { OnOk result (self.new ≡ after_call (wrote at bytes.now ∷ []) self.old) }
        ensures refused { OnErr result (IsRefused self.old self.new) }
        ensures unchanged { OnErr result (Unchanged (face_of self.old) (face_of self.new)) }
        ensures fails { FailsOnly (IsPlanned self.old.plan) result self.old self.new }
    {
        if self.plan.refuses() {
            return Err(failed(&mut self.faults));
        }
        let Ok(change) = written(self.alloc, &mut self.changes, at, bytes) else {
            return Err(fell_short(&mut self.shortages, &mut self.faults));
        };
        place(&mut self.bytes, at as usize, bytes);
        note(&mut self.changes, change);
        Ok(())
    }

    fn set_len(&mut self, length: u64) -> Result<(), Failed>
        ensures resized { OnOk result (Becomes (resized length) (face_of self.old) (face_of self.new)) }
        ensures stretched { Turns (Stretched length) (face_of self.old) (face_of self.new) }
        ensures call { Calls result (face_of self.old) (face_of self.new) }

        ensures done { OnOk result (self.new ≡ after_call (sized length ∷ []) self.old) }
        ensures refused { OnErr result (IsRefused self.old self.new) }
        ensures unchanged { OnErr result (Unchanged (face_of self.old) (face_of self.new)) }
        ensures fails { FailsOnly (IsPlanned self.old.plan ⊎ (self.old.room < length)) result self.old self.new }
    {
        if self.plan.refuses() {
            return Err(failed(&mut self.faults));
        }
        if length > self.room {
            return Err(failed(&mut self.faults));
        }
        let Ok(()) = make_place(&mut self.changes) else {
            return Err(fell_short(&mut self.shortages, &mut self.faults));
        };
        resize(&mut self.bytes, length as usize);
        note(&mut self.changes, Change::Sized { length });
        Ok(())
    }

    fn sync(&mut self) -> Result<(), Failed>
        ensures safe { OnOk result (IsSafe (face_of self.new)) }
        ensures shrinks { Shrinks (face_of self.old) (face_of self.new) }
        ensures call { Calls result (face_of self.old) (face_of self.new) }

        ensures done { OnOk result (self.new ≡ after_call (synced ∷ []) self.old) }
        ensures refused { OnErr result (IsRefused self.old self.new) }
        ensures loses_none { OnErr result (Unchanged (face_of self.old) (face_of self.new)) }
        ensures fails { FailsOnly (IsPlanned self.old.plan) result self.old self.new }
    {
        if self.plan.refuses() {
            return Err(failed(&mut self.faults));
        }
        let Ok(()) = make_place(&mut self.changes) else {
            return Err(fell_short(&mut self.shortages, &mut self.faults));
        };
        remake(
            &mut self.safe,
            &self.changes[self.settled..],
            None,
            self.room,
        );
        note(&mut self.changes, Change::Synced);
        self.settled = self.changes.len();
        Ok(())
    }
}

fn failed(faults: &mut u64) -> Failed
    ensures raised { faults.new ≡ raised faults.old }
    ensures count { result.faults ≡ faults.new }
{
    raise(faults);
    Failed { faults: *faults }
}

// The record of a change found no memory.
fn fell_short(shortages: &mut u64, faults: &mut u64) -> Failed
    ensures short { shortages.new ≡ raised shortages.old }
    ensures raised { faults.new ≡ raised faults.old }
    ensures count { result.faults ≡ faults.new }
{
    raise(shortages);
    failed(faults)
}

// The record of a write, with place for it and for one crash after it.
fn written(
    alloc: Global,
    changes: &mut Vec<Change>,
    at: u64,
    bytes: &[u8],
) -> Result<Change, AllocError>
    ensures change { IfOk result (λ change. event_of change ≡ wrote at bytes.now) }
    ensures items { changes.new.items ≡ changes.old.items }
    ensures len { vec_len changes.new ≡ vec_len changes.old }
    ensures room { OnOk result (vec_len changes.new + 2 ≤ vec_capacity changes.new) }
    ensures grows { vec_capacity changes.old ≤ vec_capacity changes.new }
{
    make_place(changes)?;
    Change::write(alloc, at, bytes)
}

// Brings what is safe to the image that a crash leaves.
fn settle(safe: &mut Vec<u8>, since: &[Change], pick: Pick, room: u64)
    requires sizes { All (HasRoom room) (map event_of since.now) }
    requires fits { vec_len safe.old ≤ room }
    requires room { room ≤ vec_capacity safe.old }
    ensures bytes { safe.new.items ≡ left pick safe.old.items (reverse (map event_of since.now)) }
    ensures fits { vec_len safe.new ≤ room }
    ensures room { room ≤ vec_capacity safe.new }
{
    match pick {
        Pick::Old => {}
        Pick::New => remake(safe, since, None, room),
        Pick::Byte(value) => remake(safe, since, Some(value), room),
    }
}
