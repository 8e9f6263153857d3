//! The record of one change to a disk in memory.
ghost use Rattle.std.specs.Prelude.{◌≡◌, ◌<◌, ◌≤◌, ◌+◌, ◌++◌, [], ◌∷◌, length, vec_len, map, reverse, IfOk, OnOk};
ghost use Rattle.std.specs.List.{All};
ghost use Rattle.std.specs.Vec.{vec_capacity};
ghost use Rattle.qh_disk.specs.History.{HasRoom, remade, wrote};
ghost use Rattle.qh_disk.specs.Event.{event_of};

use crate::Pick;
use crate::bytes::{fill, place, resize};
use std::alloc::{AllocError, Global};

#[derive(Drop)]
pub(crate) enum Change {
    Wrote { at: u64, bytes: Vec<u8> },
    Sized { length: u64 },
    Synced,
    Crashed(Pick),
}

impl Change {
    pub(crate) fn write(alloc: Global, at: u64, bytes: &[u8]) -> Result<Change, AllocError>
        ensures { IfOk result (λ change. event_of change ≡ wrote at bytes.now) }
    {
        let bytes = bytes.to_vec(alloc)?;
        Ok(Change::Wrote { at, bytes })
    }

    // Makes the change again. Where a byte is given, a write writes that.
    pub(crate) fn redo(&self, bytes: &mut Vec<u8>, blank: Option<u8>, room: u64)
        requires size { HasRoom room (event_of self.now) }
        requires fits { vec_len bytes.old ≤ room }
        requires room { room ≤ vec_capacity bytes.old }
        ensures bytes { bytes.new.items ≡ remade blank bytes.old.items (event_of self.now ∷ []) }
        ensures fits { vec_len bytes.new ≤ room }
        ensures room { room ≤ vec_capacity bytes.new }
    {
        match self {
            Change::Wrote { at, bytes: piece } => match blank {
                Some(value) => fill(bytes, *at as usize, piece.len(), value),
                None => place(bytes, *at as usize, piece),
            },
            Change::Sized { length } => resize(bytes, *length as usize),
            Change::Synced | Change::Crashed(_) => {}
        }
    }
}

// Makes these changes again, in order.
pub(crate) fn remake(bytes: &mut Vec<u8>, changes: &[Change], blank: Option<u8>, room: u64)
    requires sizes { All (HasRoom room) (map event_of changes.now) }
    requires fits { vec_len bytes.old ≤ room }
    requires room { room ≤ vec_capacity bytes.old }
    ensures bytes { bytes.new.items ≡ remade blank bytes.old.items (reverse (map event_of changes.now)) }
    ensures fits { vec_len bytes.new ≤ room }
    ensures room { room ≤ vec_capacity bytes.new }
{
    for change in changes {
        change.redo(bytes, blank, room);
    }
}

// Makes place for a change and for one crash after it.
pub(crate) fn make_place(changes: &mut Vec<Change>) -> Result<(), AllocError>
    ensures items { changes.new.items ≡ changes.old.items }
    ensures len { vec_len changes.new ≡ vec_len changes.old }
    ensures room { OnOk result (vec_len changes.new + 2 ≤ vec_capacity changes.new) }
    ensures grows { vec_capacity changes.old ≤ vec_capacity changes.new }
{
    changes.reserve(2)
}

// Notes a change that has its place.
pub(crate) fn note(changes: &mut Vec<Change>, change: Change)
    requires { vec_len changes.old < vec_capacity changes.old }
    ensures items { changes.new.items ≡ changes.old.items ++ change ∷ [] }
    ensures len { vec_len changes.new ≡ vec_len changes.old + 1 }
    ensures room { vec_capacity changes.old ≤ vec_capacity changes.new }
{
    let _ = changes.push(change);
}
