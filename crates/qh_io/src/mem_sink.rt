//! A sink over memory.
ghost use Rattle.std.specs.Prelude.{◌≡◌, ◌≤◌, ◌<◌, ◌+◌, ◌-◌, ◌↔◌, ◌⊎◌, ℕ, List, [], Some, IfOk, IsErr, MatchResult, length, min};
ghost use Rattle.std.specs.Io.{WritesAtMost};
ghost use Rattle.std.specs.Io.KnownBytes.{WriteAppends};
ghost use Rattle.std.specs.List.{Contains};
ghost use Rattle.qh_limits.specs.Counts.{raised};
ghost use Rattle.qh_io.specs.Causes.{HasCause};

use crate::faults::{Failed, failure, is_to_fail};
use crate::writing::Sink;
use std::alloc::{AllocError, Global};
use std::marker::Model;

/// Room in memory, of which each call takes at most so many bytes, and of whose calls chosen ones fail.
#[derive(Drop)]
pub struct MemSink {
    bytes: Vec<u8>,
    room: usize,
    piece: usize,
    fails: Vec<u64>,
    calls: u64,
    faults: u64,
}

impl Model for MemSink {
    ghost use Rattle.std.specs.Prelude.{◌≤◌, length, vec_capacity};
    ghost use Rattle.qh_io.specs.Memory.{Tray};

    ghost Value = { Tray };

    ghost view = { λ s. record { held = s.bytes.items; room = s.room; piece = s.piece; fails = s.fails.items; calls = s.calls; faults = s.faults } };

    ghost invariant = { λ s. (length s.bytes.items ≤ s.room) × (s.room ≤ vec_capacity s.bytes) × (1 ≤ s.piece) };
}

impl MemSink {
    /// Room for so many bytes, at most `piece` of them a call. The calls whose numbers, from 1, stand in `fails` fail,
    /// and each call where the room is full. The room is taken here, and no call takes memory.
    pub fn new(
        alloc: Global,
        room: usize,
        piece: usize,
        fails: &[u64],
    ) -> Result<MemSink, AllocError>
        requires { 1 ≤ piece }
        ensures { IfOk result (λ s. s ≡ record { held = []; room = room; piece = piece; fails = fails.now; calls = 0; faults = 0 }) }
    {
        Ok(MemSink {
            bytes: Vec::with_capacity(alloc, room)?,
            room,
            piece,
            fails: Vec::from_slice(alloc, fails)?,
            calls: 0,
            faults: 0,
        })
    }

    /// What it holds. Takes no memory.
    pub fn bytes(&self) -> &[u8]
        ensures { result.now ≡ self.now.held }
    {
        &self.bytes
    }
}

impl Sink for MemSink {
    ghost held = { λ s. Some s.held };

    ghost faults = { λ s. s.faults };

    fn write(&mut self, piece: &[u8]) -> Result<usize, Failed>
        requires { 0 < length piece.now }
        ensures bound { WritesAtMost result piece.now }
        ensures some { IfOk result (λ n. 0 < n) }
        ensures bytes { WriteAppends (Some self.old.held) (Some self.new.held) result piece.now }
        ensures cause { HasCause self.old.faults self.new.faults result }

        // Just the chosen calls fail, and those with no room. Another takes as much as it may.
        ensures chosen { IsErr result ↔ (Contains self.old.fails (raised self.old.calls) ⊎ (self.old.room ≤ length self.old.held)) }
        ensures taken { IfOk result (λ n. n ≡ min (min self.old.piece (length piece.now)) (self.old.room - length self.old.held)) }

        ensures calls { self.new.calls ≡ raised self.old.calls }
        ensures count { MatchResult result (λ _. self.new.faults ≡ self.old.faults) (λ _. self.new.faults ≡ raised self.old.faults) }
        ensures same { (self.new.room ≡ self.old.room) × (self.new.piece ≡ self.old.piece) × (self.new.fails ≡ self.old.fails) }
    {
        if is_to_fail(&mut self.calls, &self.fails) {
            return Err(failure(&mut self.faults));
        }
        let count = self
            .piece
            .min(piece.len())
            .min(self.room - self.bytes.len());
        if count == 0 {
            return Err(failure(&mut self.faults));
        }
        let Ok(()) = self.bytes.extend_from_slice(&piece[..count]) else {
            unreachable!()
        };
        Ok(count)
    }
}
