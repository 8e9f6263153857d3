//! A source over memory.
ghost use Rattle.std.specs.Prelude.{◌≡◌, ◌≤◌, ◌<◌, ◌+◌, ◌↔◌, ℕ, List, Some, IfOk, IsErr, MatchResult, length, min};
ghost use Rattle.std.specs.Io.{ReadsAtMost};
ghost use Rattle.std.specs.Io.KnownBytes.{ReadConsumes};
ghost use Rattle.std.specs.List.{Contains};
ghost use Rattle.qh_limits.specs.Counts.{raised};
ghost use Rattle.qh_io.specs.Causes.{HasCause};

use crate::faults::{Failed, failure, is_to_fail};
use crate::reading::Source;
use std::alloc::{AllocError, Global};
use std::marker::Model;

/// Bytes in memory, of which each call gives at most so many, and of whose calls chosen ones fail.
#[derive(Drop)]
pub struct MemSource {
    bytes: Vec<u8>,
    at: usize,
    piece: usize,
    fails: Vec<u64>,
    calls: u64,
    faults: u64,
}

impl Model for MemSource {
    ghost use Rattle.std.specs.Prelude.{◌≤◌, drop, length};
    ghost use Rattle.qh_io.specs.Memory.{Feed};

    ghost Value = { Feed };

    ghost view = { λ s. record { left = drop s.at s.bytes.items; piece = s.piece; fails = s.fails.items; calls = s.calls; faults = s.faults } };

    ghost invariant = { λ s. (s.at ≤ length s.bytes.items) × (1 ≤ s.piece) };
}

impl MemSource {
    /// These bytes, at most `piece` of them a call. The calls whose numbers, from 1, stand in `fails` fail.
    pub fn new(
        alloc: Global,
        bytes: &[u8],
        piece: usize,
        fails: &[u64],
    ) -> Result<MemSource, AllocError>
        requires { 1 ≤ piece }
        ensures { IfOk result (λ s. s ≡ record { left = bytes.now; piece = piece; fails = fails.now; calls = 0; faults = 0 }) }
    {
        Ok(MemSource {
            bytes: Vec::from_slice(alloc, bytes)?,
            at: 0,
            piece,
            fails: Vec::from_slice(alloc, fails)?,
            calls: 0,
            faults: 0,
        })
    }
}

impl Source for MemSource {
    ghost left = { λ s. Some s.left };

    ghost faults = { λ s. s.faults };

    fn read(&mut self, buf: &mut [u8]) -> Result<usize, Failed>
        requires { 0 < length buf.old }
        ensures bound { ReadsAtMost result buf.new }
        ensures bytes { ReadConsumes (Some self.old.left) (Some self.new.left) result buf.new }
        ensures cause { HasCause self.old.faults self.new.faults result }

        // Just the chosen calls fail, and another gives as much as it may.
        ensures chosen { IsErr result ↔ Contains self.old.fails (raised self.old.calls) }
        ensures piece { IfOk result (λ n. n ≡ min (min self.old.piece (length buf.new)) (length self.old.left)) }

        ensures calls { self.new.calls ≡ raised self.old.calls }
        ensures count { MatchResult result (λ _. self.new.faults ≡ self.old.faults) (λ _. self.new.faults ≡ raised self.old.faults) }
        ensures same { (self.new.piece ≡ self.old.piece) × (self.new.fails ≡ self.old.fails) }
    {
        if is_to_fail(&mut self.calls, &self.fails) {
            return Err(failure(&mut self.faults));
        }
        let count = self.piece.min(buf.len()).min(self.bytes.len() - self.at);
        buf[..count].copy_from_slice(&self.bytes[self.at..self.at + count]);
        self.at += count;
        Ok(count)
    }
}
