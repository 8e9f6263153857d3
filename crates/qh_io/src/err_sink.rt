//! A sink over standard error.
ghost use Rattle.std.specs.Prelude.{◌≡◌, ◌≤◌, ◌<◌, ℕ, List, None, IfOk, MatchResult, length, take};
ghost use Rattle.std.specs.Str.Lossy.{utf8_valid_len};
ghost use Rattle.std.specs.Io.{WritesAtMost};
ghost use Rattle.std.specs.Io.KnownBytes.{WriteAppends};
ghost use Rattle.qh_limits.specs.Counts.{raised};
ghost use Rattle.qh_io.specs.Causes.{HasCause};

use crate::faults::{Failed, failure};
use crate::writing::Sink;
use std::io;
use std::marker::Model;

/// Standard error. It tells nothing of what it holds.
///
/// It takes text alone: a call takes the longest front of the piece that is UTF-8, and fails where this is empty.
///
/// Clauses see it as its count of faults.
#[derive(Drop)]
pub struct ErrSink<'r, R: Eprint> {
    rt: &'r R,
    faults: u64,
}

impl<'r, R: Eprint> Model for ErrSink<'r, R> {
    ghost Value = { ℕ };

    ghost view = { λ s. s.faults };
}

impl<'r, R: Eprint> ErrSink<'r, R> {
    /// Standard error.
    pub fn new(rt: &'r R) -> ErrSink<'r, R>
        ensures { result ≡ 0 }
    {
        ErrSink { rt, faults: 0 }
    }

    // Prints as much of the front as is text.
    fn write_some(&self, piece: &[u8]) -> io::Result<usize>
        ensures bound { WritesAtMost result piece.now }
        ensures text { IfOk result (λ n. n ≡ utf8_valid_len piece.now) }
    {
        let text = text_front(piece);
        self.rt.eprint(text)?;
        Ok(text.len())
    }
}

// The longest front of the bytes that is text.
fn text_front(bytes: &[u8]) -> &str
    ensures { result.now ≡ take (utf8_valid_len bytes.now) bytes.now }
{
    match str::from_utf8(bytes) {
        Ok(text) => text,
        Err(fault) => match str::from_utf8(&bytes[..fault.valid_up_to()]) {
            Ok(text) => text,
            Err(_) => unreachable!(),
        },
    }
}

impl<'r, R: Eprint> Sink for ErrSink<'r, R> {
    ghost held = { λ s. None };

    ghost faults = { λ s. s };

    fn write(&mut self, piece: &[u8]) -> Result<usize, Failed>
        requires { 0 < length piece.now }
        ensures bound { WritesAtMost result piece.now }
        ensures some { IfOk result (λ n. 0 < n) }
        ensures bytes { WriteAppends None None result piece.now }
        ensures cause { HasCause self.old self.new result }
        ensures text { IfOk result (λ n. n ≡ utf8_valid_len piece.now) }
        ensures count { MatchResult result (λ _. self.new ≡ self.old) (λ _. self.new ≡ raised self.old) }
    {
        match self.write_some(piece) {
            Ok(count) if count > 0 => Ok(count),
            _ => Err(failure(&mut self.faults)),
        }
    }
}
