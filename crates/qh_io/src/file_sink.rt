//! A sink over a file or standard output.
ghost use Rattle.std.specs.Prelude.{◌≡◌, ◌≤◌, ◌<◌, ℕ, List, None, IsSome, IfOk, MatchResult, length, take};
ghost use Rattle.std.specs.Option.{option_map};
ghost use Rattle.std.specs.String.{string_bytes};
ghost use Rattle.std.specs.Io.{WritesAtMost};
ghost use Rattle.std.specs.Io.KnownBytes.{WriteAppends};
ghost use Rattle.qh_limits.specs.Counts.{raised};
ghost use Rattle.qh_io.specs.Causes.{HasCause};
ghost use Rattle.qh_io.specs.Edge.{Goes, Takes};

use crate::faults::{Failed, failure};
use crate::writing::Sink;
use std::fs::File;
use std::io;
use std::io::Write;
use std::marker::Model;
use std::rt::Files;

/// A file, opened at the first write, or standard output. It tells nothing of what it holds.
///
/// What stood in the file is replaced, at the first write and not before. As far as files of `R` tell what they hold, as
/// those of the system do not, a call answers a number only where the open file took so many bytes.
#[derive(Drop)]
pub struct FileSink<'r, R: Files + Print> {
    rt: &'r R,
    path: Option<String>,
    file: Option<R::File>,
    faults: u64,
}

impl<'r, R: Files + Print> Model for FileSink<'r, R> {
    ghost use Rattle.std.specs.Option.{option_map};
    ghost use Rattle.std.specs.String.{string_bytes};
    ghost use Rattle.qh_io.specs.Edge.{Handle};

    ghost Value = { Handle R.File };

    ghost view = { λ s. record { path = option_map string_bytes s.path; file = s.file; faults = s.faults } };
}

impl<'r, R: Files + Print> FileSink<'r, R> {
    /// The file of this path, or standard output where there is none.
    pub fn new(rt: &'r R, path: Option<String>) -> FileSink<'r, R>
        ensures { result ≡ record { path = option_map string_bytes path; file = None; faults = 0 } }
    {
        FileSink {
            rt,
            path,
            file: None,
            faults: 0,
        }
    }

    // Writes to the file, after opening it where it is not open yet, or to standard output.
    fn write_some(&mut self, piece: &[u8]) -> io::Result<usize>
        ensures bound { WritesAtMost result piece.now }
        ensures took { IsSome self.old.path → IfOk result (λ n. Goes self.old.file self.new.file (Takes R.File.contents (take n piece.now))) }
        ensures path { self.new.path ≡ self.old.path }
        ensures faults { self.new.faults ≡ self.old.faults }
    {
        let Some(path) = &self.path else {
            let mut out = io::writer(self.rt);
            let count = out.write(piece)?;
            out.flush()?;
            return Ok(count);
        };
        if self.file.is_none() {
            self.file = Some(File::create(self.rt, path.as_str())?);
        }
        match &mut self.file {
            Some(file) => {
                let count = file.write(piece)?;
                file.flush()?;
                Ok(count)
            }
            None => Err(io::Error::from(io::ErrorKind::NotFound)),
        }
    }
}

impl<'r, R: Files + Print> Sink for FileSink<'r, R> {
    ghost held = { λ s. None };

    ghost faults = { λ s. s.faults };

    fn write(&mut self, piece: &[u8]) -> Result<usize, Failed>
        requires { 0 < length piece.now }
        ensures bound { WritesAtMost result piece.now }
        ensures some { IfOk result (λ n. 0 < n) }
        ensures bytes { WriteAppends None None result piece.now }
        ensures cause { HasCause self.old.faults self.new.faults result }
        ensures took { IsSome self.old.path → IfOk result (λ n. Goes self.old.file self.new.file (Takes R.File.contents (take n piece.now))) }
        ensures count { MatchResult result (λ _. self.new.faults ≡ self.old.faults) (λ _. self.new.faults ≡ raised self.old.faults) }
        ensures same { self.new.path ≡ self.old.path }
    {
        match self.write_some(piece) {
            Ok(count) if count > 0 => Ok(count),
            _ => Err(failure(&mut self.faults)),
        }
    }
}
