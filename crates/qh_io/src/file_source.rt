//! A source over a file.
ghost use Rattle.std.specs.Prelude.{◌≡◌, ◌≤◌, ◌<◌, ℕ, List, None, IsNone, IsErr, IfOk, MatchResult, length, take};
ghost use Rattle.std.specs.Option.{option_map};
ghost use Rattle.std.specs.String.{string_bytes};
ghost use Rattle.std.specs.Io.{ReadsAtMost};
ghost use Rattle.std.specs.Io.KnownBytes.{ReadConsumes};
ghost use Rattle.qh_limits.specs.Counts.{raised};
ghost use Rattle.qh_io.specs.Causes.{HasCause};
ghost use Rattle.qh_io.specs.Edge.{Goes, Gives};

use crate::faults::{Failed, failure};
use crate::reading::Source;
use std::fs::File;
use std::io;
use std::io::Read;
use std::marker::Model;
use std::rt::Files;

/// A file, opened at the first read. It tells nothing of what is left.
///
/// As far as files of `R` tell what is left, as those of the system do not, a call answers a number only where the open
/// file gave so many bytes, and 0 only at its end.
#[derive(Drop)]
pub struct FileSource<'r, R: Files> {
    rt: &'r R,
    path: Option<String>,
    file: Option<R::File>,
    faults: u64,
}

impl<'r, R: Files> Model for FileSource<'r, R> {
    ghost use Rattle.std.specs.Option.{option_map};
    ghost use Rattle.std.specs.String.{string_bytes};
    ghost use Rattle.qh_io.specs.Edge.{Handle};

    ghost Value = { Handle R.File };

    ghost view = { λ s. record { path = option_map string_bytes s.path; file = s.file; faults = s.faults } };
}

impl<'r, R: Files> FileSource<'r, R> {
    /// The file of this path. Without a path every call fails.
    pub fn new(rt: &'r R, path: Option<String>) -> FileSource<'r, R>
        ensures { result ≡ record { path = option_map string_bytes path; file = None; faults = 0 } }
    {
        FileSource {
            rt,
            path,
            file: None,
            faults: 0,
        }
    }

    // Reads from the file, after opening it where it is not open yet.
    fn read_some(&mut self, buf: &mut [u8]) -> io::Result<usize>
        requires { 0 < length buf.old }
        ensures bound { ReadsAtMost result buf.new }
        ensures nameless { IsNone self.old.path → IsErr result }
        ensures gave { IfOk result (λ n. Goes self.old.file self.new.file (Gives R.File.remaining (take n buf.new))) }
        ensures path { self.new.path ≡ self.old.path }
        ensures faults { self.new.faults ≡ self.old.faults }
    {
        let Some(path) = &self.path else {
            return Err(io::Error::from(io::ErrorKind::NotFound));
        };
        if self.file.is_none() {
            self.file = Some(File::open(self.rt, path.as_str())?);
        }
        match &mut self.file {
            Some(file) => file.read(buf),
            None => Err(io::Error::from(io::ErrorKind::NotFound)),
        }
    }
}

impl<'r, R: Files> Source for FileSource<'r, R> {
    ghost left = { λ s. None };

    ghost faults = { λ s. s.faults };

    fn read(&mut self, buf: &mut [u8]) -> Result<usize, Failed>
        requires { 0 < length buf.old }
        ensures bound { ReadsAtMost result buf.new }
        ensures bytes { ReadConsumes None None result buf.new }
        ensures cause { HasCause self.old.faults self.new.faults result }
        ensures nameless { IsNone self.old.path → IsErr result }
        ensures gave { IfOk result (λ n. Goes self.old.file self.new.file (Gives R.File.remaining (take n buf.new))) }
        ensures count { MatchResult result (λ _. self.new.faults ≡ self.old.faults) (λ _. self.new.faults ≡ raised self.old.faults) }
        ensures same { self.new.path ≡ self.old.path }
    {
        match self.read_some(buf) {
            Ok(count) => Ok(count),
            Err(_) => Err(failure(&mut self.faults)),
        }
    }
}
