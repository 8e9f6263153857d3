//! A disk over a file of the system.
ghost use Rattle.std.specs.Prelude.{◌≡◌, ◌≤◌, ◌+◌, ◌↔◌, [], length, take, drop, true, false, None, IsNone, IfOk, OnOk, OnErr, IfErr, IsErr};
ghost use Rattle.std.specs.Option.{is_some, option_map};
ghost use Rattle.std.specs.String.{string_bytes};
ghost use Rattle.std.proofs.Common.{rules};
ghost use Rattle.qh_limits.specs.Counts.{raised};
ghost use Rattle.qh_disk.specs.Disk.{Reads, Becomes, overwritten, resized, Torn, Stretched, Calls, Unchanged, Shrinks, Turns, IsSafe};
ghost use Rattle.qh_disk.specs.File.{face_of};

use crate::{Disk, Failed};
use qh_limits::raise;
use std::fs::{File, OpenOptions};
use std::io;
use std::marker::Model;
use std::os::unix::fs::FileExt;
use std::rt::Files;

/// A disk over the file at a path. It tells nothing of what the file holds, so nothing is claimed
/// of that.
///
/// The first call opens the file and asks for a lock on it. Without a path every call fails, and
/// none reaches the system.
#[derive(Drop)]
pub struct FileDisk<'r, R: Files<File = File> + Sync> {
    rt: &'r R,
    path: Option<String>,
    changes: bool,
    file: Option<File>,
    faults: u64,
}

impl<'r, R: Files<File = File> + Sync> Model for FileDisk<'r, R> {
    ghost use Rattle.std.specs.Prelude.{◌≡◌, false, None};
    ghost use Rattle.std.specs.Option.{is_some, option_map};
    ghost use Rattle.std.specs.String.{string_bytes};
    ghost use Rattle.qh_disk.specs.File.{FileFacts};

    ghost Value = { FileFacts };

    ghost view = { λ d. record { path = option_map string_bytes d.path; changes = d.changes; faults = d.faults } };

    ghost invariant = { λ d. is_some d.path ≡ false → is_some d.file ≡ false };
}

impl<'r, R: Files<File = File> + Sync> FileDisk<'r, R> {
    /// A disk over the file at this path, which no call has reached yet. A file that is missing is
    /// made.
    pub fn new(rt: &'r R, path: Option<String>) -> FileDisk<'r, R>
        ensures { result ≡ record { path = option_map string_bytes path; changes = true; faults = 0 } }
    {
        FileDisk {
            rt,
            path,
            changes: true,
            file: None,
            faults: 0,
        }
    }

    /// As `new`, but the file is opened for reading alone: where it is missing it stays so, and
    /// each call on it fails, as does each call that would change a file.
    pub fn read_only(rt: &'r R, path: Option<String>) -> FileDisk<'r, R>
        ensures { result ≡ record { path = option_map string_bytes path; changes = false; faults = 0 } }
    {
        FileDisk {
            rt,
            path,
            changes: false,
            file: None,
            faults: 0,
        }
    }
}

impl<'r, R: Files<File = File> + Sync> Disk for FileDisk<'r, R> {
    ghost face = { face_of };

    ghost loans = { λ _. [] };

    ghost current = { Prim.search rules };

    fn len(&mut self) -> Result<u64, Failed>
        ensures length { IfOk result (λ n. Reads (face_of self.old) (λ f. n ≡ length f)) }
        ensures unchanged { Unchanged (face_of self.old) (face_of self.new) }
        ensures call { Calls result (face_of self.old) (face_of self.new) }

        ensures nameless { IsNone self.old.path → IsErr result }
        ensures ok { OnOk result (self.new ≡ self.old) }
        ensures err { OnErr result (self.new ≡ record self.old { faults = raised self.old.faults }) }
    {
        reach(
            self.rt,
            &self.path,
            self.changes,
            &mut self.file,
            &mut self.faults,
        )?;
        let answer = length_of(self.file.as_ref().unwrap());
        counted(&mut self.faults, answer)
    }

    fn read_at(&mut self, at: u64, buf: &mut [u8]) -> Result<(), Failed>
        requires { Reads (face_of self.old) (λ f. at + length buf.old ≤ length f) }
        ensures bytes { OnOk result (Reads (face_of self.old) (λ f. buf.new ≡ take (length buf.old) (drop at f))) }
        ensures unchanged { Unchanged (face_of self.old) (face_of self.new) }
        ensures call { Calls result (face_of self.old) (face_of self.new) }

        ensures nameless { IsNone self.old.path → IsErr result }
        ensures ok { OnOk result (self.new ≡ self.old) }
        ensures err { OnErr result (self.new ≡ record self.old { faults = raised self.old.faults }) }
    {
        reach(
            self.rt,
            &self.path,
            self.changes,
            &mut self.file,
            &mut self.faults,
        )?;
        let answer = self.file.as_ref().unwrap().read_exact_at(buf, at);
        counted(&mut self.faults, answer)
    }

    fn write_at(&mut self, at: u64, bytes: &[u8]) -> Result<(), Failed>
        requires { Reads (face_of self.old) (λ f. at + length bytes.now ≤ length f) }
        ensures written { OnOk result (Becomes (overwritten at bytes.now) (face_of self.old) (face_of self.new)) }
        ensures torn { Turns (Torn at (length bytes.now)) (face_of self.old) (face_of self.new) }
        ensures call { Calls result (face_of self.old) (face_of self.new) }

        ensures nameless { IsNone self.old.path → IsErr result }
        ensures reading { self.old.changes ≡ false → IsErr result }
        ensures ok { OnOk result (self.new ≡ self.old) }
        ensures err { OnErr result (self.new ≡ record self.old { faults = raised self.old.faults }) }
    {
        if !self.changes {
            return Err(refused(&mut self.faults));
        }
        reach(
            self.rt,
            &self.path,
            self.changes,
            &mut self.file,
            &mut self.faults,
        )?;
        let answer = self.file.as_ref().unwrap().write_all_at(bytes, at);
        counted(&mut self.faults, answer)
    }

    fn set_len(&mut self, length: u64) -> Result<(), Failed>
        ensures resized { OnOk result (Becomes (resized length) (face_of self.old) (face_of self.new)) }
        ensures stretched { Turns (Stretched length) (face_of self.old) (face_of self.new) }
        ensures call { Calls result (face_of self.old) (face_of self.new) }

        ensures nameless { IsNone self.old.path → IsErr result }
        ensures reading { self.old.changes ≡ false → IsErr result }
        ensures ok { OnOk result (self.new ≡ self.old) }
        ensures err { OnErr result (self.new ≡ record self.old { faults = raised self.old.faults }) }
    {
        if !self.changes {
            return Err(refused(&mut self.faults));
        }
        reach(
            self.rt,
            &self.path,
            self.changes,
            &mut self.file,
            &mut self.faults,
        )?;
        let answer = self.file.as_ref().unwrap().set_len(length);
        counted(&mut self.faults, answer)
    }

    fn sync(&mut self) -> Result<(), Failed>
        ensures safe { OnOk result (IsSafe (face_of self.new)) }
        ensures shrinks { Shrinks (face_of self.old) (face_of self.new) }
        ensures loses_none { OnErr result (Unchanged (face_of self.old) (face_of self.new)) }
        ensures call { Calls result (face_of self.old) (face_of self.new) }

        ensures nameless { IsNone self.old.path → IsErr result }
        ensures ok { OnOk result (self.new ≡ self.old) }
        ensures err { OnErr result (self.new ≡ record self.old { faults = raised self.old.faults }) }
    {
        reach(
            self.rt,
            &self.path,
            self.changes,
            &mut self.file,
            &mut self.faults,
        )?;
        let answer = self.file.as_ref().unwrap().sync_all();
        counted(&mut self.faults, answer)
    }
}

// A call that fails before the system is asked.
fn refused(faults: &mut u64) -> Failed
    ensures raised { faults.new ≡ raised faults.old }
    ensures count { result.faults ≡ faults.new }
{
    raise(faults);
    Failed { faults: *faults }
}

// Opens the file at its first use.
fn reach<R: Files<File = File>>(
    rt: &R,
    path: &Option<String>,
    changes: bool,
    file: &mut Option<File>,
    faults: &mut u64,
) -> Result<(), Failed>
    ensures open { OnOk result (is_some file.new ≡ true) }
    ensures nameless { is_some path.now ≡ false → is_some file.old ≡ false → IsErr result }
    ensures closed { is_some path.now ≡ false → is_some file.old ≡ false → is_some file.new ≡ false }
    ensures ok { OnOk result (faults.new ≡ faults.old) }
    ensures raised { OnErr result (faults.new ≡ raised faults.old) }
    ensures count { IfErr result (λ e. e.faults ≡ faults.new) }
{
    if file.is_some() {
        return Ok(());
    }
    let opened = counted(faults, open(rt, path, changes))?;
    *file = Some(opened);
    Ok(())
}

// Opens the file and locks it; one that may be changed is made where it is missing.
fn open<R: Files<File = File>>(rt: &R, path: &Option<String>, changes: bool) -> io::Result<File>
    ensures { is_some path.now ≡ false → IsErr result }
{
    let Some(path) = path else {
        return Err(io::Error::from(io::ErrorKind::NotFound));
    };
    let file = OpenOptions::new()
        .read(true)
        .write(changes)
        .create(changes)
        .truncate(false)
        .open(rt, path.as_str())?;
    if file.try_lock().is_err() {
        return Err(io::Error::from(io::ErrorKind::WouldBlock));
    }
    Ok(file)
}

fn length_of(file: &File) -> io::Result<u64> {
    Ok(file.metadata()?.len())
}

// Raises the count where the answer is an error.
fn counted<T: Drop>(faults: &mut u64, answer: io::Result<T>) -> Result<T, Failed>
    ensures fails { IsErr answer ↔ IsErr result }
    ensures ok { OnOk result (faults.new ≡ faults.old) }
    ensures raised { OnErr result (faults.new ≡ raised faults.old) }
    ensures count { IfErr result (λ e. e.faults ≡ faults.new) }
{
    match answer {
        Ok(value) => Ok(value),
        Err(_) => Err(refused(faults)),
    }
}
