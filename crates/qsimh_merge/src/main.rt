//! `qsimh_merge`: merges journals of all prefix values of one job.
//!
//! It takes its words for the paths of journals, hands them over as disks, and ends with the status of the call.
#![tactic(auto)]

ghost use Rattle.std.specs.Prelude.{◌≡◌, false, IfOk, Some, map};
ghost use Rattle.std.specs.String.{string_bytes};

use qh_disk::FileDisk;
use qh_io::{ErrSink, FileSink};
use qh_limits::MAX_INPUTS;
use qh_merge::merge_run;
use std::alloc::{AllocError, Global};
use std::env::Env;
use std::fs::File;
use std::process::ExitCode;
use std::rt::Files;
use std::{env, io};

/// The status of too many journals.
const INPUTS: u8 = 1;

/// The status of want of memory.
const MEMORY: u8 = 7;

/// The words after the program's name. Words that cannot be read, as those that are no text, are no words.
fn words_after_name<R: Env + AllocGlobal>(rt: &R) -> Result<Vec<String>, AllocError> {
    let mut words = Vec::new(rt.alloc());
    let args = match env::args(rt) {
        Ok(args) => args,
        Err(error) => {
            return if error.kind() == io::ErrorKind::OutOfMemory {
                Err(AllocError)
            } else {
                Ok(words)
            };
        }
    };
    for word in args.skip(1) {
        words.push(word)?;
    }
    Ok(words)
}

/// A disk for each word, in their order, on which nothing is written. It opens no file. An Err is want of memory.
fn disks_of<'r, R: Files<File = File> + Sync>(
    rt: &'r R,
    alloc: Global,
    words: Vec<String>,
) -> Result<Vec<FileDisk<'r, R>>, AllocError>
    ensures disks { IfOk result (λ v. v.items ≡ map (λ w. record { path = Some (string_bytes w); changes = false; faults = 0 }) words.items) }
{
    let mut disks = Vec::new(alloc);
    for word in words {
        disks.push(FileDisk::read_only(rt, Some(word)))?;
    }
    Ok(disks)
}

fn main(rt: HostRuntime) -> ExitCode {
    let Ok(words) = words_after_name(&rt) else {
        return ExitCode::from(MEMORY);
    };
    let Ok(mut disks) = disks_of(&rt, rt.alloc(), words) else {
        return ExitCode::from(MEMORY);
    };
    if disks.len() > MAX_INPUTS {
        return ExitCode::from(INPUTS);
    }
    let mut out = FileSink::new(&rt, None);
    let mut err = ErrSink::new(&rt);
    ExitCode::from(merge_run(rt.alloc(), disks.as_mut_slice(), &mut out, &mut err))
}
