//! `qsimh_amplitudes`: prints exact amplitudes of a circuit.
//!
//! It holds the places of the standard streams, reads its words, hands over the files that they name, and ends with the
//! status of the call.
#![tactic(auto)]

mod named;

use named::{Adapters, named_files};
use qh_io::ErrSink;
use qh_lease::ClockTimer;
use qh_top::{Ran, qsimh};
use qh_workers::FreeGate;
use std::alloc::AllocError;
use std::env::Env;
use std::fs::File;
use std::process::ExitCode;
use std::{env, io};

/// The status of want of memory.
const MEMORY: u8 = 7;

/// The words after the program's name. Words that cannot be read, as those that are no text, are no words.
fn words_after_name<R: Env + AllocGlobal>(rt: &R) -> Result<Vec<String>, AllocError> {
    let mut words = Vec::new(rt.alloc());
    let args = match env::args(rt) {
        Ok(args) => args,
        Err(error) => {
            return if error.kind() == io::ErrorKind::OutOfMemory {
                Err(AllocError)
            } else {
                Ok(words)
            };
        }
    };
    for word in args.skip(1) {
        words.push(word)?;
    }
    Ok(words)
}

fn main(rt: HostRuntime) -> ExitCode {
    // A file that is opened comes in the lowest place that is free. So that none comes in the place of a standard stream
    // that is closed, where what goes to the stream would go over the file, these three are held to the end. They can be
    // read alone: what goes to a closed stream is a fault.
    let _held = (
        File::open(&rt, "/dev/null"),
        File::open(&rt, "/dev/null"),
        File::open(&rt, "/dev/null"),
    );
    let Ok(words) = words_after_name(&rt) else {
        return ExitCode::from(MEMORY);
    };
    let Ok(files) = named_files(&rt, rt.alloc(), &words) else {
        return ExitCode::from(MEMORY);
    };
    let Adapters {
        mut circuit,
        mut bits,
        mut out,
        journal,
        mut old,
        lease,
    } = files;
    let mut err = ErrSink::new(&rt);
    let mut timer = ClockTimer::new(&rt, rt.alloc(), lease);
    let Ran { status, disk: _ } = qsimh(
        &rt,
        rt.alloc(),
        &words,
        &mut circuit,
        &mut bits,
        &mut out,
        &mut err,
        journal,
        &mut old,
        &mut timer,
        &FreeGate,
    );
    ExitCode::from(status)
}
