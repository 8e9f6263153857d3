//! The files that the words of the command line name, as sources, a sink and disks, and the seconds of their lease.
ghost use Rattle.std.specs.Prelude.{◌≡◌, false, IfOk, map};
ghost use Rattle.std.specs.Option.{option_and_then};
ghost use Rattle.std.specs.String.{string_bytes};
ghost use Rattle.qh_words.specs.Request.{options_of};

use qh_disk::FileDisk;
use qh_io::{FileSink, FileSource};
use qh_top::{Names, Text, WordsFault, file_names};
use std::alloc::{AllocError, Global};
use std::fs::File;
use std::rt::Files;

/// What the call reads and writes: the file of the circuit, that of the bitstrings, that of the output or standard output, that of
/// the journal, and that of the old journal. With them the seconds of a lease.
#[derive(Drop)]
pub struct Adapters<'r, R: Files<File = File> + Print + Sync> {
    pub circuit: FileSource<'r, R>,
    pub bits: FileSource<'r, R>,
    pub out: FileSink<'r, R>,
    pub journal: FileDisk<'r, R>,
    pub old: FileDisk<'r, R>,
    pub lease: Option<u64>,
}

/// The files that the words name, and none where the words are no request. An Err is want of memory.
fn names_of(alloc: Global, words: &[String]) -> Result<Names, AllocError>
    ensures circuit { IfOk result (λ names. names.circuit ≡ option_and_then (λ o. o.circuit) (options_of (map string_bytes words.now))) }
    ensures bits { IfOk result (λ names. names.bits ≡ option_and_then (λ o. o.bits) (options_of (map string_bytes words.now))) }
    ensures out { IfOk result (λ names. names.out ≡ option_and_then (λ o. o.out) (options_of (map string_bytes words.now))) }
    ensures journal { IfOk result (λ names. names.journal ≡ option_and_then (λ o. o.journal) (options_of (map string_bytes words.now))) }
    ensures old { IfOk result (λ names. names.old ≡ option_and_then (λ o. o.from) (options_of (map string_bytes words.now))) }
    ensures lease { IfOk result (λ names. names.lease ≡ option_and_then (λ o. o.lease) (options_of (map string_bytes words.now))) }
{
    match file_names(alloc, words) {
        Ok(names) => Ok(names),
        Err(WordsFault::Usage) => Ok(Names {
            circuit: None,
            bits: None,
            out: None,
            journal: None,
            old: None,
            lease: None,
            workers: 1,
        }),
        Err(WordsFault::Memory) => Err(AllocError),
    }
}

/// The adapters for these words: each has the path that its option gives, and none where the option is absent or the
/// words are no request. The old journal is for reading alone. It opens no file. An Err is want of memory.
pub fn named_files<'r, R: Files<File = File> + Print + Sync>(
    rt: &'r R,
    alloc: Global,
    words: &[String],
) -> Result<Adapters<'r, R>, AllocError>
    ensures circuit { IfOk result (λ files. files.circuit.path ≡ option_and_then (λ o. o.circuit) (options_of (map string_bytes words.now))) }
    ensures bits { IfOk result (λ files. files.bits.path ≡ option_and_then (λ o. o.bits) (options_of (map string_bytes words.now))) }
    ensures out { IfOk result (λ files. files.out.path ≡ option_and_then (λ o. o.out) (options_of (map string_bytes words.now))) }
    ensures journal { IfOk result (λ files. files.journal.path ≡ option_and_then (λ o. o.journal) (options_of (map string_bytes words.now))) }
    ensures old { IfOk result (λ files. files.old.path ≡ option_and_then (λ o. o.from) (options_of (map string_bytes words.now))) }
    ensures old_is_read { IfOk result (λ files. files.old.changes ≡ false) }
    ensures lease { IfOk result (λ files. files.lease ≡ option_and_then (λ o. o.lease) (options_of (map string_bytes words.now))) }
{
    let names = names_of(alloc, words)?;
    Ok(Adapters {
        circuit: FileSource::new(rt, names.circuit.map(Text::into_string)),
        bits: FileSource::new(rt, names.bits.map(Text::into_string)),
        out: FileSink::new(rt, names.out.map(Text::into_string)),
        journal: FileDisk::new(rt, names.journal.map(Text::into_string)),
        old: FileDisk::read_only(rt, names.old.map(Text::into_string)),
        lease: names.lease,
    })
}
