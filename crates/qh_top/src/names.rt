//! The files that the words of the command line name.
ghost use Rattle.std.specs.Prelude.{◌≡◌, Err, None, IfOk, IsSomeAnd, map};
ghost use Rattle.std.specs.String.{string_bytes};
ghost use Rattle.qh_words.specs.Request.{options_of};
ghost use Rattle.qh_top.specs.Names.{AreNames};

use qh_words::{Text, WordsFault, read_words};
use std::alloc::Global;

/// The files that the words name: those of the circuit and the bitstrings unless these are generated, that of the output
/// unless it is standard output, and those of the journal and of the old journal where the words ask for them. With them the
/// seconds of a lease, and how many workers run.
#[derive(Drop)]
pub struct Names {
    pub circuit: Option<Text>,
    pub bits: Option<Text>,
    pub out: Option<Text>,
    pub journal: Option<Text>,
    pub old: Option<Text>,
    pub lease: Option<u64>,
    pub workers: u32,
}

/// The files that the words name. Usage comes only where the words are no request, and Ok only where they are one.
pub fn file_names(alloc: Global, words: &[String]) -> Result<Names, WordsFault>
    ensures usage { result ≡ Err WordsFault.Usage → options_of (map string_bytes words.now) ≡ None }
    ensures named { IfOk result (λ names. IsSomeAnd (options_of (map string_bytes words.now)) (λ o. AreNames o names)) }
{
    let options = read_words(alloc, words)?;
    Ok(Names {
        circuit: options.circuit,
        bits: options.bits,
        out: options.out,
        journal: options.journal,
        old: options.from,
        lease: options.lease,
        workers: options.workers,
    })
}
