//! `qh_readings`: says what the readers make of texts, for a comparison with readers of other hands.
//!
//! Each line of standard input is a case: `c T TEXT`, a circuit up to time T; `b N TEXT`, bitstrings of N qubits; `w WORD
//! ..`, the words of a command line. Texts and words stand in hex, and `-` is the empty one. For each a line is printed:
//! `ok` with what was read, or the fault. It ends at the first line that is no case.
#![tactic(auto)]

mod answers;
mod case;
mod words;

use case::{Case, read_case};
use std::alloc::{AllocError, Global};
use std::io;

/// What is said of a case.
fn answer(alloc: Global, case: &Case) -> Result<String, AllocError> {
    match case {
        Case::Circuit { max_time, text } => answers::of_circuit(alloc, text, *max_time),
        Case::Bits { qubits, text } => answers::of_bits(alloc, text, *qubits),
        Case::Words { words } => words::of_words(alloc, words),
    }
}

fn main(rt: HostRuntime) -> io::Result<()> {
    for line in rt.lines(rt.alloc()) {
        let line = line?;
        let Some(case) = read_case(rt.alloc(), line.as_str())? else {
            return Ok(());
        };
        let text = answer(rt.alloc(), &case)?;
        println!(rt; "{text}")?;
    }
    Ok(())
}
