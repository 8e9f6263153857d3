//! Says texts and numbers.
ghost use Rattle.std.specs.Prelude.{◌≡◌, ◌++◌, true, false, codes, decimal};
ghost use Rattle.std.specs.Io.KnownBytes.{Appends};
ghost use Rattle.qh_limits.specs.Counts.{Rose};
ghost use Rattle.qh_io.specs.Saying.{Says, seen};

use crate::{Sink, write_all_of};
use itoa::Buffer;

/// Writes the bytes; whether all of them went.
pub fn say<E: Sink>(err: &mut E, bytes: &[u8]) -> bool
    ensures says { Says (seen E.held E.faults err.old err.new) bytes.now }
    ensures whole { result ≡ true → Appends (E.held err.old) (E.held err.new) bytes.now }
    ensures cause { result ≡ false → Rose (E.faults err.old) (E.faults err.new) }
{
    match write_all_of(err, bytes) {
        Ok(()) => true,
        Err(_) => false,
    }
}

/// Writes two texts, the second where all of the first went; whether all went.
fn say_both<E: Sink>(err: &mut E, first: &[u8], second: &[u8]) -> bool
    ensures says { Says (seen E.held E.faults err.old err.new) (first.now ++ second.now) }
    ensures whole { result ≡ true → Appends (E.held err.old) (E.held err.new) (first.now ++ second.now) }
    ensures cause { result ≡ false → Rose (E.faults err.old) (E.faults err.new) }
{
    if !say(err, first) {
        return false;
    }
    say(err, second)
}

/// Writes a number between two texts; whether all went.
pub fn say_number<E: Sink>(err: &mut E, before: &str, number: u64, after: &str) -> bool
    ensures says { Says (seen E.held E.faults err.old err.new) (before.now ++ decimal number ++ after.now) }
    ensures whole { result ≡ true → Appends (E.held err.old) (E.held err.new) (before.now ++ decimal number ++ after.now) }
    ensures cause { result ≡ false → Rose (E.faults err.old) (E.faults err.new) }
{
    let mut buffer = Buffer::new();
    if !say(err, before.as_bytes()) {
        return false;
    }
    say_both(err, buffer.format(number).as_bytes(), after.as_bytes())
}

/// Writes two numbers behind a text, with one space between them, and ends the line; whether all went.
pub fn say_numbers<E: Sink>(err: &mut E, before: &str, first: u64, second: u64) -> bool
    ensures says { Says (seen E.held E.faults err.old err.new) (before.now ++ decimal first ++ codes " " ++ decimal second ++ codes "\n") }
    ensures whole { result ≡ true → Appends (E.held err.old) (E.held err.new) (before.now ++ decimal first ++ codes " " ++ decimal second ++ codes "\n") }
    ensures cause { result ≡ false → Rose (E.faults err.old) (E.faults err.new) }
{
    if !say_number(err, before, first, " ") {
        return false;
    }
    say_number(err, "", second, "\n")
}
