//! Spells whole numbers.
ghost use Rattle.std.specs.Prelude.{◌≡◌, ◌++◌, OnOk, OnErr};
ghost use Rattle.qh_text.specs.Words.{Extends, word_of};

use itoa::{Buffer, Integer};
use std::alloc::AllocError;

/// Appends the number in decimal digits, without leading zeros, a negative one with `-` before it. An Err is want of
/// memory, and `text` then holds what it held.
pub fn push_number<I: Integer>(text: &mut Vec<u8>, number: I) -> Result<(), AllocError>
    ensures ok { OnOk result (text.new.items ≡ text.old.items ++ I.text number) }
    ensures err { OnErr result (text.new.items ≡ text.old.items) }
{
    let mut buffer = Buffer::new();
    text.extend_from_slice(buffer.format(number).as_bytes())
}

/// Appends a space and the number, spelled as by `push_number`. An Err is want of memory, and `text` then begins with
/// what it held.
pub fn push_word<I: Integer>(text: &mut Vec<u8>, number: I) -> Result<(), AllocError>
    ensures ok { OnOk result (text.new.items ≡ text.old.items ++ word_of (I.text number)) }
    ensures err { OnErr result (Extends text.old.items text.new.items) }
{
    text.push(b' ')?;
    push_number(text, number)
}
