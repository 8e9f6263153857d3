//! Texts as bytes: what finds, cuts and spells them, their lines, words and decimal numbers, and the one spelling of a
//! basis index as a bitstring.
//!
//! A bitstring has a character `0` or `1` for each qubit, the first for qubit 0, which is bit 0 of the index. A text is cut
//! at each LF, and a CR that ends a line is taken off; what stands after the last LF is a line where it is not empty. Lines
//! are numbered from 1, and words are separated by spaces and tabs. A line without words is blank, and one whose first word
//! begins with `#` is a comment. Signs, spaces and other bases are no part of a decimal number and are refused.
//!
//! Finding, cutting and reading take no memory, and look at each byte once, or a few times at those of a line; what appends
//! takes memory for its bytes alone. The bytes need be in no encoding. Nothing here knows of circuits or amplitudes.
#![tactic(auto)]

mod bitstring;
mod content;
mod cut;
mod laws;
mod line;
mod number;
mod read;
mod word;

pub use bitstring::{index_of, is_bitstring, push_bits};
pub use content::{ContentLines, Line};
pub use cut::{cut_at, find};
pub use laws::{index_of_its_string, string_of_its_index};
pub use line::{is_passed_over, next_line};
pub use number::{push_number, push_word};
pub use read::{number_of, wide_number_of};
pub use word::{next_word, trimmed};
