//! A case of a line.
use hex::FromHexError;
use qh_text::number_of;
use std::alloc::{AllocError, Global};

/// What is to be read.
#[derive(Drop)]
pub enum Case {
    /// A circuit up to a greatest time.
    Circuit { max_time: u32, text: Vec<u8> },
    /// Bitstrings of so many qubits.
    Bits { qubits: u32, text: Vec<u8> },
    /// The words of a command line.
    Words { words: Vec<String> },
}

/// The case that a line spells; None where it spells none.
pub fn read_case(alloc: Global, line: &str) -> Result<Option<Case>, AllocError> {
    let mut items = line.split(' ');
    match items.next() {
        Some("c") => {
            let Some((max_time, text)) = number_and_text(alloc, items.next(), items.next())? else {
                return Ok(None);
            };
            Ok(Some(Case::Circuit { max_time, text }))
        }
        Some("b") => {
            let Some((qubits, text)) = number_and_text(alloc, items.next(), items.next())? else {
                return Ok(None);
            };
            Ok(Some(Case::Bits { qubits, text }))
        }
        Some("w") => read_words_in(alloc, line),
        _ => Ok(None),
    }
}

/// A number and a text in hex.
fn number_and_text(
    alloc: Global,
    number: Option<&str>,
    text: Option<&str>,
) -> Result<Option<(u32, Vec<u8>)>, AllocError> {
    let (Some(number), Some(text)) = (number, text) else {
        return Ok(None);
    };
    let Some(number) = number_of(number.as_bytes()) else {
        return Ok(None);
    };
    let Some(text) = decoded(alloc, text)? else {
        return Ok(None);
    };
    Ok(Some((number, text)))
}

/// The words behind the first item of a line.
fn read_words_in(alloc: Global, line: &str) -> Result<Option<Case>, AllocError> {
    let mut words = Vec::new(alloc);
    for item in line.split(' ').skip(1) {
        let Some(bytes) = decoded(alloc, item)? else {
            return Ok(None);
        };
        let Ok(word) = String::from_utf8(bytes) else {
            return Ok(None);
        };
        words.push(word)?;
    }
    Ok(Some(Case::Words { words }))
}

/// The bytes that an item spells in hex, none for `-`; None where it is no hex.
fn decoded(alloc: Global, item: &str) -> Result<Option<Vec<u8>>, AllocError> {
    if item == "-" {
        return Ok(Some(Vec::new(alloc)));
    }
    match hex::decode(alloc, item.as_bytes()) {
        Ok(bytes) => Ok(Some(bytes)),
        Err(FromHexError::OutOfMemory) => Err(AllocError),
        Err(_) => Ok(None),
    }
}
