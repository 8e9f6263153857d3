//! From words to options.

ghost use Rattle.std.specs.Prelude.{◌≡◌, ◌∷◌, IfOk, IfSome, IsTrue, codes, map, option_and_then, string_bytes};
ghost use Rattle.std.specs.Option.{SomeIff, option_copied};
ghost use Rattle.qh_words.specs.Command.{program, value_in};
ghost use Rattle.qh_words.specs.Request.{HasWorkers, has_cut, has_journal, has_prob, has_source, is_set, options_by, options_of};
ghost use Rattle.qh_words.specs.Size.{IsGenSize, size_of};

use crate::command::{is_set, matches, value};
use crate::fault::WordsFault;
use crate::numbers::{Numbers, read_numbers};
use crate::options::Options;
use crate::size::{GenSize, read_size};
use crate::text::Text;
use clap::ArgMatches;
use std::alloc::{AllocError, Global};

/// The options that the words after the program's name give, in any order.
///
/// Usage comes exactly where one of these holds. `clap` refuses the words, as it refuses help, an
/// unknown option, an option twice and a stray word. A number is no decimal number of its range.
/// `-c` or `-i` is absent without `-g`. `-g` stands with `-c`, `-i` or `-d`, or its value is no
/// size. `-p`, `-r`, `-w`, `-l`, `-j` or `--new` stands without `-k`. `--new` or `--from` stands
/// without `-j`. `--prob` stands with `-k`. Memory is want of memory alone.
pub fn read_words(alloc: Global, words: &[String]) -> Result<Options, WordsFault>
    ensures asked { IfOk result (λ o. options_of (map string_bytes words.now) ≡ Some o) }
    ensures usage { result ≡ Err WordsFault.Usage → options_of (map string_bytes words.now) ≡ None }
    ensures size { IfOk result (λ o. IfSome o.generated IsGenSize) }
    ensures workers { IfOk result (λ o. HasWorkers o) }
{
    let Ok(list) = with_program(alloc, words) else {
        return Err(WordsFault::Memory);
    };
    let matches = matches(alloc, list.as_slice())?;
    read_options(alloc, &matches)
}

/// The words after the program's name.
fn with_program<'a>(alloc: Global, words: &'a [String]) -> Result<Vec<&'a str>, AllocError>
    ensures { IfOk result (λ v. map (λ s. s.now) v.items ≡ program ∷ map string_bytes words.now) }
{
    let mut list = Vec::with_capacity(alloc, words.len().saturating_add(1))?;
    list.push("qsimh_amplitudes")?;
    for word in words {
        list.push(word.as_str())?;
    }
    Ok(list)
}

/// The options that the matches give.
fn read_options(alloc: Global, matches: &ArgMatches<'_>) -> Result<Options, WordsFault>
    ensures asked { IfOk result (λ o. options_by (value_in matches.now) ≡ Some o) }
    ensures usage { result ≡ Err WordsFault.Usage → options_by (value_in matches.now) ≡ None }
{
    let Some(numbers) = read_numbers(matches) else {
        return Err(WordsFault::Usage);
    };
    let Some(generated) = read_source(matches) else {
        return Err(WordsFault::Usage);
    };
    if !has_cut_options(matches) {
        return Err(WordsFault::Usage);
    }
    if !has_journal_options(matches) {
        return Err(WordsFault::Usage);
    }
    if !has_prob_alone(matches) {
        return Err(WordsFault::Usage);
    }
    let Ok(options) = with_texts(alloc, matches, numbers, generated) else {
        return Err(WordsFault::Memory);
    };
    Ok(options)
}

/// Where the circuit and the bitstrings come from: the size of a generated circuit, or none where
/// they are files. None where the options name no such source.
fn read_source(matches: &ArgMatches<'_>) -> Option<Option<GenSize>>
    ensures { let size = option_and_then size_of (value_in matches.now (codes "g")) in
        SomeIff result (IsTrue (has_source (value_in matches.now))) size }
{
    let circuit = value(matches, "c");
    let bits = value(matches, "i");
    let Some(text) = value(matches, "g") else {
        return if circuit.is_some() && bits.is_some() {
            Some(None)
        } else {
            None
        };
    };
    if circuit.is_some() || bits.is_some() || value(matches, "d").is_some() {
        return None;
    }
    let size = read_size(text)?;
    Some(Some(size))
}

/// Prefix gates, root gates, a prefix value, a lease, a journal and an emptied one stand only with a part 1.
fn has_cut_options(matches: &ArgMatches<'_>) -> bool
    ensures { result ≡ has_cut (value_in matches.now) }
{
    value(matches, "k").is_some()
        || !(value(matches, "p").is_some()
            || value(matches, "r").is_some()
            || value(matches, "w").is_some()
            || value(matches, "l").is_some()
            || value(matches, "j").is_some()
            || is_set(matches, "new"))
}

/// An emptied journal and an old one to fill it from stand only with a journal.
fn has_journal_options(matches: &ArgMatches<'_>) -> bool
    ensures { result ≡ has_journal (value_in matches.now) }
{
    value(matches, "j").is_some() || !(is_set(matches, "new") || value(matches, "from").is_some())
}

/// Probabilities stand only without a part 1.
fn has_prob_alone(matches: &ArgMatches<'_>) -> bool
    ensures { result ≡ has_prob (value_in matches.now) }
{
    !is_set(matches, "prob") || value(matches, "k").is_none()
}

/// The options with copies of their texts.
fn with_texts(
    alloc: Global,
    matches: &ArgMatches<'_>,
    numbers: Numbers,
    generated: Option<GenSize>,
) -> Result<Options, AllocError>
    ensures { IfOk result (λ o. o ≡ record {
      circuit = value_in matches.now (codes "c");
      bits = value_in matches.now (codes "i");
      part = value_in matches.now (codes "k");
      out = value_in matches.now (codes "o");
      max_time = numbers.max_time;
      p = numbers.p;
      r = numbers.r;
      w = numbers.w;
      generated = generated;
      journal = value_in matches.now (codes "j");
      fresh = is_set (value_in matches.now (codes "new"));
      workers = numbers.workers;
      lease = numbers.lease;
      from = value_in matches.now (codes "from");
      prob = is_set (value_in matches.now (codes "prob"));
    }) }
{
    Ok(Options {
        circuit: copied(alloc, value(matches, "c"))?,
        bits: copied(alloc, value(matches, "i"))?,
        part: copied(alloc, value(matches, "k"))?,
        out: copied(alloc, value(matches, "o"))?,
        max_time: numbers.max_time,
        p: numbers.p,
        r: numbers.r,
        w: numbers.w,
        generated,
        journal: copied(alloc, value(matches, "j"))?,
        fresh: is_set(matches, "new"),
        workers: numbers.workers,
        lease: numbers.lease,
        from: copied(alloc, value(matches, "from"))?,
        prob: is_set(matches, "prob"),
    })
}

fn copied(alloc: Global, text: Option<&str>) -> Result<Option<Text>, AllocError>
    ensures { IfOk result (λ o. o ≡ option_copied text.entry) }
{
    match text {
        Some(text) => Ok(Some(Text::of(String::from_str(alloc, text)?))),
        None => Ok(None),
    }
}
