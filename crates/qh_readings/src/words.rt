//! What the reader of words says.
ghost use Rattle.std.specs.Prelude.{◌≡◌, IfOk, codes, map, string_bytes, None};
ghost use Rattle.qh_words.specs.Request.{options_of};

use qh_words::{GenSize, Options, Text, WordsFault, read_words};
use std::alloc::{AllocError, Global};

/// `ok` and the options, or `usage`.
pub fn of_words(alloc: Global, words: &[String]) -> Result<String, AllocError>
    ensures usage { IfOk result (λ t. options_of (map string_bytes words.now) ≡ None → string_bytes t ≡ codes "usage") }
{
    match read_words(alloc, words) {
        Ok(options) => of_options(alloc, &options),
        Err(WordsFault::Usage) => String::from_str(alloc, "usage"),
        Err(WordsFault::Memory) => Err(AllocError),
    }
}

/// The options that have an effect, each with its letter or name.
fn of_options(alloc: Global, options: &Options) -> Result<String, AllocError> {
    let c = of_text(alloc, &options.circuit)?;
    let i = of_text(alloc, &options.bits)?;
    let k = of_text(alloc, &options.part)?;
    let o = of_text(alloc, &options.out)?;
    let j = of_text(alloc, &options.journal)?;
    let from = of_text(alloc, &options.from)?;
    let numbers = of_numbers(alloc, options)?;
    let (new, prob) = (options.fresh, options.prob);
    let files = format!(in alloc; "c={c} i={i} k={k} o={o} j={j} from={from}")?;
    format!(in alloc; "ok {files} {numbers} new={new} prob={prob}")
}

/// The numbers.
fn of_numbers(alloc: Global, options: &Options) -> Result<String, AllocError> {
    let w = of_optional(alloc, options.w.map(u64::from))?;
    let l = of_optional(alloc, options.lease)?;
    let g = of_size(alloc, options.generated)?;
    let (d, p, r, t) = (options.max_time, options.p, options.r, options.workers);
    format!(in alloc; "d={d} p={p} r={r} w={w} t={t} l={l} g={g}")
}

/// A text in hex behind a point, or `-` where it is absent.
fn of_text(alloc: Global, text: &Option<Text>) -> Result<String, AllocError> {
    let Some(text) = text else {
        return String::from_str(alloc, "-");
    };
    let bytes = text.as_str().as_bytes().to_vec(alloc)?;
    let digits = hex::encode(alloc, bytes)?;
    format!(in alloc; ".{digits}")
}

/// A number, or `-` where it is absent.
fn of_optional(alloc: Global, number: Option<u64>) -> Result<String, AllocError> {
    match number {
        Some(number) => format!(in alloc; "{number}"),
        None => String::from_str(alloc, "-"),
    }
}

/// The size of a generated circuit, or `-` where there is none.
fn of_size(alloc: Global, size: Option<GenSize>) -> Result<String, AllocError> {
    let Some(size) = size else {
        return String::from_str(alloc, "-");
    };
    let (start, rows, cols, depth) = (size.start, size.rows, size.cols, size.depth);
    format!(in alloc; "{start},{rows},{cols},{depth}")
}
