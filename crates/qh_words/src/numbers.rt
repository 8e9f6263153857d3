//! The numbers of the options.

ghost use Rattle.std.specs.Prelude.{◌≡◌, IfSome, IsTrue, codes, is_some, option_map};
ghost use Rattle.std.specs.Option.{SomeIff, option_copied};
ghost use Rattle.qh_limits.specs.Limits.{max_lease, max_workers};
ghost use Rattle.qh_text.specs.Decimal.{value_of};
ghost use Rattle.qh_words.specs.Command.{value_in};
ghost use Rattle.qh_words.specs.Request.{has_numbers, is_number, is_number_from, number_or};

use crate::command::value;
use clap::ArgMatches;
use qh_limits::{MAX_CROSSING, MAX_LEASE, MAX_WORKERS};
use qh_text::number_of;

/// The numbers that the options give or leave to their defaults.
#[derive(Clone, Copy)]
pub struct Numbers {
    pub max_time: u32,
    pub p: u32,
    pub r: u32,
    pub w: Option<u32>,
    pub workers: u32,
    pub lease: Option<u64>,
}

/// The numbers of the options; None where the value of one is no decimal number of its range.
pub fn read_numbers(matches: &ArgMatches<'_>) -> Option<Numbers>
    ensures allowed { is_some result ≡ has_numbers (value_in matches.now) }
    ensures max_time { IfSome result (λ n. n.max_time ≡ number_or 4294967295 (value_in matches.now (codes "d"))) }
    ensures p { IfSome result (λ n. n.p ≡ number_or 0 (value_in matches.now (codes "p"))) }
    ensures r { IfSome result (λ n. n.r ≡ number_or 0 (value_in matches.now (codes "r"))) }
    ensures w { IfSome result (λ n. n.w ≡ option_map value_of (value_in matches.now (codes "w"))) }
    ensures workers { IfSome result (λ n. n.workers ≡ number_or 1 (value_in matches.now (codes "t"))) }
    ensures lease { IfSome result (λ n. n.lease ≡ option_map value_of (value_in matches.now (codes "l"))) }
{
    let max_time = read_number(value(matches, "d"), u32::MAX, u32::MAX)?;
    let p = read_number(value(matches, "p"), 0, MAX_CROSSING as u32)?;
    let r = read_number(value(matches, "r"), 0, MAX_CROSSING as u32)?;
    let w = read_optional(value(matches, "w"), u32::MAX)?;
    read_optional(value(matches, "v"), u32::MAX)?;
    let workers = read_workers(value(matches, "t"))?;
    let lease = read_lease(value(matches, "l"))?;
    Some(Numbers {
        max_time,
        p,
        r,
        w,
        workers,
        lease,
    })
}

/// The number of an option of at most `most`, or the default where the option is absent.
fn read_number(text: Option<&str>, default: u32, most: u32) -> Option<u32>
    ensures { let value = option_copied text.entry in
        SomeIff result (IsTrue (is_number most value)) (number_or default value) }
{
    let Some(text) = text else {
        return Some(default);
    };
    let number = number_of(text.as_bytes())?;
    if number <= most { Some(number) } else { None }
}

/// The number of an option of at most `most`, or none where the option is absent.
fn read_optional(text: Option<&str>, most: u32) -> Option<Option<u32>>
    ensures { let value = option_copied text.entry in
        SomeIff result (IsTrue (is_number most value)) (option_map value_of value) }
{
    let Some(text) = text else {
        return Some(None);
    };
    let number = number_of(text.as_bytes())?;
    if number <= most {
        Some(Some(number))
    } else {
        None
    }
}

/// How many workers run: 1 to 16, and 1 where the option is absent.
fn read_workers(text: Option<&str>) -> Option<u32>
    ensures { let value = option_copied text.entry in
        SomeIff result (IsTrue (is_number_from 1 max_workers value)) (number_or 1 value) }
{
    let number = read_number(text, 1, MAX_WORKERS)?;
    if 1 <= number { Some(number) } else { None }
}

/// The seconds of a lease, at most a day, or none where the option is absent.
fn read_lease(text: Option<&str>) -> Option<Option<u64>>
    ensures { let value = option_copied text.entry in
        SomeIff result (IsTrue (is_number max_lease value)) (option_map value_of value) }
{
    let Some(seconds) = read_optional(text, MAX_LEASE)? else {
        return Some(None);
    };
    Some(Some(u64::from(seconds)))
}
