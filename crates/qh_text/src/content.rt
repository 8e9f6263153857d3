//! The lines of a text that are not passed over, one after the other.

ghost use Rattle.std.specs.Prelude.{◌≡◌, ◌+◌, ◌^◌, ◌<◌, ◌∷◌, [], length, IfSome, MatchOption};
ghost use Rattle.qh_text.specs.Lines.{content_from, content_of};

use crate::line::{is_passed_over, next_line};
use std::marker::Model;

/// A line of a text with its number. The first line of a text has the number 1.
#[derive(Clone, Copy)]
pub struct Line<'a> {
    pub number: u64,
    pub bytes: &'a [u8],
}

/// Gives the lines of a text that are neither blank nor comments, in order, each with its number.
#[derive(Drop)]
pub struct ContentLines<'a> {
    rest: &'a [u8],
    before: u64,
}

impl<'a> Model for ContentLines<'a> {
    ghost use Rattle.std.specs.Prelude.{ℕ, ◌+◌, ◌^◌, ◌<◌, List, length};
    ghost use Rattle.qh_text.specs.Lines.{content_from};

    ghost Value = { List (ℕ × List ℕ) };

    ghost view = { λ lines. content_from (lines.before + 1) lines.rest.now };

    ghost invariant = { λ lines. lines.before + length lines.rest.now < 2 ^ 64 };
}

impl<'a> ContentLines<'a> {
    /// The lines of the text, from its first on.
    pub fn new(text: &'a [u8]) -> ContentLines<'a>
        ensures { result ≡ content_of text.now }
    {
        ContentLines {
            rest: text,
            before: 0,
        }
    }
}

impl<'a> Iterator for ContentLines<'a> {
    ghost use Rattle.std.specs.Iterator.{YieldsFirstBy, item_count};

    type Item = Line<'a>;

    ghost next_gives = { YieldsFirstBy (λ line. (line.number, line.bytes.now)) (λ lines. lines) };

    ghost remaining = { item_count (λ lines. lines) };

    fn next(&mut self) -> Option<Line<'a>> {
        let (line, rest) = first_content(self.rest, self.before)?;
        self.rest = rest;
        self.before = line.number;
        Some(line)
    }
}

/// The first line that is not passed over, where so many lines stand before the text, and the text behind it.
fn first_content(text: &[u8], before: u64) -> Option<(Line<'_>, &[u8])>
    requires { before + length text.now < 2 ^ 64 }
    ensures lines { MatchOption result (content_from (before + 1) text.now ≡ [])
        (λ x. content_from (before + 1) text.now ≡ (x.0.number, x.0.bytes.now) ∷ content_from (x.0.number + 1) x.1.now) }
    ensures fits { IfSome result (λ x. x.0.number + length x.1.now < 2 ^ 64) }
{
    let mut number = before;
    let mut rest = text;
    while let Some((line, more)) = next_line(rest) {
        number += 1;
        if !is_passed_over(line) {
            return Some((
                Line {
                    number,
                    bytes: line,
                },
                more,
            ));
        }
        rest = more;
    }
    None
}
