//! The lines of a text.

ghost use Rattle.std.specs.Prelude.{◌≡◌, ◌<◌, ◌≤◌, ◌∷◌, [], length, IfSome, MatchOption};
ghost use Rattle.std.specs.List.{after_first, before_first, position_or_len};
ghost use Rattle.std.specs.Str.Lines.{strip_carriage_return};
ghost use Rattle.qh_text.specs.Lines.{is_line_feed, lines_of};
ghost use Rattle.qh_text.specs.LineWords.{is_passed_over};

use crate::word::next_word;

/// How many bytes stand in front of the first LF.
fn line_length(text: &[u8]) -> usize
    ensures value { result ≡ position_or_len is_line_feed text.now }
    ensures within { result ≤ length text.now }
{
    text.iter().take_while(|byte| **byte != b'\n').count()
}

/// The line without a CR at its end.
fn without_return(line: &[u8]) -> &[u8]
    ensures { result.now ≡ strip_carriage_return line.now }
{
    match line {
        [front @ .., b'\r'] => front,
        _ => line,
    }
}

/// The first line of a text, without its end, and the text behind it. None exactly where the text is empty.
pub fn next_line(text: &[u8]) -> Option<(&[u8], &[u8])>
    ensures lines { MatchOption result (lines_of text.now ≡ []) (λ x. lines_of text.now ≡ x.0.now ∷ lines_of x.1.now) }
    ensures line { IfSome result (λ x. x.0.now ≡ strip_carriage_return (before_first is_line_feed text.now)) }
    ensures behind { IfSome result (λ x. x.1.now ≡ after_first is_line_feed text.now) }
    ensures shorter { MatchOption result (text.now ≡ []) (λ x. length x.1.now < length text.now) }
{
    if text.is_empty() {
        return None;
    }
    let (line, rest) = text.split_at(line_length(text));
    match rest {
        [] => Some((without_return(line), rest)),
        [_, rest @ ..] => Some((without_return(line), rest)),
    }
}

/// Whether the line is blank or a comment.
pub fn is_passed_over(line: &[u8]) -> bool
    ensures { result ≡ is_passed_over line.now }
{
    match next_word(line) {
        None => true,
        Some((word, _)) => word[0] == b'#',
    }
}
