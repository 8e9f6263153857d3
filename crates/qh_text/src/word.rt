//! The words of a line.

ghost use Rattle.std.specs.Prelude.{◌≡◌, ◌<◌, ◌≤◌, ◌∷◌, ◌++◌, ◌-◌, [], length, IfSome, MatchOption};
ghost use Rattle.std.specs.List.{position_or_len, prefix_len, suffix_len};
ghost use Rattle.qh_text.specs.LineWords.{is_space, trimmed, without_spaces_before, words_of};

/// Whether the byte is a space or a tab.
fn is_space(byte: u8) -> bool
    ensures { result ≡ is_space byte }
{
    byte == b' ' || byte == b'\t'
}

/// How many spaces and tabs stand in front.
fn leading_spaces(line: &[u8]) -> usize
    ensures value { result ≡ prefix_len is_space line.now }
    ensures within { result ≤ length line.now }
{
    line.iter().take_while(|byte| is_space(**byte)).count()
}

/// How many bytes stand in front of the first space or tab.
fn word_length(line: &[u8]) -> usize
    ensures value { result ≡ position_or_len is_space line.now }
    ensures within { result ≤ length line.now }
{
    line.iter().take_while(|byte| !is_space(**byte)).count()
}

/// The line without the spaces and tabs in front.
fn without_spaces_before(line: &[u8]) -> &[u8]
    ensures { result.now ≡ without_spaces_before line.now }
{
    line.split_at(leading_spaces(line)).1
}

/// The first word of a line and what stands behind it, from the space or tab there on. None exactly where the line has
/// no word.
pub fn next_word(line: &[u8]) -> Option<(&[u8], &[u8])>
    ensures words { MatchOption result (words_of line.now ≡ []) (λ x. words_of line.now ≡ x.0.now ∷ words_of x.1.now) }
    ensures behind { IfSome result (λ x. x.0.now ++ x.1.now ≡ without_spaces_before line.now) }
    ensures not_empty { IfSome result (λ x. 0 < length x.0.now) }
{
    let rest = without_spaces_before(line);
    if rest.is_empty() {
        return None;
    }
    Some(rest.split_at(word_length(rest)))
}

/// How many bytes stand in front of the spaces and tabs at the line's end.
fn without_last_spaces(line: &[u8]) -> usize
    ensures value { result ≡ length line.now - suffix_len is_space line.now }
    ensures within { result ≤ length line.now }
{
    let mut end = line.len();
    while end > 0 && is_space(line[end - 1]) {
        end -= 1;
    }
    end
}

/// The line without the spaces and tabs at both its ends.
pub fn trimmed(line: &[u8]) -> &[u8]
    ensures { result.now ≡ trimmed line.now }
{
    let rest = without_spaces_before(line);
    rest.split_at(without_last_spaces(rest)).0
}
