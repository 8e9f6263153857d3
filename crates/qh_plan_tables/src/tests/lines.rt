//! Tables of texts, lines and words.
use qh_text::{ContentLines, is_passed_over, next_line, next_word, trimmed};

#[test]
fn cuts_texts_into_lines(rt: HostRuntime) {
    for (text, lines) in [
        ("", ["-", "-", "-"]),
        ("a", ["a", "-", "-"]),
        ("a\n", ["a", "-", "-"]),
        ("\n", ["", "-", "-"]),
        ("\n\nb", ["", "", "b"]),
        ("a\r\nb\r\n\r", ["a", "b", ""]),
        ("a\rb\r\r\n\r", ["a\rb\r", "", "-"]),
        (" a\n\tb \n", [" a", "\tb ", "-"]),
    ] {
        let mut rest = text.as_bytes();
        for line in lines {
            match next_line(rest) {
                Some((found, more)) => {
                    assert_eq!(rt; found, line.as_bytes(), "in {text:?}");
                    rest = more;
                }
                None => assert_eq!(rt; line, "-", "in {text:?}"),
            }
        }
        assert!(rt; rest.is_empty(), "in {text:?}");
    }
}

#[test]
fn numbers_the_lines_that_count(rt: HostRuntime) {
    for (text, lines) in [
        ("", [(0, ""), (0, "")]),
        ("\n \t \r\n# a\n\t#", [(0, ""), (0, "")]),
        ("# a\r\n2\r\n\r\n 0 h 0 \r\n", [(2, "2"), (4, " 0 h 0 ")]),
        ("a #\n\nb", [(1, "a #"), (3, "b")]),
    ] {
        let mut content = ContentLines::new(text.as_bytes());
        for (number, bytes) in lines {
            match content.next() {
                Some(line) => {
                    assert_eq!(rt; line.number, number, "in {text:?}");
                    assert_eq!(rt; line.bytes, bytes.as_bytes(), "in {text:?}");
                }
                None => assert_eq!(rt; number, 0, "in {text:?}"),
            }
        }
        assert!(rt; content.next().is_none(), "in {text:?}");
    }
}

#[test]
fn cuts_lines_into_words(rt: HostRuntime) {
    for (line, words, inside, passed) in [
        ("", ["-", "-"], "", true),
        (" \t", ["-", "-"], "", true),
        ("#", ["#", "-"], "#", true),
        ("\t#a b ", ["#a", "b"], "#a b", true),
        ("b #", ["b", "#"], "b #", false),
        (" 0\t\th ", ["0", "h"], "0\t\th", false),
        ("\ra\u{b}", ["\ra\u{b}", "-"], "\ra\u{b}", false),
    ] {
        let mut rest = line.as_bytes();
        for word in words {
            match next_word(rest) {
                Some((found, more)) => {
                    assert_eq!(rt; found, word.as_bytes(), "in {line:?}");
                    rest = more;
                }
                None => assert_eq!(rt; word, "-", "in {line:?}"),
            }
        }
        assert!(rt; next_word(rest).is_none(), "in {line:?}");
        assert_eq!(rt; trimmed(line.as_bytes()), inside.as_bytes(), "in {line:?}");
        assert_eq!(rt; is_passed_over(line.as_bytes()), passed, "in {line:?}");
    }
}
