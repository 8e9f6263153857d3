//! What no clause can say: that the definitions mean what a person reads, and that a text grows with memory at hand.
use qh_text::{cut_at, find, index_of, is_bitstring, push_bits, push_number, push_word};
use std::process::Abort;
use std::test::Fail;

#[test]
fn indices_are_spelled_and_named(rt: HostRuntime) -> Result<(), Fail> {
    for (string, index) in [
        ("", 0),
        ("0", 0),
        ("1", 1),
        ("10", 1),
        ("01", 2),
        ("0011", 12),
        ("0111111111111111111111111111111111111111", 1099511627774),
        (
            "1111111111111111111111111111111111111111111111111111111111111111",
            u64::MAX,
        ),
    ] {
        assert!(rt; string.len() <= 64);
        assert!(rt; is_bitstring(string.as_bytes()), "{string}");
        assert_eq!(rt; index_of(string.as_bytes()), Some(index), "{string}");
        let mut text = b"before ".to_vec(rt.alloc())?;
        push_bits(&mut text, string.len() as u32, index)?;
        let (front, spelled) = text.split_at_checked(7).ok_or("short")?;
        assert_eq!(rt; front, b"before ".as_slice(), "{string}");
        assert_eq!(rt; spelled, string.as_bytes(), "{string}");
    }
    Ok(())
}

#[test]
fn other_strings_name_no_index(rt: HostRuntime) {
    for string in ["2", "/", "0a", "a0", "0 1", " 01", "01\n", "\u{661}"] {
        assert!(rt; !is_bitstring(string.as_bytes()), "{string:?}");
        assert!(rt; string.len() <= 64);
        assert_eq!(rt; index_of(string.as_bytes()), None, "{string:?}");
    }
}

#[test]
fn texts_are_cut_at_the_first_byte(rt: HostRuntime) {
    for (text, at, pieces) in [
        ("", 0, None),
        ("abc", 3, None),
        (",", 0, Some(("", ""))),
        ("a,b", 1, Some(("a", "b"))),
        ("a,b,c", 1, Some(("a", "b,c"))),
        ("ab,", 2, Some(("ab", ""))),
    ] {
        assert_eq!(rt; find(text.as_bytes(), b','), at, "{text:?}");
        match (cut_at(text.as_bytes(), b','), pieces) {
            (None, None) => {}
            (Some((front, back)), Some((before, behind))) => {
                assert_eq!(rt; front, before.as_bytes(), "{text:?}");
                assert_eq!(rt; back, behind.as_bytes(), "{text:?}");
            }
            _ => panic!(rt; "{text:?}"),
        }
    }
}

#[test]
fn numbers_are_spelled(rt: HostRuntime) -> Result<(), Fail> {
    let mut text = b"a".to_vec(rt.alloc())?;
    push_number(&mut text, 0u32)?;
    push_word(&mut text, u32::MAX)?;
    push_word(&mut text, -907i128)?;
    push_word(&mut text, 10usize)?;
    assert_eq!(rt; text.as_slice(), b"a0 4294967295 -907 10".as_slice());
    Ok(())
}
