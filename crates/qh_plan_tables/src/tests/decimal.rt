//! Tables of texts and their numbers.
use qh_text::{number_of, wide_number_of};

#[test]
fn reads_decimal_numbers(rt: HostRuntime) {
    for (text, number) in [
        ("0", Some(0)),
        ("7", Some(7)),
        ("907", Some(907)),
        ("007", Some(7)),
        ("00000000000000000000000000000001", Some(1)),
        ("4294967295", Some(4294967295)),
        ("4294967296", None),
        ("18446744073709551617", None),
        ("", None),
        ("+1", None),
        ("-1", None),
        (" 1", None),
        ("1 ", None),
        ("1:", None),
        ("/1", None),
        ("0x1", None),
    ] {
        assert_eq!(rt; number_of(text.as_bytes()), number, "at {text}");
    }
}

#[test]
fn reads_wide_decimal_numbers(rt: HostRuntime) {
    for (text, number) in [
        ("0", Some(0)),
        ("18446744073709551615", Some(18446744073709551615)),
        ("018446744073709551615", Some(18446744073709551615)),
        ("18446744073709551616", None),
        ("184467440737095516150", None),
        ("12-", None),
    ] {
        assert_eq!(rt; wide_number_of(text.as_bytes()), number, "at {text}");
    }
}
