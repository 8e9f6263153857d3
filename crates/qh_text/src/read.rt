//! From bytes to the number that they spell.

ghost use Rattle.std.specs.Prelude.{◌≡◌, ◌+◌, ◌*◌, ◌-◌, ◌^◌, ◌<◌};
ghost use Rattle.std.specs.Option.{SomeIff};
ghost use Rattle.std.specs.Char.{IsAsciiDigit};
ghost use Rattle.qh_text.specs.Decimal.{IsDecimalBelow, number_below, value_of};

/// The number that the bytes spell: one or more digits `0` to `9` with a value of at most
/// 4,294,967,295. Leading zeros are accepted. None for all other bytes.
pub fn number_of(bytes: &[u8]) -> Option<u32>
    ensures spelled { SomeIff result (IsDecimalBelow (2 ^ 32) bytes.now) (value_of bytes.now) }
    ensures computed { result ≡ number_below (2 ^ 32) bytes.now }
{
    let Some(number) = wide_number_of(bytes) else {
        return None;
    };
    u32::try_from(number).ok()
}

/// As `number_of`, with a value of at most 18,446,744,073,709,551,615.
pub fn wide_number_of(bytes: &[u8]) -> Option<u64>
    ensures spelled { SomeIff result (IsDecimalBelow (2 ^ 64) bytes.now) (value_of bytes.now) }
    ensures computed { result ≡ number_below (2 ^ 64) bytes.now }
{
    if bytes.is_empty() {
        return None;
    }
    let mut number = 0u64;
    for byte in bytes {
        let Some(longer) = with_digit(number, *byte) else {
            return None;
        };
        number = longer;
    }
    Some(number)
}

/// The number with one more digit behind its own.
fn with_digit(number: u64, byte: u8) -> Option<u64>
    ensures { SomeIff result (IsAsciiDigit byte × (number * 10 + (byte - 48) < 2 ^ 64)) (number * 10 + (byte - 48)) }
{
    if !byte.is_ascii_digit() {
        return None;
    }
    number.checked_mul(10)?.checked_add(u64::from(byte - b'0'))
}
