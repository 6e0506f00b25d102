//! Decimal numbers.
ghost use Rattle.std.specs.Prelude.{◌≡◌};
ghost use Rattle.std.specs.Prelude.{decimal as decimal_text};
ghost use Rattle.orb_bytes.specs.Decimal.{decimal_of};

use arrayvec::ArrayVec;

/// The most digits that [`read_decimal`] reads.
const MOST_DIGITS: usize = 19;

/// The number that 1 to 19 ASCII digits write; `None` exactly where the text is something else.
pub fn read_decimal(text: &[u8]) -> Option<u64>
    ensures { result ≡ decimal_of text.now }
{
    if text.is_empty() || text.len() > MOST_DIGITS {
        return None;
    }
    let mut number = 0u64;
    for b in text {
        if !b.is_ascii_digit() {
            return None;
        }
        number = number * 10 + u64::from(*b - b'0');
    }
    Some(number)
}

/// The decimal digits of the number, without leading zeros.
pub fn decimal(n: u64) -> ArrayVec<u8, 20>
    ensures { result.items ≡ decimal_text n }
{
    let mut digits = ArrayVec::new();
    let mut buffer = itoa::Buffer::new();
    let _ = digits.try_extend_from_slice(buffer.format(n).as_bytes());
    digits
}

#[cfg(test)]
mod tests {
    use super::*;

    /// A text, and the number that it spells.
    const READ: [(&[u8], Option<u64>); 8] = [
        (b"0", Some(0)),
        (b"007", Some(7)),
        (b"9999999999999999999", Some(9_999_999_999_999_999_999)),
        (b"", None),
        (b"00000000000000000001", None),
        (b"+1", None),
        (b" 1", None),
        (b"1a", None),
    ];

    /// A number, and how it is written.
    const WRITTEN: [(u64, &[u8]); 3] = [
        (0, b"0"),
        (1024, b"1024"),
        (u64::MAX, b"18446744073709551615"),
    ];

    #[test]
    fn decimals_are_read_and_written(rt: HostRuntime) {
        for (text, number) in READ {
            assert_eq!(rt; read_decimal(text), number, "{text:?}");
        }
        for (number, text) in WRITTEN {
            assert!(rt; decimal(number).as_slice() == text, "{number}");
        }
    }
}
