//! Content-Range (RFC 9110 14.4).
//!
//! Other units than `bytes`, and ranges that a server says it can't satisfy, are no ranges here.
ghost use Rattle.std.specs.Prelude.{◌≡◌, ◌↔◌, ◌==◌, IfSome, IfNone, Some, List, ℕ, position};
ghost use Rattle.media_state.specs.Range.{IsRange, range_of, range_from, complete_of};
ghost use Rattle.media_state.specs.Range.{before_byte, after_byte};
ghost use Rattle.media_state.specs.declared.ranges.ContentRange.{ContentRange};

use orb_bytes::{eq_ignore_case, read_decimal, trim_tab_or_space};

/// A range of bytes of a whole.
#[derive(Clone, Copy, Debug, PartialEq, Eq)]
pub struct ContentRange {
    /// The place of its first byte, from 0.
    pub first: u64,
    /// The place of its last byte.
    pub last: u64,
    /// The number of bytes of the whole, where that is known.
    pub complete: Option<u64>,
}

/// The range that a Content-Range value stands for; `None` exactly where it stands for none.
///
/// After tabs and spaces at its ends are dropped, a value is `bytes`, ignoring case, a space,
/// `first-last/complete`, each a decimal number of 1 to 19 digits, or `*` for a whole of unknown
/// length. It ends no earlier than it begins, and inside the whole (RFC 9110 14.4).
#[tactic(auto, unfolding(crate::specs::Range::range_of))]
pub fn read_content_range(value: &[u8]) -> Option<ContentRange>
    ensures value { result ≡ range_of value.now }
    ensures range { IfSome result (λ range. IsRange value.now range) }
    ensures none { IfNone result ((range : ContentRange) → ¬ (IsRange value.now range)) }
{
    let (unit, range) = cut(b' ', trim_tab_or_space(value));
    let (first, rest) = cut(b'-', range);
    let (last, complete) = cut(b'/', rest);
    if eq_ignore_case(unit, b"bytes") {
        make_range(
            read_decimal(first),
            read_decimal(last),
            read_complete(complete),
        )
    } else {
        None
    }
}

/// Law: a value stands for one range at most.
pub fn one_range()
    ensures { (value : List ℕ) (r s : ContentRange) → IsRange value r → IsRange value s → r ≡ s }
{}

/// Law: the function of the definitions gives the range that a value stands for, where it does.
pub fn range_is_computed()
    ensures { (value : List ℕ) (range : ContentRange)
        → (range_of value ≡ Some range) ↔ IsRange value range }
{}

/// The range of these numbers, where each is one and they are in order.
fn make_range(
    first: Option<u64>,
    last: Option<u64>,
    complete: Option<Option<u64>>,
) -> Option<ContentRange>
    ensures { result ≡ range_from first last complete }
{
    let (first, last, complete) = (first?, last?, complete?);
    let is_inside = match complete {
        Some(length) => last < length,
        None => true,
    };
    if first <= last && is_inside {
        Some(ContentRange {
            first,
            last,
            complete,
        })
    } else {
        None
    }
}

/// The complete length that the text writes; `None` where it is neither a number nor `*`.
fn read_complete(text: &[u8]) -> Option<Option<u64>>
    ensures { result ≡ complete_of text.now }
{
    if text == b"*".as_slice() {
        return Some(None);
    }
    match read_decimal(text) {
        Some(length) => Some(Some(length)),
        None => None,
    }
}

/// The text before the first such byte and after it; all of it and nothing where there is none.
fn cut(stop: u8, text: &[u8]) -> (&[u8], &[u8])
    ensures before { result.0.now ≡ before_byte stop text.now }
    ensures after { result.1.now ≡ after_byte stop text.now }
{
    match place_of(stop, text) {
        Some(place) => (&text[..place], &text[place + 1..]),
        None => (text, &[]),
    }
}

/// The place of the first such byte.
fn place_of(stop: u8, text: &[u8]) -> Option<usize>
    ensures { result ≡ position (λ b. b == stop) text.now }
{
    text.iter().position(|b| *b == stop)
}

#[cfg(test)]
mod tests {
    use super::*;

    /// A value, and the first and last byte and the complete length that it states.
    const RANGES: [(&[u8], u64, u64, Option<u64>); 6] = [
        (b"bytes 0-1023/9000", 0, 1023, Some(9000)),
        (b"bytes 1024-2047/9000", 1024, 2047, Some(9000)),
        (b" \tBYTES 42-1233/*\t ", 42, 1233, None),
        (b"bytes 5-5/6", 5, 5, Some(6)),
        (b"bytes 007-08/0009", 7, 8, Some(9)),
        (
            b"bytes 0-9999999999999999998/9999999999999999999",
            0,
            9_999_999_999_999_999_998,
            Some(9_999_999_999_999_999_999),
        ),
    ];

    #[test]
    fn ranges_are_read(rt: HostRuntime) {
        for (value, first, last, complete) in RANGES {
            let range = ContentRange {
                first,
                last,
                complete,
            };
            assert_eq!(rt; read_content_range(value), Some(range), "{value:?}");
        }
    }

    /// Values that state none.
    const OTHERS: [&[u8]; 16] = [
        b"",
        b"bytes",
        b"bytes */1234",
        b"bytes 0-/9",
        b"bytes 0-4",
        b"bytes 0-4/",
        b"bytes 5-4/9",
        b"bytes 0-9/9",
        b"bytes  0-4/9",
        b"bytes 0 - 4/9",
        b"bytes=0-4/9",
        b"byte 0-4/9",
        b"bytes 0-1/9, 4-5/9",
        b"bytes 0-4/9/9",
        b"bytes -1-4/9",
        b"bytes 0-00000000000000000004/9",
    ];

    #[test]
    fn other_values_are_no_ranges(rt: HostRuntime) {
        for value in OTHERS {
            assert_eq!(rt; read_content_range(value), None, "{value:?}");
        }
    }
}
