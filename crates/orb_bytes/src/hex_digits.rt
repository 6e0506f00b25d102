//! Hexadecimal numbers of at most three digits, as the sizes of chunks are written (RFC 9112 7.1).
ghost use Rattle.std.specs.Prelude.{◌≡◌, ◌<◌, ◌^◌, false};
ghost use Rattle.std.specs.Fmt.{digits, digit_glyph};

use arrayvec::ArrayVec;

/// The number in lowercase hexadecimal digits, without leading zeros.
pub fn hexadecimal(number: usize) -> ArrayVec<u8, 3>
    requires { number < 16 ^ 3 }
    ensures { result.items ≡ digits 16 false number }
{
    let mut text = ArrayVec::new();
    let last = digit(number % 16);
    if number < 16 {
        text.push(last);
        return text;
    }
    let middle = digit(number / 16 % 16);
    if number < 256 {
        text.push(middle);
        text.push(last);
        return text;
    }
    text.push(digit(number / 256));
    text.push(middle);
    text.push(last);
    text
}

/// The digit of a number below 16.
fn digit(value: usize) -> u8
    requires { value < 16 }
    ensures { result ≡ digit_glyph false value }
{
    if value < 10 {
        b'0' + value as u8
    } else {
        b'a' + (value as u8 - 10)
    }
}
