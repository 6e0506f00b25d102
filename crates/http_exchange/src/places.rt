//! Where a reader stands in a chunked body (RFC 9112 7.1).
//!
//! A place is named for what comes next in the grammar
//!
//! ```text
//! chunked-body = *chunk last-chunk trailer-section CRLF
//! chunk        = size-line data CRLF
//! size-line    = 1*15HEXDIG [ separator *line-byte ] CRLF
//! trailer      = 1*line-byte CRLF
//! ```
//!
//! and keeps one number: the size while its line is read, then how many content bytes are left.
//! Framing bytes go through [`next`] one at a time, since a line may be cut anywhere and none is
//! kept; content bytes are passed as a slice. `Whole` and `Dead` are for good.
ghost use Rattle.std.specs.Prelude.{◌≡◌, ◌<◌, ◌≤◌, ◌^◌, false, IsTrue};
ghost use Rattle.std.specs.Char.{is_ascii_hexdigit, digit_value};
ghost use Rattle.http_exchange.specs.Places.{IsSound, is_content, is_dead, is_end, step, after_size};

use orb_bytes::is_quoted_token;

/// The most digits of a size.
const MOST_DIGITS: u8 = 15;

/// What comes next.
#[derive(Clone, Copy)]
pub(crate) enum Place {
    /// The digits of a size: so many were read, and this is their number.
    Size { size: u64, digits: u8 },
    /// What stands after the digits, up to the CR.
    SizeEnding { size: u64 },
    /// The LF of the line of a size.
    SizeLf { size: u64 },
    /// So many content bytes of a chunk, at least one.
    Data { left: u64 },
    /// The CR after a chunk.
    DataCr,
    /// The LF after a chunk.
    DataLf,
    /// A trailer, or the CR of the empty line that ends the body.
    LineStart,
    /// The rest of a trailer, up to the CR.
    TrailerLine,
    /// The LF of a trailer.
    TrailerLf,
    /// The last LF.
    LastLf,
    /// Nothing: the body has ended.
    Whole,
    /// Nothing: a byte was refused.
    Dead,
}

impl Place {
    /// Before the first byte of a body.
    pub(crate) const START: Place = Place::Size { size: 0, digits: 0 };

    /// Whether content comes next.
    pub(crate) fn is_content(&self) -> bool
        ensures { result ≡ is_content self.now }
    {
        matches!(self, Place::Data { .. })
    }

    /// Whether the body has ended.
    pub(crate) fn is_end(&self) -> bool
        ensures { result ≡ is_end self.now }
    {
        matches!(self, Place::Whole)
    }

    /// Whether a byte was refused.
    pub(crate) fn is_dead(&self) -> bool
        ensures { result ≡ is_dead self.now }
    {
        matches!(self, Place::Dead)
    }
}

/// The place after a framing byte.
pub(crate) fn next(place: Place, b: u8) -> Place
    requires framing { is_content place ≡ false }
    requires sound { IsSound place }
    ensures value { result ≡ step place b }
    ensures sound { IsSound result }
{
    match place {
        Place::Size { size, digits } => next_in_size(size, digits, b),
        Place::SizeEnding { size } => match b {
            b'\r' => Place::SizeLf { size },
            _ if is_quoted_token(b) => Place::SizeEnding { size },
            _ => Place::Dead,
        },
        Place::SizeLf { size } if b == b'\n' => after_line(size),
        Place::DataCr if b == b'\r' => Place::DataLf,
        Place::DataLf if b == b'\n' => Place::Size { size: 0, digits: 0 },
        Place::LineStart => match b {
            b'\r' => Place::LastLf,
            _ if is_quoted_token(b) => Place::TrailerLine,
            _ => Place::Dead,
        },
        Place::TrailerLine => match b {
            b'\r' => Place::TrailerLf,
            _ if is_quoted_token(b) => Place::TrailerLine,
            _ => Place::Dead,
        },
        Place::TrailerLf if b == b'\n' => Place::LineStart,
        Place::LastLf if b == b'\n' => Place::Whole,
        _ => Place::Dead,
    }
}

/// The place after a byte where digits of a size come.
fn next_in_size(size: u64, digits: u8, b: u8) -> Place
    requires few { digits ≤ 15 }
    requires fits { size < 16 ^ digits }
    ensures value { result ≡ step (Place.Size size digits) b }
    ensures sound { IsSound result }
{
    if b.is_ascii_hexdigit() {
        if digits < MOST_DIGITS {
            Place::Size {
                size: size * 16 + u64::from(hex_value(b)),
                digits: digits + 1,
            }
        } else {
            Place::Dead
        }
    } else if digits == 0 {
        Place::Dead
    } else {
        match b {
            b'\t' | b' ' | b';' => Place::SizeEnding { size },
            b'\r' => Place::SizeLf { size },
            _ => Place::Dead,
        }
    }
}

/// What a hexadecimal digit stands for.
fn hex_value(b: u8) -> u8
    requires { IsTrue (is_ascii_hexdigit b) }
    ensures value { result ≡ digit_value b }
    ensures small { result ≤ 15 }
{
    match b {
        b'0'..=b'9' => b - b'0',
        b'a'..=b'f' => b - b'a' + 10,
        _ => b - b'A' + 10,
    }
}

/// The place after the line of a size.
fn after_line(size: u64) -> Place
    ensures value { result ≡ after_size size }
    ensures sound { IsSound result }
{
    if size == 0 {
        Place::LineStart
    } else {
        Place::Data { left: size }
    }
}
