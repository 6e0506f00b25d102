//! The classes of bytes that WHATWG MIME Sniffing and Fetch name.
ghost use Rattle.std.specs.Prelude.{◌≡◌};
ghost use Rattle.orb_bytes.specs.Bytes.{is_http_whitespace};
ghost use Rattle.orb_bytes.specs.Bytes.{is_tab_or_space as is_tab_or_space_byte};
ghost use Rattle.orb_bytes.specs.Bytes.{is_whitespace_byte, is_tag_terminating};
ghost use Rattle.orb_bytes.specs.Bytes.{is_token_byte, is_quoted_token_byte};

/// Whether the byte is HTTP whitespace: 09, 0A, 0D or 20.
pub fn is_http_ws(b: u8) -> bool
    ensures { result ≡ is_http_whitespace b }
{
    matches!(b, b'\t' | b'\n' | b'\r' | b' ')
}

/// Whether the byte is a tab or a space: 09 or 20.
pub fn is_tab_or_space(b: u8) -> bool
    ensures { result ≡ is_tab_or_space_byte b }
{
    matches!(b, b'\t' | b' ')
}

/// Whether the byte is a whitespace byte of MIME Sniffing 3: 09, 0A, 0C, 0D or 20.
pub fn is_space_byte(b: u8) -> bool
    ensures { result ≡ is_whitespace_byte b }
{
    matches!(b, b'\t' | b'\n' | b'\x0c' | b'\r' | b' ')
}

/// Whether the byte ends a tag's name for MIME Sniffing 3: 20 or 3E.
pub fn is_tag_end(b: u8) -> bool
    ensures { result ≡ is_tag_terminating b }
{
    matches!(b, b' ' | b'>')
}

/// Whether the byte is an HTTP token code point of MIME Sniffing 3.
pub fn is_token(b: u8) -> bool
    ensures { result ≡ is_token_byte b }
{
    b.is_ascii_alphanumeric() || b"!#$%&'*+-.^_`|~".contains(&b)
}

/// Whether the byte is an HTTP quoted-string token code point of MIME Sniffing 3: 09, 20 to 7E, or
/// 80 to FF.
pub fn is_quoted_token(b: u8) -> bool
    ensures { result ≡ is_quoted_token_byte b }
{
    matches!(b, b'\t' | b' '..=b'~' | 0x80..=0xff)
}

#[cfg(test)]
mod tests {
    use super::*;

    /// The sizes of the classes, counted in the standard.
    #[test]
    fn classes_have_their_sizes(rt: HostRuntime) {
        let mut sizes = [0; 6];
        for b in 0..=255 {
            let passed = [
                is_http_ws(b),
                is_tab_or_space(b),
                is_space_byte(b),
                is_tag_end(b),
                is_token(b),
                is_quoted_token(b),
            ];
            for (size, passes) in sizes.iter_mut().zip(passed) {
                *size = u16::saturating_add(*size, u16::from(passes));
            }
        }
        assert_eq!(rt; sizes, [4, 2, 5, 2, 77, 224]);
    }
}
