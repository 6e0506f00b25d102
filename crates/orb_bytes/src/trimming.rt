//! Texts without the white space at their ends.
ghost use Rattle.std.specs.Prelude.{◌≡◌};
ghost use Rattle.orb_bytes.specs.Bytes.{is_one_of, is_http_whitespace, is_whitespace_byte};
ghost use Rattle.orb_bytes.specs.Bytes.{is_tab_or_space as is_tab_or_space_byte};
ghost use Rattle.orb_bytes.specs.Trim.{trimmed, without_leading, without_trailing};

/// HTTP whitespace (WHATWG Fetch 2.2).
const HTTP_WS: &[u8] = b"\t\n\r ";

/// So many equal bytes are passed at once: pages are indented by spaces.
const RUN: usize = 16;

/// The text without HTTP whitespace at its two ends (WHATWG Fetch 2.2).
pub fn trim_http_ws(text: &[u8]) -> &[u8]
    ensures { result.now ≡ trimmed is_http_whitespace text.now }
{
    trim_of(text, HTTP_WS)
}

/// The text without its leading HTTP whitespace.
pub fn trim_http_ws_start(text: &[u8]) -> &[u8]
    ensures { result.now ≡ without_leading is_http_whitespace text.now }
{
    trim_start(text, HTTP_WS)
}

/// The text without its trailing HTTP whitespace.
pub fn trim_http_ws_end(text: &[u8]) -> &[u8]
    ensures { result.now ≡ without_trailing is_http_whitespace text.now }
{
    trim_end(text, HTTP_WS)
}

/// The text without tabs and spaces at its two ends (WHATWG Fetch 2.2).
pub fn trim_tab_or_space(text: &[u8]) -> &[u8]
    ensures { result.now ≡ trimmed is_tab_or_space_byte text.now }
{
    trim_of(text, b"\t ")
}

/// The text without its leading whitespace bytes (WHATWG MIME Sniffing 3).
pub fn trim_whitespace_start(text: &[u8]) -> &[u8]
    ensures { result.now ≡ without_leading is_whitespace_byte text.now }
{
    trim_start(text, b"\t\n\x0c\r ")
}

/// The text without its leading bytes of the class.
pub fn trim_start<'t>(text: &'t [u8], class: &[u8]) -> &'t [u8]
    ensures { result.now ≡ without_leading (is_one_of class.now) text.now }
{
    let mut rest = text;
    'leading: while let [first, others @ ..] = rest
        && class.contains(first)
    {
        rest = match rest.strip_prefix(&[*first; RUN]) {
            Some(after) => after,
            None => others,
        };
    }
    rest
}

/// The text without bytes of the class at its two ends.
fn trim_of<'t>(text: &'t [u8], class: &[u8]) -> &'t [u8]
    ensures { result.now ≡ trimmed (is_one_of class.now) text.now }
{
    trim_end(trim_start(text, class), class)
}

fn trim_end<'t>(text: &'t [u8], class: &[u8]) -> &'t [u8]
    ensures { result.now ≡ without_trailing (is_one_of class.now) text.now }
{
    let mut rest = text;
    'trailing: while let [others @ .., last] = rest
        && class.contains(last)
    {
        rest = others;
    }
    rest
}

#[cfg(test)]
mod tests {
    use super::*;

    /// A text, and what is left of it without HTTP whitespace and without tabs and spaces at both ends.
    const TRIMMED: [(&[u8], &[u8], &[u8]); 4] = [
        (b" \t a b\t ", b"a b", b"a b"),
        (b"\r\na\x0c\n", b"a\x0c", b"\r\na\x0c\n"),
        (b" \t", b"", b""),
        (b"", b"", b""),
    ];

    #[test]
    fn ends_are_trimmed(rt: HostRuntime) {
        for (text, by_http, by_tab_or_space) in TRIMMED {
            assert!(rt; trim_http_ws(text) == by_http, "{text:?}");
            assert!(rt; trim_tab_or_space(text) == by_tab_or_space, "{text:?}");
        }
    }

    /// A class, a text, and the text without its leading bytes of the class.
    const LEADING: [(&[u8], &[u8], &[u8]); 5] = [
        (b"\0", b"\0\0webm\0", b"webm\0"),
        (b"\0", b" webm", b" webm"),
        (b"\t ", b"                    \t                  a ", b"a "),
        (b" ", b"                ", b""),
        (b"", b"a", b"a"),
    ];

    #[test]
    fn leading_bytes_of_a_class_are_passed(rt: HostRuntime) {
        for (class, text, rest) in LEADING {
            assert_eq!(rt; trim_start(text, class), rest, "{text:?}");
        }
        assert_eq!(rt; trim_whitespace_start(b"\x0c\r\n \x0b"), b"\x0b".as_slice());
        assert_eq!(rt; trim_http_ws_start(b"\r\n \x0c"), b"\x0c".as_slice());
    }
}
