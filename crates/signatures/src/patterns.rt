//! Patterns of bytes under a mask (WHATWG MIME Sniffing 6).
ghost use Rattle.std.specs.Prelude.{◌≡◌, length, drop};
ghost use Rattle.signatures.specs.Patterns.{is_match, stands_at as text_stands_at};

use orb_bytes::{begins_masked, trim_whitespace_start};

/// Bytes that a window begins with, each under a mask: a bit that the mask has not is free.
#[derive(Clone, Copy, Debug)]
pub struct Pattern {
    /// What the window's bytes are under the mask.
    pub bytes: &'static [u8],
    /// The bits that count, for each byte of the pattern.
    pub mask: &'static [u8],
    /// Whether whitespace bytes before the pattern are ignored.
    pub skip_space: bool,
    ghost same_length: { length mask.now ≡ length bytes.now },
}

impl Pattern {
    /// Whether the window matches the pattern: after its leading whitespace bytes, where those are
    /// ignored, it has a byte for each of the pattern's, and that byte under the mask is the
    /// pattern's.
    pub fn matches(&self, window: &[u8]) -> bool
        ensures { result ≡ is_match self.now.bytes.now self.now.mask.now self.now.skip_space window.now }
    {
        let text = if self.skip_space {
            trim_whitespace_start(window)
        } else {
            window
        };
        begins_masked(self.bytes, self.mask, text)
    }
}

/// The window from the offset on; empty where the offset is past its end.
pub fn from_offset(offset: usize, window: &[u8]) -> &[u8]
    ensures { result.now ≡ drop offset window.now }
{
    match window.get(offset..) {
        Some(rest) => rest,
        None => &[],
    }
}

/// Whether the text stands in the window at the offset.
pub fn stands_at(text: &[u8], offset: usize, window: &[u8]) -> bool
    ensures { result ≡ text_stands_at text.now offset window.now }
{
    from_offset(offset, window).starts_with(text)
}

#[cfg(test)]
mod tests {
    use super::*;

    /// A window, and whether it is matched as it is, and after white space.
    const WINDOWS: [(&[u8], bool, bool); 8] = [
        (b"A\xffC", true, true),
        (b"a.CD", true, true),
        (b"A.c", false, false),
        (b"A.", false, false),
        (b"", false, false),
        (b" \t\n\x0c\rA.C", false, true),
        (b"\x0bA.C", false, false),
        (b" ", false, false),
    ];

    #[test]
    fn masks_and_white_space_count(rt: HostRuntime) {
        let plain = Pattern {
            bytes: b"A\0C",
            mask: b"\xdf\0\xff",
            skip_space: false,
        };
        let skipping = Pattern {
            bytes: b"A\0C",
            mask: b"\xdf\0\xff",
            skip_space: true,
        };
        for (window, as_it_is, after_space) in WINDOWS {
            assert_eq!(rt; plain.matches(window), as_it_is, "{window:?}");
            assert_eq!(rt; skipping.matches(window), after_space, "{window:?}");
        }
    }
}
