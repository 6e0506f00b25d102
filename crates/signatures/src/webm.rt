//! WebM (WHATWG MIME Sniffing 6.2.2).
ghost use Rattle.std.specs.Prelude.{◌≡◌, ◌↔◌, IsTrue, ◌==◌};
ghost use Rattle.signatures.specs.Patterns.{some_below};
ghost use Rattle.signatures.specs.Webm.{IsWebm, is_webm_window, is_webm_doc_type, is_webm_offset};

use crate::patterns::{from_offset, stands_at};
use orb_bytes::trim_start;

/// Whether the window begins with an EBML header and names the DocType `webm` soon after it.
#[tactic(auto, unfolding(crate::specs::Webm::is_webm_window))]
pub fn is_webm(window: &[u8]) -> bool
    ensures test { result ≡ is_webm_window window.now }
    ensures signature { IsTrue result ↔ IsWebm window.now }
{
    stands_at(b"\x1a\x45\xdf\xa3", 0, window) && has_webm_doc_type(window)
}

/// Whether a DocType `webm` stands at an offset from 4 and below 38.
fn has_webm_doc_type(window: &[u8]) -> bool
    ensures { result ≡ some_below 38 (is_webm_offset window.now) }
{
    for offset in 4..38 {
        if is_doc_type(from_offset(offset, window)) {
            return true;
        }
    }
    false
}

/// Whether the text begins with a DocType `webm`.
fn is_doc_type(text: &[u8]) -> bool
    ensures { result ≡ is_webm_doc_type text.now }
{
    match text {
        [0x42, 0x82, first, rest @ ..] if *first != 0 => {
            let name = from_offset(first.leading_zeros() as usize, rest);
            trim_start(name, b"\0").starts_with(b"webm")
        }
        _ => false,
    }
}

#[cfg(test)]
mod tests {
    use super::*;

    /// A window, and whether it is WebM.
    const DOC_TYPES: [(&[u8], bool); 9] = [
        (b"\x1a\x45\xdf\xa3\x9f\x42\x82\x84webm", true),
        // as a muxer writes it
        (
            b"\x1a\x45\xdf\xa3\x9f\x42\x86\x81\x01\x42\xf7\x81\x01\x42\xf2\x81\x04\x42\xf3\x81\x08\x42\x82\x84webm\x42\x87\x81\x02",
            true,
        ),
        (b"\x1a\x45\xdf\xa3\x42\x82\x40\x04webm", true),
        (b"\x1a\x45\xdf\xa3\x42\x82\x86\0\0webm", true),
        (b"\x1a\x45\xdf\xa3\x42\x82\0\x84webm", false),
        (b"\x1a\x45\xdf\xa3\x42\x82\x88matroska", false),
        (b"\x1a\x45\xdf\xa3\x42\x82\x84web", false),
        (b"\x1a\x45\xdf\xa2\x42\x82\x84webm", false),
        (b"\x1a\x45\xdf\xa3\x42\x82", false),
    ];

    #[test]
    fn doc_types_are_read_after_the_header(rt: HostRuntime) {
        for (window, matches) in DOC_TYPES {
            assert_eq!(rt; is_webm(window), matches, "{window:?}");
        }
    }

    #[test]
    fn doc_types_are_sought_below_place_38(rt: HostRuntime) {
        for (offset, matches) in [(4, true), (37, true), (38, false)] {
            let mut window = [0xec; 48];
            window[..4].copy_from_slice(b"\x1a\x45\xdf\xa3");
            window[offset..offset + 7].copy_from_slice(b"\x42\x82\x84webm");
            assert_eq!(rt; is_webm(&window), matches, "{offset}");
        }
    }
}
