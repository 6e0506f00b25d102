//! MP4 (WHATWG MIME Sniffing 6.2.1).
ghost use Rattle.std.specs.Prelude.{◌≡◌, ◌↔◌, IsTrue, ◌≤◌, length, List, ℕ};
ghost use Rattle.signatures.specs.Mp4.{IsMp4, is_mp4_window, has_compatible_mp4 as has_mp4};

use crate::patterns::stands_at;

/// Whether the window begins with an `ftyp` box, inside the window, that names the brand `mp4`.
#[tactic(auto, unfolding(crate::specs::Mp4::is_mp4_window))]
pub fn is_mp4(window: &[u8]) -> bool
    ensures test { result ≡ is_mp4_window window.now }
    ensures signature { IsTrue result ↔ IsMp4 window.now }
{
    let [a, b, c, d, ..] = window else {
        return false;
    };
    let size = u32::from_be_bytes([*a, *b, *c, *d]) as usize;
    window.len() >= 12
        && size % 4 == 0
        && size <= window.len()
        && stands_at(b"ftyp", 4, window)
        && (stands_at(b"mp4", 8, window) || has_compatible_mp4(size, window))
}

/// Whether a compatible brand of a box of that size is `mp4`.
fn has_compatible_mp4(size: usize, window: &[u8]) -> bool
    requires { size ≤ length window.now }
    ensures { result ≡ has_mp4 size window.now }
{
    let mut offset = 16;
    'brands: while offset < size {
        if stands_at(b"mp4", offset, window) {
            return true;
        }
        offset += 4;
    }
    false
}

#[cfg(test)]
mod tests {
    use super::*;

    #[test]
    fn the_box_ends_inside_the_window(rt: HostRuntime) {
        let mut window = [0; 1024];
        for (size, matches) in [(1020, true), (1024, true), (1022, false), (1028, false)] {
            window[..4].copy_from_slice(&u32::to_be_bytes(size));
            window[4..12].copy_from_slice(b"ftypmp42");
            assert_eq!(rt; is_mp4(&window), matches, "{size}");
        }
    }

    /// A window, and whether it is MP4.
    const BRANDS: [(&[u8], bool); 10] = [
        (b"\0\0\0\0ftypmp4 ", true),
        (b"\0\0\0\x08ftypmp4 ", true),
        (b"\0\0\0\0ftypmp4", false),
        (b"\0\0\0\0fty mp4 ", false),
        (b"\0\0\0\x14ftypisom\0\0\0\0mp41", true),
        (b"\0\0\0\x18ftypisom\0\0\0\0avc1mp41", true),
        (b"\0\0\0\x14ftypisommp41isom", false),
        (b"\0\0\0\x14ftypisom\0\0\0\0isommp41", false),
        (b"\0\0\0\x18ftypisom\0\0\0\0 mp4isom", false),
        (b"\0\0\0\x14moovmp42\0\0\0\0mp41", false),
    ];

    #[test]
    fn brands_are_sought_where_they_stand(rt: HostRuntime) {
        for (window, matches) in BRANDS {
            assert_eq!(rt; is_mp4(window), matches, "{window:?}");
        }
    }
}
