//! The table of images (WHATWG MIME Sniffing 6.1).
ghost use Rattle.std.specs.Prelude.{◌≡◌};
ghost use Rattle.signatures.specs.Rows.{image_of};

use orb_bytes::{Row, first_row};

/// The images that a window can show.
#[derive(Clone, Copy, Debug, PartialEq, Eq)]
pub enum ImageType {
    /// A Windows icon.
    Icon,
    /// A Windows cursor.
    Cursor,
    /// A BMP bitmap.
    Bmp,
    /// A GIF of 1987.
    Gif87,
    /// A GIF of 1989.
    Gif89,
    /// A WebP image.
    Webp,
    /// A PNG image.
    Png,
    /// A JPEG image.
    Jpeg,
}

/// The rows of the table.
static IMAGE_ROWS: [Row; 8] = [
    Row {
        bytes: b"\0\0\x01\0",
        mask: b"\xff\xff\xff\xff",
    },
    Row {
        bytes: b"\0\0\x02\0",
        mask: b"\xff\xff\xff\xff",
    },
    Row {
        bytes: b"BM",
        mask: b"\xff\xff",
    },
    Row {
        bytes: b"GIF87a",
        mask: b"\xff\xff\xff\xff\xff\xff",
    },
    Row {
        bytes: b"GIF89a",
        mask: b"\xff\xff\xff\xff\xff\xff",
    },
    Row {
        bytes: b"RIFF\0\0\0\0WEBPVP",
        mask: b"\xff\xff\xff\xff\0\0\0\0\xff\xff\xff\xff\xff\xff",
    },
    Row {
        bytes: b"\x89PNG\r\n\x1a\n",
        mask: b"\xff\xff\xff\xff\xff\xff\xff\xff",
    },
    Row {
        bytes: b"\xff\xd8\xff",
        mask: b"\xff\xff\xff",
    },
];

/// What each row shows.
static IMAGE_TYPES: [ImageType; 8] = [
    ImageType::Icon,
    ImageType::Cursor,
    ImageType::Bmp,
    ImageType::Gif87,
    ImageType::Gif89,
    ImageType::Webp,
    ImageType::Png,
    ImageType::Jpeg,
];

/// The image that the window shows: the first row of WHATWG MIME Sniffing 6.1 that matches; `None`
/// exactly where no row does.
#[tactic(auto, unfolding(crate::specs::Rows::image_rows))]
pub fn image_type(window: &[u8]) -> Option<ImageType>
    ensures { result ≡ image_of window.now }
{
    let index = first_row(&IMAGE_ROWS, window)?;
    IMAGE_TYPES.get(index).copied()
}

#[cfg(test)]
mod tests {
    use super::*;

    /// A window, and the image that it shows.
    const IMAGES: [(&[u8], ImageType); 8] = [
        (b"\0\0\x01\0", ImageType::Icon),
        (b"\0\0\x02\0", ImageType::Cursor),
        (b"BM", ImageType::Bmp),
        (b"GIF87a", ImageType::Gif87),
        (b"GIF89a", ImageType::Gif89),
        (b"RIFF\x24\0\0\0WEBPVP", ImageType::Webp),
        (b"\x89PNG\x0d\x0a\x1a\x0a", ImageType::Png),
        (b"\xff\xd8\xff", ImageType::Jpeg),
    ];

    #[test]
    fn each_image_is_told_by_its_bytes(rt: HostRuntime) {
        for (window, kind) in IMAGES {
            assert_eq!(rt; image_type(window), Some(kind), "{window:?}");
            if let [shorter @ .., _] = window {
                assert_eq!(rt; image_type(shorter), None, "{shorter:?}");
            }
        }
    }

    /// Windows that show none.
    const NO_IMAGES: [&[u8]; 6] = [
        b"",
        b"GIF88a",
        b" GIF89a",
        b"RIFF\x24\0\0\0WEBPVX",
        b"RIFF\x24\0\0\0WAVEVP",
        b"<svg xmlns=",
    ];

    #[test]
    fn other_windows_show_no_image(rt: HostRuntime) {
        for window in NO_IMAGES {
            assert_eq!(rt; image_type(window), None, "{window:?}");
        }
    }
}
