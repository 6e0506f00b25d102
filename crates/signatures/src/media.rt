//! The table of audio and video (WHATWG MIME Sniffing 6.2), and the signatures after it.
ghost use Rattle.std.specs.Prelude.{◌≡◌};
ghost use Rattle.signatures.specs.Rows.{media_of};

use crate::mp3::is_mp3;
use crate::mp4::is_mp4;
use crate::webm::is_webm;
use orb_bytes::{Row, first_row};

/// The audio and video that a window can show.
#[derive(Clone, Copy, Debug, PartialEq, Eq)]
pub enum MediaType {
    /// An AIFF file.
    Aiff,
    /// An MP3 file that begins with an ID3 tag.
    MpegTag,
    /// An Ogg stream.
    Ogg,
    /// A standard MIDI file.
    Midi,
    /// An AVI file.
    Avi,
    /// A WAVE file.
    Wave,
    /// An MP4 file.
    Mp4,
    /// A WebM file.
    Webm,
    /// An MP3 file that begins with its first frame.
    MpegFrame,
}

/// The rows of the table.
static MEDIA_ROWS: [Row; 6] = [
    Row {
        bytes: b"FORM\0\0\0\0AIFF",
        mask: b"\xff\xff\xff\xff\0\0\0\0\xff\xff\xff\xff",
    },
    Row {
        bytes: b"ID3",
        mask: b"\xff\xff\xff",
    },
    Row {
        bytes: b"OggS\0",
        mask: b"\xff\xff\xff\xff\xff",
    },
    Row {
        bytes: b"MThd\0\0\0\x06",
        mask: b"\xff\xff\xff\xff\xff\xff\xff\xff",
    },
    Row {
        bytes: b"RIFF\0\0\0\0AVI ",
        mask: b"\xff\xff\xff\xff\0\0\0\0\xff\xff\xff\xff",
    },
    Row {
        bytes: b"RIFF\0\0\0\0WAVE",
        mask: b"\xff\xff\xff\xff\0\0\0\0\xff\xff\xff\xff",
    },
];

/// What each row shows.
static MEDIA_TYPES: [MediaType; 6] = [
    MediaType::Aiff,
    MediaType::MpegTag,
    MediaType::Ogg,
    MediaType::Midi,
    MediaType::Avi,
    MediaType::Wave,
];

/// The audio or video that the window shows: the first row of WHATWG MIME Sniffing 6.2 that matches,
/// with MP4, WebM and MP3 without ID3 after its table; `None` exactly where none does.
#[tactic(auto, unfolding(crate::specs::Rows::media_rows))]
pub fn media_type(window: &[u8]) -> Option<MediaType>
    ensures { result ≡ media_of window.now }
{
    if let Some(index) = first_row(&MEDIA_ROWS, window) {
        return MEDIA_TYPES.get(index).copied();
    }
    if is_mp4(window) {
        Some(MediaType::Mp4)
    } else if is_webm(window) {
        Some(MediaType::Webm)
    } else if is_mp3(window) {
        Some(MediaType::MpegFrame)
    } else {
        None
    }
}

#[cfg(test)]
mod tests {
    use super::*;

    /// A window, and the media type that it shows.
    const MEDIA: [(&[u8], MediaType); 9] = [
        (b"FORM\0\0\x10\0AIFF", MediaType::Aiff),
        (b"ID3", MediaType::MpegTag),
        (b"OggS\0", MediaType::Ogg),
        (b"MThd\0\0\0\x06", MediaType::Midi),
        (b"RIFF\x01\x02\x03\x04AVI ", MediaType::Avi),
        (b"RIFF\x01\x02\x03\x04WAVE", MediaType::Wave),
        (b"\0\0\0\x0cftypmp42", MediaType::Mp4),
        (b"\x1a\x45\xdf\xa3\x9f\x42\x82\x84webm", MediaType::Webm),
        // 8 kilobits at 24,000 samples a second: a frame of 24 bytes
        (
            b"\xff\xf3\x14\0\0\0\0\0\0\0\0\0\0\0\0\0\0\0\0\0\0\0\0\0\xff\xf3\x14\0",
            MediaType::MpegFrame,
        ),
    ];

    #[test]
    fn each_media_type_is_told_by_its_bytes(rt: HostRuntime) {
        for (window, kind) in MEDIA {
            assert_eq!(rt; media_type(window), Some(kind), "{window:?}");
            if let [shorter @ .., _] = window {
                assert_eq!(rt; media_type(shorter), None, "{shorter:?}");
            }
        }
    }
}
