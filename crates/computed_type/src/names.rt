//! The essences of what signatures show.
ghost use Rattle.std.specs.Prelude.{◌≡◌};
ghost use Rattle.std.specs.Option.{option_copied};
ghost use Rattle.computed_type.specs.Names.{image_essence as essence_of_image, media_essence as essence_of_media};

use signatures::{ImageType, MediaType, image_type, media_type};

/// The essence of the image that the window shows.
#[tactic(auto, unfolding(crate::specs::Names::image_name))]
pub(crate) fn image_essence(window: &[u8]) -> Option<&'static [u8]>
    ensures { option_copied result ≡ essence_of_image window.now }
{
    match image_type(window)? {
        ImageType::Icon | ImageType::Cursor => Some(b"image/x-icon"),
        ImageType::Bmp => Some(b"image/bmp"),
        ImageType::Gif87 | ImageType::Gif89 => Some(b"image/gif"),
        ImageType::Webp => Some(b"image/webp"),
        ImageType::Png => Some(b"image/png"),
        ImageType::Jpeg => Some(b"image/jpeg"),
    }
}

/// The essence of the audio or video that the window shows.
#[tactic(auto, unfolding(crate::specs::Names::media_name))]
pub(crate) fn media_essence(window: &[u8]) -> Option<&'static [u8]>
    ensures { option_copied result ≡ essence_of_media window.now }
{
    match media_type(window)? {
        MediaType::Aiff => Some(b"audio/aiff"),
        MediaType::MpegTag | MediaType::MpegFrame => Some(b"audio/mpeg"),
        MediaType::Ogg => Some(b"application/ogg"),
        MediaType::Midi => Some(b"audio/midi"),
        MediaType::Avi => Some(b"video/avi"),
        MediaType::Wave => Some(b"audio/wave"),
        MediaType::Mp4 => Some(b"video/mp4"),
        MediaType::Webm => Some(b"video/webm"),
    }
}
