//! Signatures of images, audio and video: what type the first bytes of a body show.
//!
//! WHATWG MIME Sniffing 6 gives the tables and the signatures of MP4, WebM and MP3. They are taken as
//! a profile: an offset past the window's end never matches, the length before a WebM DocType is passed
//! over and not read, and MP3 is layer 3 alone with a second header inside the window. A window may
//! be any slice. `audio/basic`, RAR, AVIF and JPEG XL are left out: the first bytes of such a body
//! show no type. `specs/Rows` has the tables, and a file of `specs/` each of the signatures after
//! them. Nothing here takes memory or fails.
#![tactic(auto)]

mod images;
mod laws;
mod media;
mod mp3;
mod mp4;
mod patterns;
mod webm;

pub use images::{ImageType, image_type};
pub use laws::{
    match_is_by_place, mp4_test_is_signature, mpeg_test_is_signature, webm_test_is_signature,
};
pub use media::{MediaType, media_type};
pub use mp3::is_mp3;
pub use mp4::is_mp4;
pub use patterns::Pattern;
pub use webm::is_webm;
