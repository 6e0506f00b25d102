//! The rules of the computed type (WHATWG MIME Sniffing 7).
ghost use Rattle.std.specs.Prelude.{◌≡◌};
ghost use Rattle.std.specs.Option.{option_copied};
ghost use Rattle.mime_types.specs.Sets.{main_of, sub_of};
ghost use Rattle.computed_type.specs.Rules.{Response, type_instead as instead, is_unknown_type, is_audio_or_video_type};
ghost use Rattle.computed_type.specs.Asked.{IsAsked};

use crate::names::{image_essence, media_essence};
use crate::plain::text_or_binary;
use crate::unknown::{first_of, unknown_type};
use mime_types::{Essence, is_among, is_html, is_xml};
use orb_bytes::eq_ignore_case;
use signatures::{image_type, media_type};

/// The essence that takes the place of the one that the head states, if one does. `plain` says that the head states what
/// servers write without knowing the type.
#[tactic(auto, unfolding(crate::specs::Rules::type_instead, crate::specs::Rules::rules_of))]
pub(crate) fn type_instead(
    supplied: &Essence,
    nosniff: bool,
    plain: bool,
    window: &[u8],
) -> Option<&'static [u8]>
    ensures { (r : Response) → IsAsked r supplied.now nosniff plain window.now → option_copied result ≡ instead r }
{
    let is_image = eq_ignore_case(supplied.main, b"image");
    first_of(&[
        (is_unknown(supplied), Some(unknown_type(nosniff, window))),
        (nosniff, None),
        (plain, Some(text_or_binary(window))),
        (is_xml(supplied) | is_html(supplied), None),
        (
            is_image & image_type(window).is_some(),
            image_essence(window),
        ),
        (
            is_audio_or_video(supplied) & media_type(window).is_some(),
            media_essence(window),
        ),
        (true, None),
    ])
}

/// Whether the essence states no type.
#[tactic(auto, unfolding(crate::specs::Rules::unknown_essences))]
fn is_unknown(e: &Essence) -> bool
    ensures { result ≡ is_unknown_type (main_of e.now) (sub_of e.now) }
{
    is_among(e, &[("unknown", "unknown"), ("application", "unknown")])
}

/// Whether it is an audio or video MIME type (WHATWG MIME Sniffing 4.6).
#[tactic(auto, unfolding(crate::specs::Rules::is_audio_or_video_type))]
fn is_audio_or_video(e: &Essence) -> bool
    ensures { result ≡ is_audio_or_video_type (main_of e.now) (sub_of e.now) }
{
    eq_ignore_case(e.main, b"audio")
        || eq_ignore_case(e.main, b"video")
        || is_among(e, &[("application", "ogg")])
}
