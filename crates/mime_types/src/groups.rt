//! The groups of MIME types that a filter asks for, by type and subtype alone.
//!
//! Scripts, JSON, XML, HTML and media are the groups of WHATWG MIME Sniffing 4.6; what is
//! safelisted and blocklisted is named so by the ORB proposal; the list of the types that are
//! never sniffed is this project's own. Each comparison ignores the case of ASCII letters.
ghost use Rattle.std.specs.Prelude.{◌≡◌, ◌&&◌};
ghost use Rattle.std.specs.List.{list_any};
ghost use Rattle.std.specs.Str.{str_to_ascii_lowercase};
ghost use Rattle.orb_bytes.specs.Fields.{same_name};
ghost use Rattle.mime_types.specs.Sets.{main_of, sub_of, ends_in, is_javascript_type, is_json_type, is_xml_type};
ghost use Rattle.mime_types.specs.Sets.{is_html_type, is_plain_text_type, is_safelisted_type};
ghost use Rattle.mime_types.specs.Sets.{is_blocklisted_type, is_never_sniffed_type, is_media_type};

use crate::essences::Essence;
use orb_bytes::eq_ignore_case;

const JAVASCRIPT: [(&str, &str); 16] = [
    ("application", "ecmascript"),
    ("application", "javascript"),
    ("application", "x-ecmascript"),
    ("application", "x-javascript"),
    ("text", "ecmascript"),
    ("text", "javascript"),
    ("text", "javascript1.0"),
    ("text", "javascript1.1"),
    ("text", "javascript1.2"),
    ("text", "javascript1.3"),
    ("text", "javascript1.4"),
    ("text", "javascript1.5"),
    ("text", "jscript"),
    ("text", "livescript"),
    ("text", "x-ecmascript"),
    ("text", "x-javascript"),
];

const NEVER_SNIFFED: [(&str, &str); 38] = [
    ("application", "gzip"),
    ("application", "x-gzip"),
    ("application", "x-protobuf"),
    ("application", "zip"),
    ("application", "dash+xml"),
    ("application", "msexcel"),
    ("application", "mspowerpoint"),
    ("application", "msword"),
    ("application", "msword-template"),
    ("application", "pdf"),
    ("application", "vnd.apple.mpegurl"),
    ("application", "vnd.ces-quickpoint"),
    ("application", "vnd.ces-quicksheet"),
    ("application", "vnd.ces-quickword"),
    ("application", "vnd.ms-excel"),
    ("application", "vnd.ms-excel.sheet.macroenabled.12"),
    ("application", "vnd.ms-powerpoint"),
    (
        "application",
        "vnd.ms-powerpoint.presentation.macroenabled.12",
    ),
    ("application", "vnd.ms-word"),
    ("application", "vnd.ms-word.document.12"),
    ("application", "vnd.ms-word.document.macroenabled.12"),
    ("application", "vnd.msword"),
    (
        "application",
        "vnd.openxmlformats-officedocument.presentationml.presentation",
    ),
    (
        "application",
        "vnd.openxmlformats-officedocument.presentationml.template",
    ),
    (
        "application",
        "vnd.openxmlformats-officedocument.spreadsheetml.sheet",
    ),
    (
        "application",
        "vnd.openxmlformats-officedocument.spreadsheetml.template",
    ),
    (
        "application",
        "vnd.openxmlformats-officedocument.wordprocessingml.document",
    ),
    (
        "application",
        "vnd.openxmlformats-officedocument.wordprocessingml.template",
    ),
    ("application", "vnd.presentation-openxml"),
    ("application", "vnd.presentation-openxmlm"),
    ("application", "vnd.spreadsheet-openxml"),
    ("application", "vnd.wordprocessing-openxml"),
    ("audio", "mpegurl"),
    ("multipart", "byteranges"),
    ("multipart", "signed"),
    ("text", "csv"),
    ("text", "event-stream"),
    ("text", "vtt"),
];

/// Whether it is a JavaScript MIME type (WHATWG MIME Sniffing 4.6).
#[tactic(auto, unfolding(crate::specs::Sets::javascript_essences))]
pub fn is_javascript(e: &Essence) -> bool
    ensures { result ≡ is_javascript_type (main_of e.now) (sub_of e.now) }
{
    is_among(e, &JAVASCRIPT)
}

/// Whether it is a JSON MIME type (WHATWG MIME Sniffing 4.6): one whose subtype ends in `+json`, or
/// `application/json` or `text/json`.
#[tactic(auto, unfolding(crate::specs::Sets::json_essences))]
pub fn is_json(e: &Essence) -> bool
    ensures { result ≡ is_json_type (main_of e.now) (sub_of e.now) }
{
    ends_in_ignoring_case(e.sub, b"+json")
        || is_among(e, &[("application", "json"), ("text", "json")])
}

/// Whether it is an XML MIME type (WHATWG MIME Sniffing 4.6): one whose subtype ends in `+xml`, or
/// `text/xml` or `application/xml`.
#[tactic(auto, unfolding(crate::specs::Sets::xml_essences))]
pub fn is_xml(e: &Essence) -> bool
    ensures { result ≡ is_xml_type (main_of e.now) (sub_of e.now) }
{
    ends_in_ignoring_case(e.sub, b"+xml") || is_among(e, &[("text", "xml"), ("application", "xml")])
}

/// Whether it is `text/html`.
#[tactic(auto, unfolding(crate::specs::Sets::html_essences))]
pub fn is_html(e: &Essence) -> bool
    ensures { result ≡ is_html_type (main_of e.now) (sub_of e.now) }
{
    is_among(e, &[("text", "html")])
}

/// Whether it is `text/plain`.
#[tactic(auto, unfolding(crate::specs::Sets::plain_text_essences))]
pub fn is_text_plain(e: &Essence) -> bool
    ensures { result ≡ is_plain_text_type (main_of e.now) (sub_of e.now) }
{
    is_among(e, &[("text", "plain")])
}

/// Whether the ORB proposal safelists it: a JavaScript MIME type, `text/css` or `image/svg+xml`.
#[tactic(auto, unfolding(crate::specs::Sets::style_and_image_essences))]
pub fn is_safelisted(e: &Essence) -> bool
    ensures { result ≡ is_safelisted_type (main_of e.now) (sub_of e.now) }
{
    is_javascript(e) || is_among(e, &[("text", "css"), ("image", "svg+xml")])
}

/// Whether the ORB proposal blocklists it: HTML, JSON or XML. `image/svg+xml` is safelisted as
/// well.
pub fn is_blocklisted(e: &Essence) -> bool
    ensures { result ≡ is_blocklisted_type (main_of e.now) (sub_of e.now) }
{
    is_html(e) || is_json(e) || is_xml(e)
}

/// Whether its bodies are blocked without a look at them, by this project's own list of 38 types.
#[tactic(auto, unfolding(crate::specs::Sets::never_sniffed_essences))]
pub fn is_never_sniffed(e: &Essence) -> bool
    ensures { result ≡ is_never_sniffed_type (main_of e.now) (sub_of e.now) }
{
    is_among(e, &NEVER_SNIFFED)
}

/// Whether its type is `audio`, `image` or `video`: this project's group. The standard counts `application/ogg` among
/// audio and video besides (WHATWG MIME Sniffing 4.6).
#[tactic(auto, unfolding(crate::specs::Sets::media_mains))]
pub fn is_media(e: &Essence) -> bool
    ensures { result ≡ is_media_type (main_of e.now) }
{
    ["audio", "image", "video"]
        .iter()
        .any(|main| eq_ignore_case(e.main, main.as_bytes()))
}

/// Whether it is one of these pairs of a type and a subtype, each without regard to ASCII case.
pub fn is_among(e: &Essence, essences: &[(&str, &str)]) -> bool
    ensures { result ≡ list_any
        (λ x. same_name e.now.main.now x.0.now && same_name e.now.sub.now x.1.now) essences.now }
{
    essences.iter().any(|(main, sub)| is_essence(e, main, sub))
}

/// Whether it is of this type and subtype. The subtype is asked first, since it tells more.
fn is_essence(e: &Essence, main: &str, sub: &str) -> bool
    ensures { result ≡ (same_name e.now.main.now main.now && same_name e.now.sub.now sub.now) }
{
    eq_ignore_case(e.sub, sub.as_bytes()) && eq_ignore_case(e.main, main.as_bytes())
}

/// Whether the text ends in the suffix, but for the case of its letters.
fn ends_in_ignoring_case(text: &[u8], suffix: &[u8]) -> bool
    ensures { result
        ≡ ends_in (str_to_ascii_lowercase suffix.now) (str_to_ascii_lowercase text.now) }
{
    let start = text.len().saturating_sub(suffix.len());
    eq_ignore_case(text.split_at(start).1, suffix)
}

#[cfg(test)]
mod tests {
    use super::*;

    const fn essence<'a>(main: &'a str, sub: &'a str) -> Essence<'a> {
        Essence {
            main: main.as_bytes(),
            sub: sub.as_bytes(),
        }
    }

    /// Type, subtype, safelisted, blocklisted, never sniffed, media.
    const GROUPS: [(&str, &str, bool, bool, bool, bool); 12] = [
        ("text", "javascript", true, false, false, false),
        ("Application", "X-JavaScript", true, false, false, false),
        ("text", "javascript1.6", false, false, false, false),
        ("text", "CSS", true, false, false, false),
        ("image", "svg+xml", true, true, false, true),
        ("text", "html", false, true, false, false),
        ("application", "ld+JSON", false, true, false, false),
        ("application", "json+ld", false, false, false, false),
        ("application", "dash+xml", false, true, true, false),
        ("AUDIO", "mpegurl", false, false, true, true),
        ("text", "csv", false, false, true, false),
        ("text", "plain", false, false, false, false),
    ];

    #[test]
    fn groups_overlap_as_they_should(rt: HostRuntime) {
        for (main, sub, safe, blocked, never, media) in GROUPS {
            let e = essence(main, sub);
            assert_eq!(rt; is_safelisted(&e), safe, "{main}/{sub}");
            assert_eq!(rt; is_blocklisted(&e), blocked, "{main}/{sub}");
            assert_eq!(rt; is_never_sniffed(&e), never, "{main}/{sub}");
            assert_eq!(rt; is_media(&e), media, "{main}/{sub}");
        }
    }

    #[test]
    fn each_kind_of_text_is_told(rt: HostRuntime) {
        assert!(rt; is_json(&essence("text", "json")));
        assert!(rt; is_json(&essence("a", "+json")));
        assert!(rt; !is_json(&essence("a", "json")));
        assert!(rt; is_xml(&essence("Text", "XML")));
        assert!(rt; is_xml(&essence("image", "svg+xml")));
        assert!(rt; !is_xml(&essence("a", "xml")));
        assert!(rt; is_html(&essence("text", "HTML")));
        assert!(rt; !is_html(&essence("application", "html")));
        assert!(rt; is_text_plain(&essence("text", "plain")));
        assert!(rt; !is_text_plain(&essence("text", "plain+xml")));
        assert!(rt; is_javascript(&essence("text", "LiveScript")));
    }
}
