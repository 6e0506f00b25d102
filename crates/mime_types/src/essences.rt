//! The type and subtype of a text, without its parameters (WHATWG MIME Sniffing 4.4).
//!
//! Whether a text is the text of a MIME type hangs on these two alone: every tail after them is
//! some list of segments. So they are found with no walk over the parameters and no memory.
ghost use Rattle.std.specs.Prelude.{IfSome, IfNone};
ghost use Rattle.mime_types.specs.Mime.{IsEssence, WritesEssence, HasNoMime, HasOneRecord};
ghost use Rattle.mime_types.specs.Reading.{ReadsEssence};

use crate::scanning::{is_nonempty_token, split_before, split_once};
use orb_bytes::{trim_http_ws, trim_http_ws_end};

/// The type and subtype of a text, as the text writes them: their letters have either case.
#[derive(Clone, Copy, Debug, PartialEq, Eq)]
pub struct Essence<'a> {
    /// What stands before the `/`.
    pub main: &'a [u8],
    /// What stands after the `/`, up to the parameters.
    pub sub: &'a [u8],
}

/// The type and subtype that the text writes; `None` exactly where it is the text of no MIME type
/// (WHATWG MIME Sniffing 4.4).
pub fn essence_of(text: &[u8]) -> Option<Essence<'_>>
    ensures found { IfSome result (λ e. IsEssence text.now e.main.now e.sub.now) }
    ensures written { IfSome result (λ e. WritesEssence text.now e.main.now e.sub.now) }
    ensures none { IfNone result (HasNoMime text.now) }
{
    let (main, sub, _) = split_essence(text)?;
    Some(Essence { main, sub })
}

/// The type and subtype that the text writes, and its tail: the empty one, or all from the first
/// `;` on.
pub(crate) fn split_essence(text: &[u8]) -> Option<(&[u8], &[u8], &[u8])>
    ensures found { IfSome result (λ x. ReadsEssence text.now x.0.now x.1.now x.2.now) }
    ensures none { IfNone result (HasNoMime text.now) }
{
    let (main, after) = split_once(b'/', trim_http_ws(text))?;
    let (field, tail) = split_before(b';', after);
    let sub = trim_http_ws_end(field);
    if is_nonempty_token(main) && is_nonempty_token(sub) {
        Some((main, sub, tail))
    } else {
        None
    }
}

/// The law that a text has one record at most, so that what is found of a text is all there is.
pub fn one_record()
    ensures { HasOneRecord }
{}

#[cfg(test)]
mod tests {
    use super::*;
    use std::test::Fail;

    /// A text, and the type and subtype of its essence.
    const ESSENCES: [(&str, &str, &str); 9] = [
        ("text/html", "text", "html"),
        ("\t text/plain;a=\"\\\"\";a=2;b=\r\n", "text", "plain"),
        ("TEXT/HTML;Charset=\"utf-8\" ;x=1 2", "TEXT", "HTML"),
        ("text/html;x=\"a,b, c\"", "text", "html"),
        ("a/b;c=\"d\\", "a", "b"),
        ("image/svg+xml ; = ;;", "image", "svg+xml"),
        ("text/javascript \t;", "text", "javascript"),
        ("*/*", "*", "*"),
        ("a/b;c/d", "a", "b"),
    ];

    #[test]
    fn finds_the_essence(rt: HostRuntime) -> Result<(), Fail> {
        for (text, main, sub) in ESSENCES {
            let found = essence_of(text.as_bytes()).ok_or("a MIME type")?;
            assert_eq!(rt; found.main, main.as_bytes(), "in {text}");
            assert_eq!(rt; found.sub, sub.as_bytes(), "in {text}");
        }
        Ok(())
    }

    /// Texts that are no MIME type.
    const OTHERS: [&str; 15] = [
        "",
        "text",
        "/",
        "text/",
        "/html",
        "text/ html",
        "text /html",
        "te xt/html",
        "text/h tml",
        "a/b/c",
        "text/;html",
        ";text/html",
        "text;a/b",
        "text/html,text/css",
        "(a)/b",
    ];

    #[test]
    fn finds_none(rt: HostRuntime) {
        for text in OTHERS {
            assert!(rt; essence_of(text.as_bytes()).is_none(), "in {text}");
        }
    }
}
