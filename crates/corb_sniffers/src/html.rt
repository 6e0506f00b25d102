//! HTML.
ghost use Rattle.std.specs.Prelude.{◌≡◌, IsTrue, ◌↔◌, MatchOption};
ghost use Rattle.std.specs.List.{list_any};
ghost use Rattle.orb_bytes.specs.Rows.{are_rows};
ghost use Rattle.corb_sniffers.specs.Html.{SniffsHtml, BeginsWithTag};
ghost use Rattle.corb_sniffers.specs.HtmlReading.{begins_with_ended, IsNoSpace, IsNoComment, IsAfterComment, SniffsAlike};

use memchr::memmem;
use orb_bytes::{Row, Walk, is_tag_end, trim_whitespace_start};

/// The tags that confirm HTML (WHATWG MIME Sniffing 7.1, without the comment). A mask of DF takes a letter in either case.
static TAGS: [Row; 16] = [
    Row {
        bytes: b"<!DOCTYPE HTML",
        mask: b"\xff\xff\xdf\xdf\xdf\xdf\xdf\xdf\xdf\xff\xdf\xdf\xdf\xdf",
    },
    Row {
        bytes: b"<HTML",
        mask: b"\xff\xdf\xdf\xdf\xdf",
    },
    Row {
        bytes: b"<HEAD",
        mask: b"\xff\xdf\xdf\xdf\xdf",
    },
    Row {
        bytes: b"<SCRIPT",
        mask: b"\xff\xdf\xdf\xdf\xdf\xdf\xdf",
    },
    Row {
        bytes: b"<IFRAME",
        mask: b"\xff\xdf\xdf\xdf\xdf\xdf\xdf",
    },
    Row {
        bytes: b"<H1",
        mask: b"\xff\xdf\xff",
    },
    Row {
        bytes: b"<DIV",
        mask: b"\xff\xdf\xdf\xdf",
    },
    Row {
        bytes: b"<FONT",
        mask: b"\xff\xdf\xdf\xdf\xdf",
    },
    Row {
        bytes: b"<TABLE",
        mask: b"\xff\xdf\xdf\xdf\xdf\xdf",
    },
    Row {
        bytes: b"<A",
        mask: b"\xff\xdf",
    },
    Row {
        bytes: b"<STYLE",
        mask: b"\xff\xdf\xdf\xdf\xdf\xdf",
    },
    Row {
        bytes: b"<TITLE",
        mask: b"\xff\xdf\xdf\xdf\xdf\xdf",
    },
    Row {
        bytes: b"<B",
        mask: b"\xff\xdf",
    },
    Row {
        bytes: b"<BODY",
        mask: b"\xff\xdf\xdf\xdf\xdf",
    },
    Row {
        bytes: b"<BR",
        mask: b"\xff\xdf\xdf",
    },
    Row {
        bytes: b"<P",
        mask: b"\xff\xdf",
    },
];

/// Whether the window is white space and comments and then a tag that confirms HTML, with a byte after it that ends it.
pub fn sniffs_html(window: &[u8]) -> bool
    ensures { IsTrue result ↔ SniffsHtml window.now }
{
    begins_with_tag(after_pieces(window))
}

/// The window from its first byte that is neither white space nor in a comment.
fn after_pieces(window: &[u8]) -> &[u8]
    ensures alike { SniffsAlike window.now result.now }
    ensures no_space { IsNoSpace result.now }
    ensures no_comment { IsNoComment result.now }
{
    let mut rest = trim_whitespace_start(window);
    'comments: while let Some(after) = after_comment(rest) {
        rest = trim_whitespace_start(after);
    }
    rest
}

/// What follows the comment with which the text begins; `None` exactly where it begins with none.
fn after_comment(text: &[u8]) -> Option<&[u8]>
    ensures { MatchOption result (IsNoComment text.now) (λ rest. IsAfterComment text.now rest.now) }
{
    let inside = text.strip_prefix(b"<!--")?;
    let end = memmem::find(inside, b"-->")?;
    Some(&inside[end + 3..])
}

/// Whether the text begins with a tag that confirms HTML, its letters in either case, and a byte that ends it
/// (WHATWG MIME Sniffing 7.1, without the comment).
pub fn begins_with_tag(text: &[u8]) -> bool
    ensures { IsTrue result ↔ BeginsWithTag text.now }
{
    begins_with_row(&TAGS, text)
}

/// Whether the text begins with a row and then a byte that ends a tag.
fn begins_with_row(rows: &'static [Row], text: &[u8]) -> bool
    requires { IsTrue (are_rows rows.now) }
    ensures { result ≡ list_any (begins_with_ended text.now) rows.now }
{
    let mut walk = Walk::new(rows);
    for b in text {
        if walk.just_whole() && is_tag_end(*b) {
            return true;
        }
        if !walk.is_open() {
            return false;
        }
        walk.feed(*b);
    }
    false
}
