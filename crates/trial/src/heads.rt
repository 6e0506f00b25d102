//! The heads of an exchange.
ghost use Rattle.std.specs.Prelude.{◌≡◌, ◌+◌, ◌<◌, ◌≤◌, ◌++◌, [], ◌∷◌, length, codes};
ghost use Rattle.http_exchange.specs.Messages.{field_line, head_text};
ghost use Rattle.orb_bytes.specs.Ascii.{crlf};
ghost use Rattle.trial.specs.declared.kinds.Kind.TheVariants.{Media};
ghost use Rattle.trial.specs.Trials.{request_line, request_of, status_line, fields_of, content_type, content_length, whole_range as the_range};

use crate::kinds::Kind;
use arrayvec::ArrayVec;
use orb_bytes::{decimal, extend};

/// The most bytes of an exchange, and some to spare.
pub(crate) const ROOM: usize = 8704;

/// Appends a field's line.
fn append_field(text: &mut ArrayVec<u8, ROOM>, name: &[u8], value: &[u8])
    requires { length text.old.items + length name.now + length value.now + 4 ≤ 8704 }
    ensures { text.new.items ≡ text.old.items ++ field_line (name.now, value.now) }
{
    extend(text, name);
    extend(text, b": ");
    extend(text, value);
    extend(text, b"\r\n");
}

/// Writes the head of the request, whose id counts for media alone.
#[tactic(auto, unfolding(crate::specs::Trials::request_of))]
pub(crate) fn start_request(text: &mut ArrayVec<u8, ROOM>, kind: Kind, id: u64)
    requires { id < 16 }
    ensures text { text.new.items ≡ head_text request_line (request_of kind id) }
    ensures short { length text.new.items ≤ 128 }
{
    text.clear();
    extend(text, b"GET / HTTP/1.1\r\n");
    append_field(text, b"Sec-Fetch-Mode", b"no-cors");
    if kind == Kind::Media {
        append_field(text, b"Sec-Fetch-Dest", b"video");
        append_field(text, b"Orb-Media", decimal(id).as_slice());
    }
    extend(text, b"\r\n");
}

/// Appends a start line.
fn append_start(text: &mut ArrayVec<u8, ROOM>, line: &[u8])
    requires { length text.old.items + length line.now + 2 ≤ 8704 }
    ensures { text.new.items ≡ text.old.items ++ (line.now ++ crlf) }
{
    extend(text, line);
    extend(text, b"\r\n");
}

/// Appends the Content-Length, and the end of a head.
fn append_end(text: &mut ArrayVec<u8, ROOM>, n: u64)
    requires { length text.old.items ≤ 512 }
    ensures { text.new.items ≡ text.old.items ++ (field_line (content_length n) ++ crlf) }
{
    append_field(text, b"Content-Length", decimal(n).as_slice());
    extend(text, b"\r\n");
}

/// Appends the Content-Type.
fn append_type(text: &mut ArrayVec<u8, ROOM>, essence: &[u8])
    requires room { length text.old.items ≤ 512 }
    requires essence { length essence.now ≤ 32 }
    ensures { text.new.items ≡ text.old.items ++ field_line (content_type essence.now) }
{
    append_field(text, b"Content-Type", essence);
}

/// Appends the head of a response that states its type and its length.
fn append_typed(text: &mut ArrayVec<u8, ROOM>, essence: &[u8], n: u64)
    requires room { length text.old.items ≤ 128 }
    requires essence { length essence.now ≤ 32 }
    ensures { text.new.items ≡ text.old.items
        ++ head_text (codes "HTTP/1.1 200 OK") (content_type essence.now ∷ content_length n ∷ []) }
{
    append_start(text, b"HTTP/1.1 200 OK");
    append_type(text, essence);
    append_end(text, n);
}

/// Appends the head of a response that gives the range of all bytes.
fn append_range(text: &mut ArrayVec<u8, ROOM>, n: u64)
    requires some { 1 ≤ n }
    requires room { length text.old.items ≤ 128 }
    ensures { text.new.items ≡ text.old.items ++ head_text (status_line Media) (fields_of Media n) }
{
    append_start(text, b"HTTP/1.1 206 Partial Content");
    append_type(text, b"video/ogg");
    append_field(text, b"Content-Range", whole_range(n).as_slice());
    append_end(text, n);
}

/// The range of all bytes of a resource that has as many.
fn whole_range(n: u64) -> ArrayVec<u8, 64>
    requires { 1 ≤ n }
    ensures { result.items ≡ the_range n }
{
    let mut range = ArrayVec::new();
    extend(&mut range, b"bytes 0-");
    extend(&mut range, decimal(n - 1).as_slice());
    extend(&mut range, b"/");
    extend(&mut range, decimal(n).as_slice());
    range
}

/// Appends the head of a response of the kind, whose content has n bytes.
pub(crate) fn append_response(text: &mut ArrayVec<u8, ROOM>, kind: Kind, n: u64)
    requires some { 1 ≤ n }
    requires room { length text.old.items ≤ 128 }
    ensures { text.new.items ≡ text.old.items ++ head_text (status_line kind) (fields_of kind n) }
{
    match kind {
        Kind::Javascript => append_typed(text, b"text/javascript", n),
        Kind::Nosniff => {
            append_start(text, b"HTTP/1.1 200 OK");
            append_type(text, b"text/html");
            append_field(text, b"X-Content-Type-Options", b"nosniff");
            append_end(text, n);
        }
        Kind::Png => {
            append_start(text, b"HTTP/1.1 200 OK");
            append_end(text, n);
        }
        Kind::Script => append_typed(text, b"application/octet-stream", n),
        Kind::Json => append_typed(text, b"application/octet-stream", n),
        Kind::Text => append_typed(text, b"text/plain", n),
        Kind::Jpeg => {
            append_start(text, b"HTTP/1.1 200 OK");
            append_type(text, b"image/jpeg");
            append_field(text, b"Transfer-Encoding", b"chunked");
            extend(text, b"\r\n");
        }
        Kind::Media => append_range(text, n),
    }
}
