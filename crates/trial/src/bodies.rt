//! The bodies of responses, as their content and as they are sent.
ghost use Rattle.std.specs.Prelude.{◌≡◌, ◌+◌, ◌<◌, ◌≤◌, ◌++◌, length};
ghost use Rattle.std.specs.List.{repeat};
ghost use Rattle.http_exchange.specs.Chunks.{chunk, rest_chunk, last_chunk};
ghost use Rattle.trial.specs.declared.kinds.Kind.TheVariants.{Jpeg};
ghost use Rattle.trial.specs.Texts.{chunked_text};
ghost use Rattle.trial.specs.Trials.{body_of as the_body, sent_of};

use crate::heads::ROOM;
use crate::kinds::Kind;
use arrayvec::ArrayVec;
use orb_bytes::{extend, hexadecimal};

/// The most bytes of a body, and some to spare.
const BODY: usize = 8192;

/// How many bytes a chunk has, but for the one of the rest.
const CHUNK: usize = 100;

/// The prefix, the unit so many times, and the suffix.
fn repeated(prefix: &[u8], unit: &[u8], count: usize, suffix: &[u8]) -> ArrayVec<u8, BODY>
    requires prefix { length prefix.now ≤ 8 }
    requires unit { length unit.now ≤ 8 }
    requires count { count ≤ 1009 }
    requires suffix { length suffix.now ≤ 8 }
    ensures { result.items ≡ prefix.now ++ (repeat count unit.now ++ suffix.now) }
{
    let mut body = ArrayVec::new();
    extend(&mut body, prefix);
    'units: for _ in 0..count {
        extend(&mut body, unit);
    }
    extend(&mut body, suffix);
    body
}

/// The content of a response of the kind, repeated as far as `size` says.
#[tactic(auto, unfolding(crate::specs::Trials::body_of))]
pub(crate) fn body_of(kind: Kind, size: usize) -> ArrayVec<u8, BODY>
    requires { size < 1009 }
    ensures body { result.items ≡ the_body kind size }
{
    match kind {
        Kind::Javascript => repeated(b"", b"x;", size + 1, b""),
        Kind::Nosniff => repeated(b"", b"a", size + 1, b""),
        Kind::Png => repeated(b"\x89PNG\r\n\x1A\n", b"\0", size, b""),
        Kind::Script => repeated(b"", b"var a=0;", size + 1, b""),
        Kind::Json => repeated(b"[0", b",0", size, b"]"),
        Kind::Text => repeated(b"", b"a b ", size + 1, b""),
        Kind::Jpeg => repeated(b"\xFF\xD8\xFF", b"\0", size, b""),
        Kind::Media => repeated(b"OggS\0", b"\0", size, b""),
    }
}

/// Appends a chunk of these bytes.
fn append_chunk(text: &mut ArrayVec<u8, ROOM>, bytes: &[u8])
    requires few { length bytes.now ≤ 100 }
    requires room { length text.old.items + length bytes.now + 7 ≤ 8704 }
    ensures text { text.new.items ≡ text.old.items ++ chunk bytes.now }
    ensures room { length text.new.items ≤ length text.old.items + 107 }
{
    extend(text, hexadecimal(bytes.len()).as_slice());
    extend(text, b"\r\n");
    extend(text, bytes);
    extend(text, b"\r\n");
}

/// Appends the body in chunks.
fn append_chunks(text: &mut ArrayVec<u8, ROOM>, body: &[u8])
    requires room { length text.old.items ≤ 512 }
    requires few { length body.now ≤ 2048 }
    ensures { text.new.items ≡ text.old.items ++ chunked_text 100 body.now }
{
    let mut left = body;
    'chunks: while CHUNK <= left.len() {
        let (bytes, after) = left.split_at(CHUNK);
        append_chunk(text, bytes);
        left = after;
    }
    append_rest(text, left);
}

/// Appends a chunk of the rest, where there is a rest, and the last chunk.
fn append_rest(text: &mut ArrayVec<u8, ROOM>, rest: &[u8])
    requires few { length rest.now < 100 }
    requires room { length text.old.items ≤ 8192 }
    ensures { text.new.items ≡ text.old.items ++ (rest_chunk rest.now ++ last_chunk) }
{
    append_some(text, rest);
    extend(text, b"0\r\n\r\n");
}

/// Appends a chunk of the rest, where there is a rest.
fn append_some(text: &mut ArrayVec<u8, ROOM>, rest: &[u8])
    requires few { length rest.now < 100 }
    requires room { length text.old.items ≤ 8192 }
    ensures text { text.new.items ≡ text.old.items ++ rest_chunk rest.now }
    ensures room { length text.new.items ≤ 8400 }
{
    if !rest.is_empty() {
        append_chunk(text, rest);
    }
}

/// Appends the body as a response of the kind sends it.
pub(crate) fn append_sent(text: &mut ArrayVec<u8, ROOM>, kind: Kind, body: &[u8])
    requires room { length text.old.items ≤ 512 }
    requires few { length body.now ≤ 8072 }
    requires chunked { kind ≡ Jpeg → length body.now ≤ 2048 }
    ensures { text.new.items ≡ text.old.items ++ sent_of kind body.now }
{
    match kind {
        Kind::Jpeg => append_chunks(text, body),
        _ => extend(text, body),
    }
}
