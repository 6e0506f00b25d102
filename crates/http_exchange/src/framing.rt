//! A body on its way out, framed as it was when it came: in chunks (RFC 9112 7.1), or as it is.
ghost use Rattle.std.specs.Prelude.{◌≡◌, ◌<◌, ◌≤◌, ◌+◌, ◌++◌, [], length, vec_len, vec_capacity, IfOk, OnOk};
ghost use Rattle.orb_io.specs.Calls.{Puts};
ghost use Rattle.http_exchange.specs.Chunks.{chunk, full_chunks, count_full, rest_of, rest_chunk, last_chunk};
ghost use Rattle.http_exchange.specs.Framing.{put_of, kept_after, end_of, Gathers};

use orb_bytes::{append, hexadecimal};
use orb_io::{Failed, NoMemory, Sink, push_nonempty};
use std::alloc::Global;

/// How many bytes a chunk has, but for the one of the rest.
const CHUNK: usize = 1024;

/// A full chunk with its size line and its end.
const FULL_CHUNK: usize = CHUNK + 7;

/// How many bytes go out by one push at most, where they go out in chunks.
const BATCH: usize = 8 * FULL_CHUNK;

/// Puts a body into a sink, piece by piece. A body that is chunked goes out in chunks of 1,024 bytes, each as soon
/// as it is full, and a last one of the rest; its extensions and trailers are left out.
#[derive(Drop)]
pub struct Framer {
    chunked: bool,
    // The bytes that fill no chunk yet.
    rest: Vec<u8>,
    // Chunks on their way out, of no meaning between calls.
    text: Vec<u8>,
    ghost short: { length rest.items < 1024 },
    ghost rest_room: { 1024 ≤ vec_capacity rest },
    ghost text_room: { 8248 ≤ vec_capacity text },
}

impl Framer {
    ghost use Rattle.http_exchange.specs.Framers.{is_chunked_by, kept_by};

    /// One that has put nothing. It takes all memory that it will use: less than 10,000 bytes.
    pub fn open(alloc: Global) -> Result<Framer, NoMemory>
        ensures { IfOk result (λ f. kept_by f ≡ []) }
    {
        let (Ok(rest), Ok(text)) = (
            Vec::with_capacity(alloc, CHUNK),
            Vec::with_capacity(alloc, BATCH),
        ) else {
            return Err(NoMemory);
        };
        Ok(Framer {
            chunked: false,
            rest,
            text,
        })
    }

    /// Begins a body.
    pub fn start(&mut self, chunked: bool)
        ensures chunked { is_chunked_by self.new ≡ chunked }
        ensures rest { kept_by self.new ≡ [] }
    {
        self.chunked = chunked;
        self.rest.clear();
    }

    /// How many bytes are kept for a chunk.
    pub fn kept(&self) -> usize
        ensures value { result ≡ length (kept_by self.now) }
        ensures short { result < 1024 }
    {
        self.rest.len()
    }

    /// Puts the next piece of the body: as it is, or what it fills of chunks.
    pub fn put<O: Sink>(&mut self, piece: &[u8], sink: &mut O) -> Result<(), Failed>
        ensures puts { Puts O.Sink result sink.old sink.new (put_of (is_chunked_by self.old) (kept_by self.old) piece.now) }
        ensures rest { OnOk result
            (kept_by self.new ≡ kept_after (is_chunked_by self.old) (kept_by self.old) piece.now) }
        ensures chunked { is_chunked_by self.new ≡ is_chunked_by self.old }
    {
        if self.chunked {
            put_chunks(&mut self.rest, &mut self.text, piece, sink)
        } else {
            push_nonempty(piece, sink)
        }
    }

    /// Puts the next piece as [`Framer::put`] does, into a sink that gathers: each part of a chunk is a push.
    pub fn put_parts<O: Sink>(&mut self, piece: &[u8], sink: &mut O) -> Result<(), Failed>
        ensures puts { Puts O.Sink result sink.old sink.new (put_of (is_chunked_by self.old) (kept_by self.old) piece.now) }
        ensures rest { OnOk result
            (kept_by self.new ≡ kept_after (is_chunked_by self.old) (kept_by self.old) piece.now) }
        ensures chunked { is_chunked_by self.new ≡ is_chunked_by self.old }
    {
        if self.chunked {
            push_chunks(&mut self.rest, piece, sink)
        } else {
            push_nonempty(piece, sink)
        }
    }

    /// Puts the end of the body: nothing, or a chunk of the rest and the last chunk.
    pub fn finish<O: Sink>(&mut self, sink: &mut O) -> Result<(), Failed>
        ensures puts { Puts O.Sink result sink.old sink.new (end_of (is_chunked_by self.old) (kept_by self.old)) }
        ensures rest { kept_by self.new ≡ kept_by self.old }
        ensures chunked { is_chunked_by self.new ≡ is_chunked_by self.old }
    {
        if self.chunked {
            put_end(self.rest.as_slice(), &mut self.text, sink)
        } else {
            Ok(())
        }
    }
}

/// Puts each chunk that the piece fills after the rest, and keeps what fills none.
fn put_chunks<O: Sink>(
    rest: &mut Vec<u8>,
    text: &mut Vec<u8>,
    piece: &[u8],
    sink: &mut O,
) -> Result<(), Failed>
    requires short { length rest.old.items < 1024 }
    requires rest_room { 1024 ≤ vec_capacity rest.old }
    requires text_room { 8248 ≤ vec_capacity text.old }
    ensures puts { Puts O.Sink result sink.old sink.new (full_chunks (count_full (rest.old.items ++ piece.now)) (rest.old.items ++ piece.now)) }
    ensures rest { OnOk result (rest.new.items ≡ rest_of (rest.old.items ++ piece.now)) }
    ensures short { length rest.new.items < 1024 }
    ensures rest_room { 1024 ≤ vec_capacity rest.new }
    ensures text_room { 8248 ≤ vec_capacity text.new }
{
    let mut left = piece;
    'batches: while CHUNK - rest.len() <= left.len() {
        left = gather_chunks(rest, text, left);
        push_nonempty(text.as_slice(), sink)?;
    }
    append(rest, left);
    Ok(())
}

/// Pushes each chunk that the piece fills after the rest, part by part, and keeps what fills none.
fn push_chunks<O: Sink>(rest: &mut Vec<u8>, piece: &[u8], sink: &mut O) -> Result<(), Failed>
    requires short { length rest.old.items < 1024 }
    requires rest_room { 1024 ≤ vec_capacity rest.old }
    ensures puts { Puts O.Sink result sink.old sink.new (full_chunks (count_full (rest.old.items ++ piece.now)) (rest.old.items ++ piece.now)) }
    ensures rest { OnOk result (rest.new.items ≡ rest_of (rest.old.items ++ piece.now)) }
    ensures short { length rest.new.items < 1024 }
    ensures rest_room { 1024 ≤ vec_capacity rest.new }
{
    let mut left = piece;
    'chunks: while CHUNK - rest.len() <= left.len() {
        let (bytes, after) = left.split_at(CHUNK - rest.len());
        push_chunk(rest.as_slice(), bytes, sink)?;
        rest.clear();
        left = after;
    }
    append(rest, left);
    Ok(())
}

/// Pushes the full chunk of these bytes and those after them.
fn push_chunk<O: Sink>(prefix: &[u8], back: &[u8], sink: &mut O) -> Result<(), Failed>
    requires { length prefix.now + length back.now ≡ 1024 }
    ensures { Puts O.Sink result sink.old sink.new (chunk (prefix.now ++ back.now)) }
{
    push_nonempty(b"400\r\n", sink)?;
    push_nonempty(prefix, sink)?;
    push_nonempty(back, sink)?;
    push_nonempty(b"\r\n", sink)
}

/// Makes the text chunks of the rest and the piece after it, as many as it has room for. It gives
/// what is left of the piece.
fn gather_chunks<'p>(rest: &mut Vec<u8>, text: &mut Vec<u8>, piece: &'p [u8]) -> &'p [u8]
    requires short { length rest.old.items < 1024 }
    requires rest_room { 1024 ≤ vec_capacity rest.old }
    requires text_room { 8248 ≤ vec_capacity text.old }
    ensures gathers { Gathers rest.old.items piece.now text.new.items rest.new.items result.now }
    ensures some { 1024 ≤ length rest.old.items + length piece.now → 0 < length text.new.items }
    ensures short { length rest.new.items < 1024 }
    ensures rest_room { 1024 ≤ vec_capacity rest.new }
    ensures text_room { 8248 ≤ vec_capacity text.new }
{
    text.clear();
    let mut left = piece;
    'chunks: while CHUNK - rest.len() <= left.len() && text.len() + FULL_CHUNK <= BATCH {
        let (bytes, after) = left.split_at(CHUNK - rest.len());
        append_chunk(text, rest.as_slice(), bytes);
        rest.clear();
        left = after;
    }
    left
}

/// Appends the full chunk of these bytes and those after them, for which there is room.
fn append_chunk(text: &mut Vec<u8>, prefix: &[u8], back: &[u8])
    requires full { length prefix.now + length back.now ≡ 1024 }
    requires room { vec_len text.old + 1031 ≤ vec_capacity text.old }
    ensures chunk { text.new.items ≡ text.old.items ++ chunk (prefix.now ++ back.now) }
    ensures capacity { vec_capacity text.old ≤ vec_capacity text.new }
{
    append(text, b"400\r\n");
    append_nonempty(text, prefix);
    append(text, back);
    append(text, b"\r\n");
}

/// Appends the bytes, for which there is room: of the chunks that a piece fills only the first has some.
fn append_nonempty(text: &mut Vec<u8>, bytes: &[u8])
    requires { vec_len text.old + length bytes.now ≤ vec_capacity text.old }
    ensures items { text.new.items ≡ text.old.items ++ bytes.now }
    ensures capacity { vec_capacity text.old ≤ vec_capacity text.new }
{
    if !bytes.is_empty() {
        append(text, bytes);
    }
}

/// Puts a chunk of the rest, where there is a rest, and the last chunk, by one push.
fn put_end<O: Sink>(rest: &[u8], text: &mut Vec<u8>, sink: &mut O) -> Result<(), Failed>
    requires short { length rest.now < 1024 }
    requires room { 8248 ≤ vec_capacity text.old }
    ensures puts { Puts O.Sink result sink.old sink.new (rest_chunk rest.now ++ last_chunk) }
    ensures room { 8248 ≤ vec_capacity text.new }
{
    if rest.is_empty() {
        push_nonempty(b"0\r\n\r\n", sink)
    } else {
        gather_last_chunks(rest, text);
        push_nonempty(text.as_slice(), sink)
    }
}

/// Makes the text the chunk of a rest and the last chunk.
fn gather_last_chunks(rest: &[u8], text: &mut Vec<u8>)
    requires short { length rest.now < 1024 }
    requires room { 8248 ≤ vec_capacity text.old }
    ensures chunks { text.new.items ≡ chunk rest.now ++ last_chunk }
    ensures room { 8248 ≤ vec_capacity text.new }
{
    text.clear();
    append(text, hexadecimal(rest.len()).as_slice());
    append(text, b"\r\n");
    append(text, rest);
    append(text, b"\r\n0\r\n\r\n");
}
