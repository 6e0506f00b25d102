//! Recordings and words through [`run`], with the answers that are owed.

use crate::{Outcome, ServeOutcome, outcome_line, run, serve_outcome_line};
use http_exchange::BadKind;
use orb_bytes::{decimal, read_decimal};
use orb_io::{MemorySink, MemorySource};
use std::alloc::Global;
use std::process::Abort;
use std::test::Fail;

/// What fails: nothing, one pull of so many bytes at most, or one push.
#[derive(Clone, Copy)]
enum Fault {
    Calm,
    Pull { piece: usize, call: u64 },
    Push { call: u64 },
}

use BadKind::{BadChunk, BadFraming, BadHead, BadMediaId, Interim, RequestBody};
use Fault::{Calm, Pull, Push};
use Outcome::{Bad, Cut, Done, HeadLimit, MediaFull, ReadFault, WriteFault};

/// What the recording is, the words with spaces between them, what fails, the recording, the answer, and what is
/// written: texts in which `~8-10:x#~` stands for `x8x9x10`.
type Row = (
    &'static str,
    &'static str,
    Fault,
    &'static [u8],
    Outcome,
    &'static [u8],
);

/// The worked rows.
static WORKED: [Row; 61] = [
    (
        "a typed script",
        "filter",
        Calm,
        b"GET / HTTP/1.1\r\nSec-Fetch-Mode: no-cors\r\n\r\n\
         HTTP/1.1 200 OK\r\nContent-Type: text/javascript\r\nContent-Length: 2\r\n\r\n\
         x;",
        Done,
        b"HTTP/1.1 200 OK\r\nContent-Type: text/javascript\r\nContent-Length: 2\r\n\r\n\
         x;",
    ),
    (
        "a typed script",
        "explain",
        Calm,
        b"GET / HTTP/1.1\r\nSec-Fetch-Mode: no-cors\r\n\r\n\
         HTTP/1.1 200 OK\r\nContent-Type: text/javascript\r\nContent-Length: 2\r\n\r\n\
         x;",
        Done,
        b"1 allow safelisted na 2\n",
    ),
    ("no exchange", "filter", Calm, b"", Done, b""),
    ("no exchange", "explain", Calm, b"", Done, b""),
    (
        "a cut request",
        "filter",
        Calm,
        b"GET / HTTP/1.1\r\n",
        Cut { place: 0 },
        b"",
    ),
    (
        "a cut request after an exchange",
        "filter",
        Calm,
        b"GET / HTTP/1.1\r\nSec-Fetch-Mode: no-cors\r\n\r\n\
         HTTP/1.1 200 OK\r\nContent-Type: text/javascript\r\nContent-Length: 2\r\n\r\n\
         x;GET",
        Cut { place: 114 },
        b"HTTP/1.1 200 OK\r\nContent-Type: text/javascript\r\nContent-Length: 2\r\n\r\n\
         x;",
    ),
    (
        "a cut body",
        "filter",
        Calm,
        b"GET / HTTP/1.1\r\nSec-Fetch-Mode: no-cors\r\n\r\n\
         HTTP/1.1 200 OK\r\nContent-Type: text/javascript\r\nContent-Length: 2\r\n\r\n",
        Cut { place: 0 },
        b"HTTP/1.1 200 OK\r\nContent-Type: text/javascript\r\nContent-Length: 2\r\n\r\n",
    ),
    (
        "a page that is not to be sniffed",
        "filter",
        Calm,
        b"GET / HTTP/1.1\r\nSec-Fetch-Mode: no-cors\r\n\r\n\
         HTTP/1.1 200 OK\r\nContent-Type: text/html\r\nX-Content-Type-Options: nosniff\r\n\
         Content-Length: 2\r\n\r\n\
         hi",
        Done,
        b"HTTP/1.1 403 Forbidden\r\nContent-Length: 0\r\nOrb-Rule: nosniff-blocklisted\r\n\r\n",
    ),
    (
        "a long image",
        "explain",
        Calm,
        b"GET / HTTP/1.1\r\nSec-Fetch-Mode: no-cors\r\n\r\n\
         HTTP/1.1 200 OK\r\nContent-Length: 2097158\r\n\r\n\
         GIF89a~0-2097151:\0~",
        Done,
        b"1 allow image na 2097158\n",
    ),
    (
        "a long image",
        "filter",
        Calm,
        b"GET / HTTP/1.1\r\nSec-Fetch-Mode: no-cors\r\n\r\n\
         HTTP/1.1 200 OK\r\nContent-Length: 2097158\r\n\r\n\
         GIF89a~0-2097151:\0~",
        Done,
        b"HTTP/1.1 200 OK\r\nContent-Length: 2097158\r\n\r\n\
         GIF89a~0-2097151:\0~",
    ),
    (
        "an image of a browser's request",
        "explain",
        Calm,
        b"GET / HTTP/1.1\r\nHost: a\r\nUser-Agent: b\r\nAccept: */*\r\nSec-Fetch-Dest: image\r\n\
         Sec-Fetch-Mode: no-cors\r\nSec-Fetch-Site: cross-site\r\n\r\n\
         HTTP/1.1 200 OK\r\nContent-Type: image/png\r\nX-Content-Type-Options: nosniff\r\n\
         Content-Length: 3000\r\n\r\n\
         \x89PNG\r\n\x1A\n~0-2991:\0~",
        Done,
        b"1 allow image na 3000\n",
    ),
    (
        "a quoted comma across two fields",
        "explain",
        Calm,
        b"GET / HTTP/1.1\r\nSec-Fetch-Mode: no-cors\r\n\r\n\
         HTTP/1.1 200 OK\r\nContent-Type: text/html;x=\"a,b\r\nContent-Type: c\", text/css\r\n\
         Content-Length: 1\r\n\r\n\
         x",
        Done,
        b"1 allow safelisted na 1\n",
    ),
    (
        "two ranges of a medium",
        "explain",
        Calm,
        b"GET / HTTP/1.1\r\nSec-Fetch-Mode: no-cors\r\nSec-Fetch-Dest: audio\r\nOrb-Media: 7\r\n\r\n\
         HTTP/1.1 206 OK\r\nContent-Type: application/ogg\r\nContent-Range: bytes 0-1023/9000\r\n\
         Content-Length: 1024\r\n\r\n\
         OggS~0-1019:\0~\
         GET / HTTP/1.1\r\nSec-Fetch-Mode: no-cors\r\nSec-Fetch-Dest: audio\r\nOrb-Media: 7\r\n\r\n\
         HTTP/1.1 206 OK\r\nContent-Type: application/ogg\r\nContent-Range: bytes 1024-2047/9000\r\n\
         Content-Length: 1024\r\n\r\n\
         ~0-1023:\0~",
        Done,
        b"1 allow media subsequent:9000 1024\n\
         2 allow subsequent subsequent:9000 1024\n",
    ),
    (
        "a range of another whole",
        "explain",
        Calm,
        b"GET / HTTP/1.1\r\nSec-Fetch-Mode: no-cors\r\nSec-Fetch-Dest: audio\r\nOrb-Media: 7\r\n\r\n\
         HTTP/1.1 206 OK\r\nContent-Type: application/ogg\r\nContent-Range: bytes 0-1023/9000\r\n\
         Content-Length: 1024\r\n\r\n\
         OggS~0-1019:\0~\
         GET / HTTP/1.1\r\nSec-Fetch-Mode: no-cors\r\nSec-Fetch-Dest: audio\r\nOrb-Media: 7\r\n\r\n\
         HTTP/1.1 206 OK\r\nContent-Type: application/ogg\r\nContent-Range: bytes 1024-2047/9000\r\n\
         Content-Length: 1024\r\n\r\n\
         ~0-1023:\0~\
         GET / HTTP/1.1\r\nSec-Fetch-Mode: no-cors\r\nSec-Fetch-Dest: audio\r\nOrb-Media: 7\r\n\r\n\
         HTTP/1.1 206 OK\r\nContent-Type: application/ogg\r\nContent-Range: bytes 2048-3071/9001\r\n\
         Content-Length: 1024\r\n\r\n\
         ~0-1023:\0~",
        Done,
        b"1 allow media subsequent:9000 1024\n\
         2 allow subsequent subsequent:9000 1024\n\
         3 block range-mismatch subsequent:9000 1024\n",
    ),
    (
        "a length that a later range states first",
        "explain",
        Calm,
        b"GET / HTTP/1.1\r\nSec-Fetch-Mode: no-cors\r\nSec-Fetch-Dest: audio\r\nOrb-Media: 7\r\n\r\n\
         HTTP/1.1 206 OK\r\nContent-Type: application/ogg\r\nContent-Range: bytes 0-1023/*\r\n\
         Content-Length: 1024\r\n\r\n\
         OggS~0-1019:\0~\
         GET / HTTP/1.1\r\nSec-Fetch-Mode: no-cors\r\nSec-Fetch-Dest: audio\r\nOrb-Media: 7\r\n\r\n\
         HTTP/1.1 206 OK\r\nContent-Type: application/ogg\r\nContent-Range: bytes 1024-2047/9000\r\n\
         Content-Length: 1024\r\n\r\n\
         ~0-1023:\0~\
         GET / HTTP/1.1\r\nSec-Fetch-Mode: no-cors\r\nSec-Fetch-Dest: audio\r\nOrb-Media: 7\r\n\r\n\
         HTTP/1.1 206 OK\r\nContent-Type: application/ogg\r\nContent-Range: bytes 0-1023/9001\r\n\
         Content-Length: 1024\r\n\r\n\
         ~0-1023:\0~",
        Done,
        b"1 allow media subsequent 1024\n\
         2 allow subsequent subsequent:9000 1024\n\
         3 block range-mismatch subsequent:9000 1024\n",
    ),
    (
        "a first range that is none",
        "explain",
        Calm,
        b"GET / HTTP/1.1\r\nSec-Fetch-Mode: no-cors\r\nSec-Fetch-Dest: audio\r\nOrb-Media: 7\r\n\r\n\
         HTTP/1.1 206 OK\r\nContent-Type: application/ogg\r\nContent-Range: bytes 1-1024/9000\r\n\
         Content-Length: 1024\r\n\r\n\
         OggS~0-1019:\0~",
        Done,
        b"1 block bad-range initial 1024\n",
    ),
    (
        "a range that no medium asked for",
        "explain",
        Calm,
        b"GET / HTTP/1.1\r\nSec-Fetch-Mode: no-cors\r\n\r\n\
         HTTP/1.1 206 OK\r\nContent-Type: application/ogg\r\nContent-Range: bytes 0-1023/9000\r\n\
         Content-Length: 1024\r\n\r\n\
         OggS~0-1019:\0~",
        Done,
        b"1 block media-unexpected na 1024\n",
    ),
    (
        "a box past the window",
        "explain",
        Calm,
        b"GET / HTTP/1.1\r\nSec-Fetch-Mode: no-cors\r\nSec-Fetch-Dest: video\r\n\r\n\
         HTTP/1.1 200 OK\r\nContent-Type: video/mp4\r\nContent-Length: 5000\r\n\r\n\
         \0\0\x04\x04ftypmp42~0-4987:\0~",
        Done,
        b"1 block media-expected initial 5000\n",
    ),
    (
        "a box within the window",
        "explain",
        Calm,
        b"GET / HTTP/1.1\r\nSec-Fetch-Mode: no-cors\r\nSec-Fetch-Dest: video\r\n\r\n\
         HTTP/1.1 200 OK\r\nContent-Type: video/mp4\r\nContent-Length: 5000\r\n\r\n\
         \0\0\x04\0ftypmp42~0-4987:\0~",
        Done,
        b"1 allow media subsequent 5000\n",
    ),
    (
        "two frames of sound",
        "explain",
        Calm,
        b"GET / HTTP/1.1\r\nSec-Fetch-Mode: no-cors\r\nSec-Fetch-Dest: audio\r\n\r\n\
         HTTP/1.1 200 OK\r\nContent-Type: audio/mpeg\r\nContent-Length: 421\r\n\r\n\
         \xFF\xFB\x90\0~0-412:\0~\xFF\xFB\x90\0",
        Done,
        b"1 allow media subsequent 421\n",
    ),
    (
        "a frame and a cut one",
        "explain",
        Calm,
        b"GET / HTTP/1.1\r\nSec-Fetch-Mode: no-cors\r\nSec-Fetch-Dest: audio\r\n\r\n\
         HTTP/1.1 200 OK\r\nContent-Type: audio/mpeg\r\nContent-Length: 420\r\n\r\n\
         \xFF\xFB\x90\0~0-412:\0~\xFF\xFB\x90",
        Done,
        b"1 block media-expected initial 420\n",
    ),
    (
        "a padded frame",
        "explain",
        Calm,
        b"GET / HTTP/1.1\r\nSec-Fetch-Mode: no-cors\r\nSec-Fetch-Dest: audio\r\n\r\n\
         HTTP/1.1 200 OK\r\nContent-Type: audio/mpeg\r\nContent-Length: 421\r\n\r\n\
         \xFF\xFB\x92\0~0-412:\0~\xFF\xFB\x90\0",
        Done,
        b"1 block media-expected initial 421\n",
    ),
    (
        "a video by its first bytes",
        "explain",
        Calm,
        b"GET / HTTP/1.1\r\nSec-Fetch-Mode: no-cors\r\nSec-Fetch-Dest: video\r\n\r\n\
         HTTP/1.1 200 OK\r\nContent-Type: video/webm\r\nContent-Length: 12\r\n\r\n\
         \x1A\x45\xDF\xA3\x9F\x42\x82\x84webm",
        Done,
        b"1 allow media subsequent 12\n",
    ),
    (
        "chunks of one byte",
        "filter",
        Calm,
        b"GET / HTTP/1.1\r\nSec-Fetch-Mode: no-cors\r\n\r\n\
         HTTP/1.1 200 OK\r\nContent-Type: image/jpeg\r\nTransfer-Encoding: chunked\r\n\r\n\
         1\r\n\xFF\r\n1\r\n\xD8\r\n1\r\n\xFF\r\n~0-2045:1\r\n\0\r\n~0\r\n\r\n",
        Done,
        b"HTTP/1.1 200 OK\r\nContent-Type: image/jpeg\r\nTransfer-Encoding: chunked\r\n\r\n\
         400\r\n\xFF\xD8\xFF~0-1020:\0~\r\n400\r\n~0-1023:\0~\r\n1\r\n\0\r\n0\r\n\r\n",
    ),
    (
        "chunks with extensions, and a trailer",
        "filter",
        Calm,
        b"GET / HTTP/1.1\r\nSec-Fetch-Mode: no-cors\r\n\r\n\
         HTTP/1.1 200 OK\r\nContent-Type: image/jpeg\r\nTransfer-Encoding: chunked\r\n\r\n\
         1;x=\r\n\xFF\r\n1;x=\r\n\xD8\r\n1;x=\r\n\xFF\r\n~0-2045:1;x=\r\n\0\r\n~0\r\nA: b\r\n\r\n",
        Done,
        b"HTTP/1.1 200 OK\r\nContent-Type: image/jpeg\r\nTransfer-Encoding: chunked\r\n\r\n\
         400\r\n\xFF\xD8\xFF~0-1020:\0~\r\n400\r\n~0-1023:\0~\r\n1\r\n\0\r\n0\r\n\r\n",
    ),
    (
        "chunks and a trailer",
        "filter",
        Calm,
        b"GET / HTTP/1.1\r\nSec-Fetch-Mode: no-cors\r\n\r\n\
         HTTP/1.1 200 OK\r\nContent-Type: image/jpeg\r\nTransfer-Encoding: chunked\r\n\r\n\
         1\r\n\xFF\r\n1\r\n\xD8\r\n1\r\n\xFF\r\n~0-2045:1\r\n\0\r\n~0\r\nA: b\r\n\r\n",
        Done,
        b"HTTP/1.1 200 OK\r\nContent-Type: image/jpeg\r\nTransfer-Encoding: chunked\r\n\r\n\
         400\r\n\xFF\xD8\xFF~0-1020:\0~\r\n400\r\n~0-1023:\0~\r\n1\r\n\0\r\n0\r\n\r\n",
    ),
    (
        "no chunk size",
        "explain",
        Calm,
        b"GET / HTTP/1.1\r\nSec-Fetch-Mode: no-cors\r\n\r\n\
         HTTP/1.1 200 OK\r\nTransfer-Encoding: chunked\r\n\r\n\
         G",
        Bad {
            kind: BadChunk,
            place: 90,
        },
        b"",
    ),
    (
        "a method alone",
        "explain",
        Calm,
        b"GET\r\n\r\n",
        Bad {
            kind: BadHead,
            place: 0,
        },
        b"",
    ),
    (
        "a request with a body",
        "explain",
        Calm,
        b"POST / HTTP/1.1\r\nContent-Length: 1\r\n\r\n",
        Bad {
            kind: RequestBody,
            place: 0,
        },
        b"",
    ),
    (
        "a media id that is no number",
        "explain",
        Calm,
        b"GET / HTTP/1.1\r\nSec-Fetch-Mode: no-cors\r\nSec-Fetch-Dest: audio\r\nOrb-Media: x\r\n\r\n",
        Bad {
            kind: BadMediaId,
            place: 0,
        },
        b"",
    ),
    (
        "an interim response",
        "explain",
        Calm,
        b"GET / HTTP/1.1\r\nSec-Fetch-Mode: no-cors\r\n\r\n\
         HTTP/1.1 100 Continue\r\n\r\n",
        Bad {
            kind: Interim,
            place: 43,
        },
        b"",
    ),
    (
        "two lengths",
        "explain",
        Calm,
        b"GET / HTTP/1.1\r\nSec-Fetch-Mode: no-cors\r\n\r\n\
         HTTP/1.1 200 OK\r\nContent-Length: 3\r\nContent-Length: 4\r\n\r\n",
        Bad {
            kind: BadFraming,
            place: 43,
        },
        b"",
    ),
    (
        "one length twice",
        "explain",
        Calm,
        b"GET / HTTP/1.1\r\nSec-Fetch-Mode: no-cors\r\n\r\n\
         HTTP/1.1 200 OK\r\nContent-Type: text/css\r\nContent-Length: 3\r\nContent-Length: 3\r\n\r\n\
         abc",
        Done,
        b"1 allow safelisted na 3\n",
    ),
    (
        "a head over its limit",
        "filter",
        Calm,
        b"~0-65535:a~",
        HeadLimit { place: 0 },
        b"",
    ),
    (
        "a cut head",
        "filter",
        Calm,
        b"~0-65534:a~",
        Cut { place: 0 },
        b"",
    ),
    (
        "one medium too many",
        "explain",
        Calm,
        b"~0-4095:GET / HTTP/1.1\r\nSec-Fetch-Mode: no-cors\r\nSec-Fetch-Dest: audio\r\n\
         Orb-Media: #\r\n\r\n\
         HTTP/1.1 200 OK\r\nContent-Type: text/css\r\nContent-Length: 1\r\n\r\n\
         x~GET / HTTP/1.1\r\nSec-Fetch-Mode: no-cors\r\nSec-Fetch-Dest: audio\r\nOrb-Media: 5\r\n\r\n\
         HTTP/1.1 200 OK\r\nContent-Type: text/css\r\nContent-Length: 1\r\n\r\n\
         xGET / HTTP/1.1\r\nSec-Fetch-Mode: no-cors\r\nSec-Fetch-Dest: audio\r\n\
         Orb-Media: 4096\r\n\r\n\
         HTTP/1.1 200 OK\r\nContent-Type: text/css\r\nContent-Length: 1\r\n\r\n\
         x",
        MediaFull { place: 597_049 },
        b"~1-4097:# allow safelisted initial 1\n~",
    ),
    (
        "an answer to HEAD",
        "explain",
        Calm,
        b"HEAD / HTTP/1.1\r\nSec-Fetch-Mode: no-cors\r\n\r\n\
         HTTP/1.1 200 OK\r\nContent-Type: text/html\r\nX-Content-Type-Options: nosniff\r\n\
         Content-Length: 100\r\n\r\n",
        Done,
        b"1 block nosniff-blocklisted na 0\n",
    ),
    (
        "a coded body",
        "explain",
        Calm,
        b"GET / HTTP/1.1\r\nSec-Fetch-Mode: no-cors\r\n\r\n\
         HTTP/1.1 200 OK\r\nContent-Type: application/octet-stream\r\nContent-Encoding: gzip\r\n\
         Content-Length: 5\r\n\r\n\
         [1,2]",
        Done,
        b"1 block coded na 5\n",
    ),
    (
        "a coded script",
        "explain",
        Calm,
        b"GET / HTTP/1.1\r\nSec-Fetch-Mode: no-cors\r\n\r\n\
         HTTP/1.1 200 OK\r\nContent-Type: text/javascript\r\nContent-Encoding: gzip\r\n\
         Content-Length: 5\r\n\r\n\
         [1,2]",
        Done,
        b"1 allow safelisted na 5\n",
    ),
    (
        "a pull that fails in the body",
        "filter",
        Pull { piece: 50, call: 2 },
        b"GET / HTTP/1.1\r\nSec-Fetch-Mode: no-cors\r\n\r\n\
         HTTP/1.1 200 OK\r\nContent-Type: text/javascript\r\nContent-Length: 2\r\n\r\n\
         x;",
        ReadFault,
        b"",
    ),
    (
        "a pull that fails after the body",
        "filter",
        Pull { piece: 57, call: 2 },
        b"GET / HTTP/1.1\r\nSec-Fetch-Mode: no-cors\r\n\r\n\
         HTTP/1.1 200 OK\r\nContent-Type: text/javascript\r\nContent-Length: 2\r\n\r\n\
         x;",
        ReadFault,
        b"HTTP/1.1 200 OK\r\nContent-Type: text/javascript\r\nContent-Length: 2\r\n\r\n\
         x;",
    ),
    (
        "a first pull that fails",
        "filter",
        Pull { piece: 50, call: 0 },
        b"GET / HTTP/1.1\r\nSec-Fetch-Mode: no-cors\r\n\r\n\
         HTTP/1.1 200 OK\r\nContent-Type: text/javascript\r\nContent-Length: 2\r\n\r\n\
         x;",
        ReadFault,
        b"",
    ),
    (
        "a first push that fails",
        "filter",
        Push { call: 0 },
        b"GET / HTTP/1.1\r\nSec-Fetch-Mode: no-cors\r\n\r\n\
         HTTP/1.1 200 OK\r\nContent-Type: text/javascript\r\nContent-Length: 2\r\n\r\n\
         x;",
        WriteFault,
        b"",
    ),
    (
        "a body to the end of the input",
        "explain",
        Calm,
        b"GET / HTTP/1.1\r\nSec-Fetch-Mode: no-cors\r\n\r\n\
         HTTP/1.1 200 OK\r\nContent-Type: text/css\r\n\r\n\
         abc",
        Done,
        b"1 allow safelisted na 3\n",
    ),
    (
        "a failing pull where the input may end",
        "filter",
        Pull {
            piece: 200,
            call: 1,
        },
        b"GET / HTTP/1.1\r\nSec-Fetch-Mode: no-cors\r\n\r\n\
         HTTP/1.1 200 OK\r\nContent-Type: text/css\r\n\r\n\
         abc",
        ReadFault,
        b"HTTP/1.1 200 OK\r\nContent-Type: text/css\r\n\r\n\
         abc",
    ),
    (
        "a request that is not opaque",
        "filter",
        Calm,
        b"GET / HTTP/1.1\r\n\r\n\
         HTTP/1.1 200 OK\r\nContent-Type: text/html\r\nContent-Length: 2\r\n\r\n\
         hi",
        Done,
        b"HTTP/1.1 200 OK\r\nContent-Type: text/html\r\nContent-Length: 2\r\n\r\n\
         hi",
    ),
    (
        "a type that is never sniffed",
        "filter",
        Calm,
        b"GET / HTTP/1.1\r\nSec-Fetch-Mode: no-cors\r\n\r\n\
         HTTP/1.1 200 OK\r\nContent-Type: text/csv\r\nContent-Length: 3\r\n\r\n\
         a,b",
        Done,
        b"HTTP/1.1 403 Forbidden\r\nContent-Length: 0\r\nOrb-Rule: never-sniffed\r\n\r\n",
    ),
    (
        "an array",
        "explain",
        Calm,
        b"GET / HTTP/1.1\r\nSec-Fetch-Mode: no-cors\r\n\r\n\
         HTTP/1.1 200 OK\r\nContent-Type: application/octet-stream\r\nContent-Length: 5\r\n\r\n\
         [1,2]",
        Done,
        b"1 block json na 5\n",
    ),
    (
        "an assignment",
        "explain",
        Calm,
        b"GET / HTTP/1.1\r\nSec-Fetch-Mode: no-cors\r\n\r\n\
         HTTP/1.1 200 OK\r\nContent-Type: application/octet-stream\r\nContent-Length: 3\r\n\r\n\
         a=1",
        Done,
        b"1 allow script na 3\n",
    ),
    (
        "slashes of both kinds",
        "explain",
        Calm,
        b"GET / HTTP/1.1\r\nSec-Fetch-Mode: no-cors\r\n\r\n\
         HTTP/1.1 200 OK\r\nContent-Type: application/octet-stream\r\nContent-Length: 28\r\n\r\n\
         if (a) /b/.c; else d / e / f",
        Done,
        b"1 allow script na 28\n",
    ),
    (
        "a name",
        "filter",
        Calm,
        b"GET / HTTP/1.1\r\nSec-Fetch-Mode: no-cors\r\n\r\n\
         HTTP/1.1 200 OK\r\nContent-Type: application/octet-stream\r\nContent-Length: 1\r\n\r\n\
         x",
        Done,
        b"HTTP/1.1 200 OK\r\nContent-Type: application/octet-stream\r\nContent-Length: 1\r\n\r\n\
         x",
    ),
    (
        "an array",
        "filter",
        Calm,
        b"GET / HTTP/1.1\r\nSec-Fetch-Mode: no-cors\r\n\r\n\
         HTTP/1.1 200 OK\r\nContent-Type: application/octet-stream\r\nContent-Length: 5\r\n\r\n\
         [1,2]",
        Done,
        b"HTTP/1.1 403 Forbidden\r\nContent-Length: 0\r\nOrb-Rule: json\r\n\r\n",
    ),
    (
        "a long image past the limit",
        "explain --limit 1024",
        Calm,
        b"GET / HTTP/1.1\r\nSec-Fetch-Mode: no-cors\r\n\r\n\
         HTTP/1.1 200 OK\r\nContent-Length: 2097158\r\n\r\n\
         GIF89a~0-2097151:\0~",
        Done,
        b"1 allow image na 2097158\n",
    ),
    (
        "a script of the limit",
        "explain --limit=1024",
        Calm,
        b"GET / HTTP/1.1\r\nSec-Fetch-Mode: no-cors\r\n\r\n\
         HTTP/1.1 200 OK\r\nContent-Type: application/octet-stream\r\nContent-Length: 1024\r\n\r\n\
         ~1-512:x;~",
        Done,
        b"1 allow script na 1024\n",
    ),
    (
        "a script past the limit",
        "explain --limit=1024",
        Calm,
        b"GET / HTTP/1.1\r\nSec-Fetch-Mode: no-cors\r\n\r\n\
         HTTP/1.1 200 OK\r\nContent-Type: application/octet-stream\r\nContent-Length: 1025\r\n\r\n\
         ~1-512:x;~ ",
        Done,
        b"1 block body-limit na 1025\n",
    ),
    (
        "no script, of the limit",
        "explain --limit 1024",
        Calm,
        b"GET / HTTP/1.1\r\nSec-Fetch-Mode: no-cors\r\n\r\n\
         HTTP/1.1 200 OK\r\nContent-Type: application/octet-stream\r\nContent-Length: 1024\r\n\r\n\
         1 2~1-1021: ~",
        Done,
        b"1 block not-script na 1024\n",
    ),
    (
        "no script, past the limit",
        "explain --policy orb --limit 1024",
        Calm,
        b"GET / HTTP/1.1\r\nSec-Fetch-Mode: no-cors\r\n\r\n\
         HTTP/1.1 200 OK\r\nContent-Type: application/octet-stream\r\nContent-Length: 1025\r\n\r\n\
         1 2~1-1022: ~",
        Done,
        b"1 block body-limit na 1025\n",
    ),
    (
        "a page after a comment",
        "explain --policy corb",
        Calm,
        b"GET / HTTP/1.1\r\nSec-Fetch-Mode: no-cors\r\n\r\n\
         HTTP/1.1 200 OK\r\nContent-Type: text/html\r\nContent-Length: 17\r\n\r\n\
         <!-- x --> <HTML>",
        Done,
        b"1 block corb-html na 17\n",
    ),
    (
        "no page",
        "explain --policy=corb",
        Calm,
        b"GET / HTTP/1.1\r\nSec-Fetch-Mode: no-cors\r\n\r\n\
         HTTP/1.1 200 OK\r\nContent-Type: text/html\r\nContent-Length: 5\r\n\r\n\
         hello",
        Done,
        b"1 allow corb-unconfirmed na 5\n",
    ),
    (
        "JSON as plain text",
        "explain --limit 1024 --policy=corb",
        Calm,
        b"GET / HTTP/1.1\r\nSec-Fetch-Mode: no-cors\r\n\r\n\
         HTTP/1.1 200 OK\r\nContent-Type: text/plain\r\nContent-Length: 9\r\n\r\n\
         {\"a\" : 1}",
        Done,
        b"1 block corb-json na 9\n",
    ),
    (
        "a breaker",
        "explain --policy corb --limit=1024",
        Calm,
        b"GET / HTTP/1.1\r\nSec-Fetch-Mode: no-cors\r\n\r\n\
         HTTP/1.1 200 OK\r\nContent-Length: 4\r\n\r\n\
         )]}'",
        Done,
        b"1 block corb-breaker na 4\n",
    ),
];

/// Appends the text, with the number in the place of `#`.
fn append_numbered(all: &mut Vec<u8>, text: &[u8], number: u64) -> Result<(), Fail> {
    for byte in text {
        match byte {
            b'#' => all.extend_from_slice(decimal(number).as_slice())?,
            other => all.push(*other)?,
        }
    }
    Ok(())
}

/// Appends the text once for each number of the range.
fn append_range(all: &mut Vec<u8>, range: (u64, u64), text: &[u8]) -> Result<(), Fail> {
    let (first, last) = range;
    for number in first..=last {
        append_numbered(all, text, number)?;
    }
    Ok(())
}

/// Appends what `8-10:x#` stands for.
fn append_each(rt: &impl Abort, all: &mut Vec<u8>, text: &[u8]) -> Result<(), Fail> {
    let colon = text.iter().position(|b| *b == b':').expect(rt, "a colon");
    let (range, after) = text.split_at(colon);
    let dash = range.iter().position(|b| *b == b'-').expect(rt, "a dash");
    let first = read_decimal(&range[..dash]).expect(rt, "a first number");
    let last = read_decimal(&range[dash + 1..]).expect(rt, "a last number");
    append_range(all, (first, last), &after[1..])
}

/// The bytes that a text stands for.
fn spelled(rt: &impl Abort, alloc: Global, text: &[u8]) -> Result<Vec<u8>, Fail> {
    let mut all = Vec::new(alloc);
    for (index, part) in text.split(|b| *b == b'~').enumerate() {
        if index % 2 == 1 {
            append_each(rt, &mut all, part)?;
        } else {
            all.extend_from_slice(part)?;
        }
    }
    Ok(all)
}

/// What `run` answers of such words over a recording in pieces of that size, with these calls of the source
/// and of the sink failing, and the sink after that.
fn run_words(
    alloc: Global,
    texts: &[&str],
    recording: Vec<u8>,
    piece: usize,
    faults: (&[u64], &[u64]),
) -> Result<(Outcome, MemorySink), Fail> {
    let mut words = Vec::new(alloc);
    for text in texts {
        words.push(String::from_str(alloc, text)?)?;
    }
    let (pulls, pushes) = faults;
    let mut source = MemorySource::new(recording, piece.max(1), pulls.to_vec(alloc)?);
    let mut sink = MemorySink::open(alloc, 1 << 22, pushes.to_vec(alloc)?)?;
    let outcome = run(alloc, &words, &mut source, &mut sink);
    Ok((outcome, sink))
}

/// Runs a row in pieces of that size, with these calls of the source and of the sink failing.
fn owes(
    rt: &impl Abort,
    alloc: Global,
    row: &Row,
    piece: usize,
    faults: (&[u64], &[u64]),
) -> Result<(), Fail> {
    let (name, line, _, recording, owed, wrote) = *row;
    let words: Vec<&str> = line.split(' ').collect(alloc)?;
    let recording = spelled(rt, alloc, recording)?;
    let (outcome, sink) = run_words(alloc, &words, recording, piece, faults)?;
    assert_eq!(rt; outcome, owed, "{line}, {name} in pieces of {piece}");
    let wrote = spelled(rt, alloc, wrote)?;
    assert!(rt;
        sink.bytes() == wrote.as_slice(),
        "{line}, {name} in pieces of {piece}"
    );
    Ok(())
}

/// Runs a row in pieces of 1, of 7 and of 100 bytes and whole.
fn owes_in_pieces(rt: &impl Abort, alloc: Global, row: &Row, pushes: &[u64]) -> Result<(), Fail> {
    for piece in [1, 7, 100, 1 << 22] {
        owes(rt, alloc, row, piece, (&[], pushes))?;
    }
    Ok(())
}

/// Runs each row: in pieces of each size, where no piece is asked for.
fn owes_each(rt: &impl Abort, alloc: Global, rows: &[Row]) -> Result<(), Fail> {
    for row in rows {
        match row.2 {
            Calm => owes_in_pieces(rt, alloc, row, &[])?,
            Pull { piece, call } => owes(rt, alloc, row, piece, (&[call], &[]))?,
            Push { call } => owes_in_pieces(rt, alloc, row, &[call])?,
        }
    }
    Ok(())
}

#[test]
fn the_worked_rows_are_answered(rt: HostRuntime) -> Result<(), Fail> {
    owes_each(&rt, rt.alloc(), &WORKED)
}

/// The answer to words that read nothing, and what it writes.
fn run_alone(alloc: Global, texts: &[&str]) -> Result<(Outcome, MemorySink), Fail> {
    run_words(alloc, texts, vec![in alloc; b'x'; 9]?, 1, (&[], &[]))
}

/// Words that are not taken.
static REFUSED: [&[&str]; 15] = [
    &[],
    &["filtr"],
    &["filter "],
    &["filter", "x"],
    &["explain", "x"],
    &["mime"],
    &["mime", "-a/b"],
    &["mime", "a/b", "c/d"],
    &["serve", "127.0.0.1:0", "1"],
    &["proxy", "127.0.0.1:0", "1"],
    &["type", "x"],
    &["har", "x"],
    &["trial", "0", "0"],
    &["filter", "--limit", "1023"],
    &["filter", "--limit=1024", "--limit=1024"],
];

#[test]
fn other_words_are_refused(rt: HostRuntime) -> Result<(), Fail> {
    for texts in &REFUSED {
        let (outcome, _) = run_alone(rt.alloc(), texts)?;
        assert_eq!(rt; outcome, Outcome::Usage);
    }
    Ok(())
}

/// Runs words that read nothing, and write this line.
fn writes_line(rt: &impl Abort, alloc: Global, texts: &[&str], line: &[u8]) -> Result<(), Fail> {
    let (outcome, sink) = run_alone(alloc, texts)?;
    assert_eq!(rt; outcome, Outcome::Done);
    assert!(rt; sink.bytes() == line, "{texts:?}");
    Ok(())
}

/// A text, and the line of its type.
static TYPES: [(&str, &[u8]); 6] = [
    ("text/plain;a=\"\\\"\";a=2;b=", b"text/plain;a=\"\\\"\"\n"),
    (
        "TEXT/HTML;Charset=\"utf-8\" ;x=1 2",
        b"text/html;charset=utf-8;x=\"1 2\"\n",
    ),
    ("text/plain;a=\"b;c\"", b"text/plain;a=\"b;c\"\n"),
    ("a/b;c=\"d\\", b"a/b;c=\"d\\\\\"\n"),
    ("text", b"failure\n"),
    ("", b"failure\n"),
];

#[test]
fn mime_writes_a_line(rt: HostRuntime) -> Result<(), Fail> {
    for (text, line) in &TYPES {
        writes_line(&rt, rt.alloc(), &["mime", text], line)?;
    }
    Ok(())
}

/// How many exchanges a self-test has, and its line.
static TRIALS: [(&str, &[u8]); 2] = [
    ("8", b"exchanges 8 allow 5 block 3 written 646\n"),
    (
        "8072",
        b"exchanges 8072 allow 4052 block 4020 written 6682308\n",
    ),
];

#[test]
fn trial_writes_a_line(rt: HostRuntime) -> Result<(), Fail> {
    for (count, line) in &TRIALS {
        writes_line(&rt, rt.alloc(), &["trial", "0", count], line)?;
    }
    Ok(())
}

/// A word, what it reads, the answer, and what it writes. Where the second pull of a byte fails, nothing is written.
static INPUTS: [(&str, &[u8], Outcome, &[u8]); 9] = [
    (
        "har",
        br#"{"log":{"entries":[{"request":{"method":"GET","headers":[{"name":"Sec-Fetch-Mode","value":"no-cors"}]},"response":{"status":200,"headers":[{"name":"Content-Type","value":"text/html"},{"name":"X-Content-Type-Options","value":"nosniff"}],"content":{"text":"<p>"}}}]}}"#,
        Outcome::Done,
        b"1 block nosniff-blocklisted na 3\n",
    ),
    (
        "har",
        br#"{"log":{"entries":[{"request":{"method":"GET","headers":[{"name":":authority","value":"a.test"},{"name":"Sec-Fetch-Mode","value":"no-cors"}]},"response":{"status":200,"headers":[],"content":{"text":"R0lGODlh","encoding":"base64"}}}]}}"#,
        Outcome::Done,
        b"1 allow image na 6\n",
    ),
    ("har", b"{}", Outcome::NotHar { entry: 0 }, b""),
    (
        "har",
        br#"{"log":{"entries":[1]}}"#,
        Outcome::NotHar { entry: 1 },
        b"",
    ),
    ("har", br#"{"log":{"entries":[]}}"#, Outcome::Done, b""),
    (
        "type",
        b"HTTP/1.1 200 OK\r\n\r\n <P >x",
        Outcome::Done,
        b"text/html\n",
    ),
    (
        "type",
        b"HTTP/1.1 200 OK\r\nContent-Type: image/gif\r\n\r\n\x89PNG\r\n\x1a\n",
        Outcome::Done,
        b"image/png\n",
    ),
    ("type", b"HTTP/1.1", Outcome::Cut { place: 0 }, b""),
    (
        "type",
        b"HTTP/1.1 100 Continue\r\n\r\n",
        Outcome::Bad {
            kind: Interim,
            place: 0,
        },
        b"",
    ),
];

/// Runs a word over an input in pieces of that size, with these pulls failing.
fn reads(
    rt: &impl Abort,
    alloc: Global,
    (word, input): (&str, &[u8]),
    (piece, pulls): (usize, &[u64]),
    (owed, written): (Outcome, &[u8]),
) -> Result<(), Fail> {
    let (outcome, sink) = run_words(alloc, &[word], input.to_vec(alloc)?, piece, (pulls, &[]))?;
    assert_eq!(rt; outcome, owed);
    assert!(rt; sink.bytes() == written, "{word} in pieces of {piece}");
    Ok(())
}

#[test]
fn logs_and_responses_are_read_whole(rt: HostRuntime) -> Result<(), Fail> {
    for (word, input, owed, written) in &INPUTS {
        let read = (*word, *input);
        reads(&rt, rt.alloc(), read, (1, &[]), (*owed, written))?;
        reads(&rt, rt.alloc(), read, (7, &[]), (*owed, written))?;
        reads(&rt, rt.alloc(), read, (8192, &[]), (*owed, written))?;
        reads(&rt, rt.alloc(), read, (1, &[1]), (Outcome::ReadFault, b""))?;
    }
    Ok(())
}

const EMPTY_LOG: &[u8] = br#"{"log":{"entries":[]}}"#;

/// The log, with so many bytes.
fn spaced_log(alloc: Global, size: usize) -> Result<Vec<u8>, Fail> {
    let mut log = EMPTY_LOG.to_vec(alloc)?;
    let spaces = vec![in alloc; b' '; size.saturating_sub(EMPTY_LOG.len())]?;
    log.extend_from_slice(spaces.as_slice())?;
    Ok(log)
}

/// Reads the log of so many bytes, of which nothing is written.
fn reads_log(rt: &impl Abort, alloc: Global, size: usize, owed: Outcome) -> Result<(), Fail> {
    let log = spaced_log(alloc, size)?;
    let (outcome, sink) = run_words(alloc, &["har"], log, 8192, (&[], &[]))?;
    assert_eq!(rt; outcome, owed);
    assert!(rt; sink.bytes().is_empty());
    Ok(())
}

#[test]
fn logs_are_bounded(rt: HostRuntime) -> Result<(), Fail> {
    reads_log(&rt, rt.alloc(), 67_108_864, Outcome::Done)?;
    reads_log(&rt, rt.alloc(), 67_108_865, Outcome::HarLimit)
}

/// Outcomes, with their status and line.
static OUTCOMES: [(Outcome, u8, &[u8]); 7] = [
    (Outcome::Done, 0, b""),
    (Outcome::Usage, 1, b"orb: words refused\n"),
    (
        Outcome::Bad {
            kind: BadFraming,
            place: 43,
        },
        2,
        b"orb: bad-framing at 43\n",
    ),
    (Outcome::Cut { place: 114 }, 3, b"orb: cut at 114\n"),
    (
        Outcome::HeadLimit { place: 0 },
        4,
        b"orb: head limit at 0\n",
    ),
    (Outcome::NotHar { entry: 2 }, 9, b"orb: not har at 2\n"),
    (Outcome::HarLimit, 4, b"orb: har limit\n"),
];

#[test]
fn outcomes_have_their_status_and_line(rt: HostRuntime) {
    for (outcome, status, line) in &OUTCOMES {
        assert_eq!(rt; outcome.status(), *status);
        assert!(rt; outcome_line(outcome).as_slice() == *line, "{outcome:?}");
    }
}

/// Outcomes of serving, with their status and line.
static SERVE_OUTCOMES: [(ServeOutcome, u8, &[u8]); 3] = [
    (ServeOutcome::Done, 0, b""),
    (ServeOutcome::BindFault, 5, b"orb: bind fault\n"),
    (ServeOutcome::AcceptFault, 5, b"orb: accept fault\n"),
];

#[test]
fn answers_to_serve_have_their_status_and_line(rt: HostRuntime) {
    for (outcome, status, line) in &SERVE_OUTCOMES {
        assert_eq!(rt; outcome.status(), *status);
        assert!(rt;
            serve_outcome_line(outcome).as_slice() == *line,
            "{outcome:?}"
        );
    }
}
