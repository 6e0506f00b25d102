//! The self-test's recording, against exchanges that are written out.
ghost use Rattle.std.specs.Prelude.{◌≤◌};

use crate::TrialSource;
use orb_io::Source;
use std::test::Fail;

/// Whether the source gives these bytes, and then its end, in pieces of at most that size.
fn gives(source: &mut TrialSource, size: usize, expected: &[u8]) -> bool
    requires { size ≤ 8192 }
{
    let mut buf = [0u8; 8192];
    let mut rest = expected;
    for _ in 0..u64::MAX {
        let Ok(count) = source.pull(&mut buf[..size]) else {
            return false;
        };
        if count == 0 {
            return rest.is_empty();
        }
        let Some(after) = rest.strip_prefix(&buf[..count]) else {
            return false;
        };
        rest = after;
    }
    false
}

/// How many bytes the source gives.
fn length_of(source: &mut TrialSource) -> u64 {
    let mut buf = [0u8; 8192];
    let mut length = 0u64;
    for _ in 0..u64::MAX {
        match source.pull(&mut buf) {
            Ok(count) if count > 0 => length = length.saturating_add(count as u64),
            _ => break,
        }
    }
    length
}

/// The number of an exchange of each kind, and its bytes.
const KINDS: [(u64, &[u8]); 8] = [
    (
        0,
        b"GET / HTTP/1.1\r\nSec-Fetch-Mode: no-cors\r\n\r\nHTTP/1.1 200 OK\r\nContent-Type: text/javascript\r\nContent-Length: 2\r\n\r\nx;",
    ),
    (
        1,
        b"GET / HTTP/1.1\r\nSec-Fetch-Mode: no-cors\r\n\r\nHTTP/1.1 200 OK\r\nContent-Type: text/html\r\nX-Content-Type-Options: nosniff\r\nContent-Length: 2\r\n\r\naa",
    ),
    (
        2,
        b"GET / HTTP/1.1\r\nSec-Fetch-Mode: no-cors\r\n\r\nHTTP/1.1 200 OK\r\nContent-Length: 10\r\n\r\n\x89PNG\r\n\x1A\n\0\0",
    ),
    (
        3,
        b"GET / HTTP/1.1\r\nSec-Fetch-Mode: no-cors\r\n\r\nHTTP/1.1 200 OK\r\nContent-Type: application/octet-stream\r\nContent-Length: 32\r\n\r\nvar a=0;var a=0;var a=0;var a=0;",
    ),
    (
        4,
        b"GET / HTTP/1.1\r\nSec-Fetch-Mode: no-cors\r\n\r\nHTTP/1.1 200 OK\r\nContent-Type: application/octet-stream\r\nContent-Length: 11\r\n\r\n[0,0,0,0,0]",
    ),
    (
        5,
        b"GET / HTTP/1.1\r\nSec-Fetch-Mode: no-cors\r\n\r\nHTTP/1.1 200 OK\r\nContent-Type: text/plain\r\nContent-Length: 24\r\n\r\na b a b a b a b a b a b ",
    ),
    (
        6,
        b"GET / HTTP/1.1\r\nSec-Fetch-Mode: no-cors\r\n\r\nHTTP/1.1 200 OK\r\nContent-Type: image/jpeg\r\nTransfer-Encoding: chunked\r\n\r\n9\r\n\xFF\xD8\xFF\0\0\0\0\0\0\r\n0\r\n\r\n",
    ),
    (
        1015,
        b"GET / HTTP/1.1\r\nSec-Fetch-Mode: no-cors\r\nSec-Fetch-Dest: video\r\nOrb-Media: 14\r\n\r\nHTTP/1.1 206 Partial Content\r\nContent-Type: video/ogg\r\nContent-Range: bytes 0-10/11\r\nContent-Length: 11\r\n\r\nOggS\0\0\0\0\0\0\0",
    ),
];

#[test]
fn each_kind_as_it_is_sent(rt: HostRuntime) {
    for (number, expected) in KINDS {
        for size in [1, 7, 8192] {
            assert!(rt;
                gives(&mut TrialSource::new(number, 1), size, expected),
                "{number} {size}"
            );
        }
    }
}

/// A seed, how many exchanges, and how many bytes they have.
const LENGTHS: [(u64, u64, u64); 5] = [
    (0, 0, 0),
    (0, 8, 1100),
    (102, 1, 237),
    (1_000_000_000_000_000_000, 1, 1531),
    (0, 8072, 11_254_079),
];

#[test]
fn as_many_bytes_as_the_exchanges_have(rt: HostRuntime) {
    for (seed, count, length) in LENGTHS {
        assert_eq!(rt;
            length_of(&mut TrialSource::new(seed, count)),
            length,
            "{seed} {count}"
        );
    }
}
