//! Heads through [`read_request`] and [`read_response`], with what is owed of each.
use crate::{
    BadKind, BodyFrame, RequestHead, head_end, read_request, read_response, request_parts,
};
use arrayvec::ArrayVec;
use header_values::Scratch;
use std::alloc::Global;
use std::test::Fail;

/// A request that is neither opaque nor for media, and has no id.
const PLAIN: RequestHead = RequestHead {
    opaque: false,
    media: false,
    is_head: false,
    media_id: None,
};

/// An opaque one.
const OPAQUE: RequestHead = RequestHead {
    opaque: true,
    media: false,
    is_head: false,
    media_id: None,
};

/// One for the media resource 7.
const MEDIA: RequestHead = RequestHead {
    opaque: true,
    media: true,
    is_head: false,
    media_id: Some(7),
};

/// One with the method HEAD.
const HEAD: RequestHead = RequestHead {
    opaque: false,
    media: false,
    is_head: true,
    media_id: None,
};

/// A request head, and what it says or what it is refused for.
const REQUESTS: [(&[u8], Result<RequestHead, BadKind>); 15] = [
    (b"GET / HTTP/1.1\r\n\r\n", Ok(PLAIN)),
    (
        b"GET / HTTP/1.1\r\nSec-Fetch-Mode: no-cors\r\n\r\n",
        Ok(OPAQUE),
    ),
    (b"GET / HTTP/1.1\r\nSec-Fetch-Mode: none\r\n\r\n", Ok(PLAIN)),
    (
        b"GET / HTTP/1.1\r\nSec-Fetch-Mode: no-cors\r\nSec-Fetch-Site: same-origin\r\n\r\n",
        Ok(PLAIN),
    ),
    (
        b"GET / HTTP/1.1\r\nSec-Fetch-Mode: no-cors\r\nSec-Fetch-Mode: no-cors\r\n\r\n",
        Ok(PLAIN),
    ),
    (
        b"GET / HTTP/1.1\r\nsec-fetch-mode: no-cors\r\nSec-Fetch-Dest: audio\r\nOrb-Media: 07\r\n\r\n",
        Ok(MEDIA),
    ),
    (
        b"GET / HTTP/1.1\r\nSec-Fetch-Dest: video\r\n\r\n",
        Ok(PLAIN),
    ),
    (b"HEAD / HTTP/1.1\r\n\r\n", Ok(HEAD)),
    (b"head / HTTP/1.1\r\n\r\n", Ok(PLAIN)),
    (b"GET\r\n\r\n", Err(BadKind::BadHead)),
    (b"GET / HTTP/1.1\n\n\r\n\r\n", Err(BadKind::BadHead)),
    (
        b"POST / HTTP/1.1\r\nContent-Length: 1\r\n\r\n",
        Err(BadKind::RequestBody),
    ),
    (
        b"POST / HTTP/1.1\r\nContent-Length: 00\r\nOrb-Media: x\r\n\r\n",
        Err(BadKind::RequestBody),
    ),
    (
        b"POST / HTTP/1.1\r\nContent-Length: 0\r\nOrb-Media: x\r\n\r\n",
        Err(BadKind::BadMediaId),
    ),
    (
        b"GET / HTTP/1.1\r\nTransfer-Encoding: chunked\r\n\r\n",
        Err(BadKind::RequestBody),
    ),
];

#[test]
fn requests_are_read_or_refused_in_their_order(rt: HostRuntime) -> Result<(), Fail> {
    for (head, owed) in REQUESTS {
        let mut scratch = Scratch::open(rt.alloc(), head.len())?;
        assert_eq!(rt; read_request(head, &mut scratch), owed, "{head:?}");
    }
    Ok(())
}

/// A request head, and its method, its target and how many fields it has.
const PARTS: [(&[u8], Option<(&[u8], &[u8], usize)>); 4] = [
    (
        b"\r\nPUT http://a/?b HTTP/1.0\r\nC:d\r\nE:\r\n\r\n",
        Some((b"PUT", b"http://a/?b", 2)),
    ),
    (
        b"GET * HTTP/1.1\r\nContent-Length: 1\r\n\r\n",
        Some((b"GET", b"*", 1)),
    ),
    (b"GET * HTTP/1.1\r\n\r\n\r\n", None),
    (b"GET\r\n\r\n", None),
];

#[test]
fn the_parts_of_a_request_are_given(rt: HostRuntime) {
    for (head, owed) in PARTS {
        let mut spans = ArrayVec::new();
        let parts = match request_parts(head, &mut spans) {
            Some(parts) => Some((parts.method, parts.target, parts.fields.spans.len())),
            None => None,
        };
        assert_eq!(rt; parts, owed, "{head:?}");
    }
}

/// A response head, whether it answers HEAD, and how it frames the body or what it is refused for.
const RESPONSES: [(&[u8], bool, Result<BodyFrame, BadKind>); 14] = [
    (b"HTTP/1.1 200 OK\r\n\r\n", false, Ok(BodyFrame::ToEnd)),
    (
        b"HTTP/1.1 200 OK\r\nContent-Length: 3, 3\r\nContent-Length: 03\r\n\r\n",
        false,
        Ok(BodyFrame::Length(3)),
    ),
    (
        b"HTTP/1.1 200 OK\r\nContent-Length: 3\r\nContent-Length: 4\r\n\r\n",
        false,
        Err(BadKind::BadFraming),
    ),
    (
        b"HTTP/1.1 200 OK\r\nContent-Length: 3,\r\n\r\n",
        false,
        Err(BadKind::BadFraming),
    ),
    (
        b"HTTP/1.1 200 OK\r\nContent-Length: 10000000000000000000\r\n\r\n",
        false,
        Err(BadKind::BadFraming),
    ),
    (
        b"HTTP/1.1 200 OK\r\nTransfer-Encoding: Chunked \r\n\r\n",
        false,
        Ok(BodyFrame::Chunked),
    ),
    (
        b"HTTP/1.1 200 OK\r\nTransfer-Encoding: chunked\r\nContent-Length: 3\r\n\r\n",
        false,
        Err(BadKind::BadFraming),
    ),
    (
        b"HTTP/1.1 200 OK\r\nTransfer-Encoding: gzip, chunked\r\n\r\n",
        false,
        Err(BadKind::BadFraming),
    ),
    (
        b"HTTP/1.1 200 OK\r\nContent-Length: 100\r\n\r\n",
        true,
        Ok(BodyFrame::Empty),
    ),
    (
        b"HTTP/1.1 304 Not Modified\r\nContent-Length: x\r\n\r\n",
        false,
        Ok(BodyFrame::Empty),
    ),
    (
        b"HTTP/1.1 204 No Content\r\nTransfer-Encoding: x\r\n\r\n",
        false,
        Ok(BodyFrame::Empty),
    ),
    (
        b"HTTP/1.1 100 Continue\r\n\r\n",
        true,
        Err(BadKind::Interim),
    ),
    (
        b"HTTP/1.1 199 Odd\r\nContent-Length: x\r\n\r\n",
        false,
        Err(BadKind::Interim),
    ),
    (b"HTTP/1.1\r\n\r\n", false, Err(BadKind::BadHead)),
];

#[test]
fn responses_are_framed_or_refused_in_their_order(rt: HostRuntime) -> Result<(), Fail> {
    for (head, to_head, owed) in RESPONSES {
        let mut scratch = Scratch::open(rt.alloc(), head.len())?;
        let mut spans = ArrayVec::new();
        let frame = match read_response(head, to_head, &mut spans, &mut scratch) {
            Ok(response) => Ok(response.frame),
            Err(kind) => Err(kind),
        };
        assert_eq!(rt; frame, owed, "{head:?}");
    }
    Ok(())
}

/// A response head with so many fields, the first with a value of so many bytes.
fn response_head(alloc: Global, fields: usize, value: usize) -> Result<Vec<u8>, Fail> {
    let mut head = b"HTTP/1.1 200 OK\r\nX: ".to_vec(alloc)?;
    for _ in 0..value {
        head.push(b'a')?;
    }
    for _ in 1..fields {
        head.extend_from_slice(b"\r\nX: a")?;
    }
    head.extend_from_slice(b"\r\n\r\n")?;
    Ok(head)
}

/// How many fields a head has, the length of the first value, and what reading it gives.
const LIMITS: [(usize, usize, Result<BodyFrame, BadKind>); 3] = [
    (128, 1, Ok(BodyFrame::ToEnd)),
    (129, 1, Err(BadKind::BadHead)),
    (1, 65_512, Ok(BodyFrame::ToEnd)),
];

#[test]
fn heads_are_read_up_to_their_limits(rt: HostRuntime) -> Result<(), Fail> {
    for (fields, value, owed) in LIMITS {
        let head = response_head(rt.alloc(), fields, value)?;
        assert_eq!(rt; head_end(&head), Some(head.len()));
        let mut scratch = Scratch::open(rt.alloc(), head.len())?;
        let mut spans = ArrayVec::new();
        let frame = match read_response(&head, false, &mut spans, &mut scratch) {
            Ok(response) => Ok(response.frame),
            Err(kind) => Err(kind),
        };
        assert_eq!(rt; frame, owed, "{fields} fields");
    }
    Ok(())
}
