//! The end of a head (RFC 9112 2.1): the first CR LF CR LF, whatever stands before it.
ghost use Rattle.std.specs.Prelude.{◌≡◌, ◌≤◌, IfSome, length};
ghost use Rattle.http_exchange.specs.Head.{head_length};

use memchr::memmem;

/// The end of a line and an empty line.
const END: [u8; 4] = *b"\r\n\r\n";

/// The place after the first CR LF CR LF of the bytes; `None` exactly where there is none.
pub fn head_end(bytes: &[u8]) -> Option<usize>
    ensures value { result ≡ head_length bytes.now }
    ensures within { IfSome result (λ n. n ≤ length bytes.now) }
{
    match memmem::find(bytes, &END) {
        Some(at) => Some(at + END.len()),
        None => None,
    }
}

#[cfg(test)]
mod tests {
    use super::*;

    const CASES: [(&[u8], Option<usize>); 8] = [
        (
            b"GET / HTTP/1.1\r\nSec-Fetch-Mode: no-cors\r\n\r\n",
            Some(43),
        ),
        (b"GET\r\n\r\nHTTP/1.1 200 OK\r\n\r\n", Some(7)),
        (b"\r\n\r\n", Some(4)),
        (b"\r\r\n\r\n", Some(5)),
        (b"", None),
        (b"GET / HTTP/1.1\r\n", None),
        (b"\r\n\r", None),
        (b"a\n\n", None),
    ];

    #[test]
    fn finds_the_end(rt: HostRuntime) {
        for (bytes, want) in CASES {
            assert_eq!(rt; head_end(bytes), want);
        }
    }
}
