//! A whole head of the grammar, and where its fields stand (RFC 9112 2 to 5).
ghost use Rattle.std.specs.Prelude.{◌≡◌, ◌≤◌, length, map, IfSome, IfNone};
ghost use Rattle.httparse.specs.Grammar.{RequestHead, ResponseHead, status_code};
ghost use Rattle.http_exchange.specs.Heads.{IsRequest, IsResponse};
ghost use Rattle.http_exchange.specs.Spans.{HasFields, field_span};
ghost use Rattle.http_exchange.specs.Parts.{IsLineOf};

use arrayvec::ArrayVec;
use header_values::FieldSpan;
use httparse::Status;
use httparse::spans::{EMPTY_HEADER_SPAN, HeaderSpan, parse_request, parse_response};

/// The most fields that a head may have.
const MOST_FIELDS: usize = 128;

/// Room for the fields of most heads, which is tried first: to clear room for all costs more than to read most heads.
pub(crate) const FEW_FIELDS: usize = 32;

/// What a request line asks for (RFC 9112 3).
#[derive(Clone, Copy, Debug)]
pub(crate) struct RequestLine<'a> {
    /// The method.
    pub(crate) method: &'a [u8],
    /// The target, as it is written.
    pub(crate) target: &'a [u8],
}

/// The line of the request head, with its fields in `spans`; `None` exactly where the bytes aren't one
/// request head.
pub(crate) fn request_fields<'a>(
    head: &'a [u8],
    spans: &mut ArrayVec<FieldSpan, 128>,
) -> Option<RequestLine<'a>>
    ensures found { IfSome result (λ line. (h : RequestHead) × IsRequest head.now h
        × IsLineOf h line × HasFields head.now spans.new.items h.fields) }
    ensures none { IfNone result ((h : RequestHead) → ¬ (IsRequest head.now h)) }
{
    let mut few = [EMPTY_HEADER_SPAN; FEW_FIELDS];
    match request_within(head, &mut few, spans) {
        Some(line) => Some(line),
        None => request_within(head, &mut [EMPTY_HEADER_SPAN; MOST_FIELDS], spans),
    }
}

/// The same of a head with few fields; of one with more it may be `None`.
pub(crate) fn few_request_fields<'a>(
    head: &'a [u8],
    spans: &mut ArrayVec<FieldSpan, FEW_FIELDS>,
) -> Option<RequestLine<'a>>
    ensures found { IfSome result (λ line. (h : RequestHead) × IsRequest head.now h
        × IsLineOf h line × HasFields head.now spans.new.items h.fields) }
{
    request_within(head, &mut [EMPTY_HEADER_SPAN; FEW_FIELDS], spans)
}

/// The same, with room for as many fields as `found` is long.
fn request_within<'a, const ROOM: usize>(
    head: &'a [u8],
    found: &mut [HeaderSpan],
    spans: &mut ArrayVec<FieldSpan, ROOM>,
) -> Option<RequestLine<'a>>
    requires few { length found.old ≤ 128 }
    requires room { length found.old ≤ ROOM }
    ensures found { IfSome result (λ line. (h : RequestHead) × IsRequest head.now h
        × IsLineOf h line × HasFields head.now spans.new.items h.fields) }
    ensures none { IfNone result (128 ≤ length found.old → (h : RequestHead) → ¬ (IsRequest head.now h)) }
{
    let Ok(Status::Complete(request)) = parse_request(head, found) else {
        return None;
    };
    if request.len != head.len() {
        return None;
    }
    keep(&found[..request.headers], spans);
    Some(RequestLine {
        method: request.method.of(head),
        target: request.path.of(head),
    })
}

/// The status of the response head, with its fields in `spans`; `None` exactly where the bytes
/// aren't one response head.
pub(crate) fn response_fields(head: &[u8], spans: &mut ArrayVec<FieldSpan, 128>) -> Option<u16>
    ensures found { IfSome result (λ status. (h : ResponseHead) × IsResponse head.now h
        × (status ≡ status_code h)
        × HasFields head.now spans.new.items h.fields) }
    ensures none { IfNone result ((h : ResponseHead) → ¬ (IsResponse head.now h)) }
{
    let mut few = [EMPTY_HEADER_SPAN; FEW_FIELDS];
    match response_within(head, &mut few, spans) {
        Some(status) => Some(status),
        None => response_within(head, &mut [EMPTY_HEADER_SPAN; MOST_FIELDS], spans),
    }
}

/// The same, with room for as many fields as `found` is long.
fn response_within(
    head: &[u8],
    found: &mut [HeaderSpan],
    spans: &mut ArrayVec<FieldSpan, 128>,
) -> Option<u16>
    requires { length found.old ≤ 128 }
    ensures found { IfSome result (λ status. (h : ResponseHead) × IsResponse head.now h
        × (status ≡ status_code h)
        × HasFields head.now spans.new.items h.fields) }
    ensures none { IfNone result (128 ≤ length found.old → (h : ResponseHead) → ¬ (IsResponse head.now h)) }
{
    let Ok(Status::Complete(response)) = parse_response(head, found) else {
        return None;
    };
    if response.len != head.len() {
        return None;
    }
    keep(&found[..response.headers], spans);
    Some(response.code)
}

/// Puts these spans in the place of what was there.
fn keep<const ROOM: usize>(found: &[HeaderSpan], spans: &mut ArrayVec<FieldSpan, ROOM>)
    requires { length found.now ≤ ROOM }
    ensures { spans.new.items ≡ map field_span found.now }
{
    spans.clear();
    for span in found {
        spans.push(FieldSpan {
            name_start: span.name.start,
            name_end: span.name.end,
            value_start: span.value.start,
            value_end: span.value.end,
        });
    }
}
