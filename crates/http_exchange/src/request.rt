//! Request heads (RFC 9112 2 to 5), and what a fetch tells of itself in their fields.
ghost use Rattle.std.specs.Prelude.{◌≡◌, ◌≤◌, ◌&&◌, codes, length, IfSome, IfNone};
ghost use Rattle.httparse.specs.Grammar.{RequestHead as RequestTree};
ghost use Rattle.header_values.specs.Fields.{AreOfHead, pairs_in};
ghost use Rattle.http_exchange.specs.RequestFields.{value_of, has_body as has_body_of, id_of, is_opaque as is_opaque_of, is_for_media as is_for_media_of, request_of};
ghost use Rattle.http_exchange.specs.Heads.{IsRequest};
ghost use Rattle.http_exchange.specs.Parts.{ArePartsOf};
ghost use Rattle.http_exchange.specs.Reading.{ReadsRequestHead};

use crate::refusals::BadKind;
use crate::spans::{FEW_FIELDS, few_request_fields, request_fields};
use crate::values::{has_field, has_other, has_value};
use arrayvec::ArrayVec;
use header_values::{FieldSpan, Fields, Scratch};
use orb_bytes::{read_decimal, trim_http_ws};

/// What a request head says of the fetch that made it.
#[derive(Clone, Copy, Debug, PartialEq, Eq)]
pub struct RequestHead {
    /// Sec-Fetch-Mode is `no-cors`, and Sec-Fetch-Site isn't `same-origin`: the response may be kept
    /// from the page.
    pub opaque: bool,
    /// An opaque request whose Sec-Fetch-Dest is `audio` or `video`.
    pub media: bool,
    /// The method is `HEAD`, in capitals: the response has no body.
    pub is_head: bool,
    /// The number in Orb-Media, if there is such a field.
    pub media_id: Option<u64>,
}

/// The parts of a request head (RFC 9112 2 to 5).
#[derive(Clone, Copy, Debug)]
pub struct RequestParts<'a> {
    /// The method.
    pub method: &'a [u8],
    /// The target, as it is written.
    pub target: &'a [u8],
    /// The fields, in the head.
    pub fields: Fields<'a>,
}

/// The parts of a whole request head, with its fields in `spans`; `None` exactly where [`read_request`] answers
/// [`BadKind::BadHead`]: where the bytes aren't one request head with at most 128 fields. It takes no memory.
pub fn request_parts<'a>(
    head: &'a [u8],
    spans: &'a mut ArrayVec<FieldSpan, 128>,
) -> Option<RequestParts<'a>>
    ensures parts { IfSome result (λ parts. (h : RequestTree) × IsRequest head.now h × ArePartsOf head.now h parts) }
    ensures none { IfNone result ((h : RequestTree) → ¬ (IsRequest head.now h)) }
{
    let line = request_fields(head, spans)?;
    Some(RequestParts {
        method: line.method,
        target: line.target,
        fields: Fields {
            head,
            spans: spans.as_slice(),
        },
    })
}

/// Reads a whole request head.
///
/// Refused are, in this order: bytes that aren't one request head with at most 128 fields
/// ([`BadKind::BadHead`]); a Transfer-Encoding, or a Content-Length other than `0`
/// ([`BadKind::RequestBody`]); an Orb-Media that is no decimal number of 1 to 19 digits
/// ([`BadKind::BadMediaId`]).
pub fn read_request(head: &[u8], scratch: &mut Scratch) -> Result<RequestHead, BadKind>
    requires { length head.now ≤ scratch.old }
    ensures reads { ReadsRequestHead head.now result }
    ensures kept { scratch.new ≡ scratch.old }
{
    let mut spans: ArrayVec<FieldSpan, FEW_FIELDS> = ArrayVec::new();
    match few_request_fields(head, &mut spans) {
        Some(line) => {
            let fields = Fields {
                head,
                spans: spans.as_slice(),
            };
            judged(line.method == b"HEAD".as_slice(), &fields, scratch)
        }
        None => read_any_request(head, scratch),
    }
}

/// The same, with room for as many fields as a head may have.
#[inline(never)]
fn read_any_request(head: &[u8], scratch: &mut Scratch) -> Result<RequestHead, BadKind>
    requires { length head.now ≤ scratch.old }
    ensures reads { ReadsRequestHead head.now result }
    ensures kept { scratch.new ≡ scratch.old }
{
    let mut spans: ArrayVec<FieldSpan, 128> = ArrayVec::new();
    match request_parts(head, &mut spans) {
        None => Err(BadKind::BadHead),
        Some(parts) => judged(parts.method == b"HEAD".as_slice(), &parts.fields, scratch),
    }
}

/// What the method and the fields say, or the first refusal.
#[tactic(auto, unfolding(crate::specs::RequestFields::request_of))]
fn judged(is_head: bool, fields: &Fields, scratch: &mut Scratch) -> Result<RequestHead, BadKind>
    requires fields { AreOfHead fields.now }
    requires room { length fields.now.head.now ≤ scratch.old }
    ensures value { result ≡ request_of is_head (pairs_in fields.now) }
    ensures kept { scratch.new ≡ scratch.old }
{
    if has_body(fields, scratch) {
        return Err(BadKind::RequestBody);
    }
    match media_id(fields, scratch) {
        Err(kind) => Err(kind),
        Ok(media_id) => {
            let opaque = is_opaque(fields, scratch);
            let media = is_for_media(fields, scratch);
            Ok(RequestHead {
                opaque,
                media: opaque && media,
                is_head,
                media_id,
            })
        }
    }
}

/// Whether the fields announce a body.
#[tactic(auto, unfolding(crate::specs::RequestFields::has_body))]
fn has_body(fields: &Fields, scratch: &mut Scratch) -> bool
    requires fields { AreOfHead fields.now }
    requires room { length fields.now.head.now ≤ scratch.old }
    ensures value { result ≡ has_body_of (pairs_in fields.now) }
    ensures kept { scratch.new ≡ scratch.old }
{
    let coded = has_field(fields, b"Transfer-Encoding", scratch);
    let sized = has_other(fields, b"Content-Length", b"0", scratch);
    coded || sized
}

/// The number in Orb-Media, if there is such a field.
fn media_id(fields: &Fields, scratch: &mut Scratch) -> Result<Option<u64>, BadKind>
    requires fields { AreOfHead fields.now }
    requires room { length fields.now.head.now ≤ scratch.old }
    ensures value { result ≡ id_of (value_of (pairs_in fields.now) (codes "Orb-Media")) }
    ensures kept { scratch.new ≡ scratch.old }
{
    match scratch.join(fields, b"Orb-Media") {
        None => Ok(None),
        Some(joined) => match read_decimal(trim_http_ws(joined)) {
            Some(number) => Ok(Some(number)),
            None => Err(BadKind::BadMediaId),
        },
    }
}

#[tactic(auto, unfolding(crate::specs::RequestFields::is_opaque))]
fn is_opaque(fields: &Fields, scratch: &mut Scratch) -> bool
    requires fields { AreOfHead fields.now }
    requires room { length fields.now.head.now ≤ scratch.old }
    ensures value { result ≡ is_opaque_of (pairs_in fields.now) }
    ensures kept { scratch.new ≡ scratch.old }
{
    let no_cors = has_value(fields, b"Sec-Fetch-Mode", b"no-cors", scratch);
    let same_origin = has_value(fields, b"Sec-Fetch-Site", b"same-origin", scratch);
    no_cors && !same_origin
}

#[tactic(auto, unfolding(crate::specs::RequestFields::is_for_media))]
fn is_for_media(fields: &Fields, scratch: &mut Scratch) -> bool
    requires fields { AreOfHead fields.now }
    requires room { length fields.now.head.now ≤ scratch.old }
    ensures value { result ≡ is_for_media_of (pairs_in fields.now) }
    ensures kept { scratch.new ≡ scratch.old }
{
    match scratch.join(fields, b"Sec-Fetch-Dest") {
        Some(joined) => {
            let destination = trim_http_ws(joined);
            destination == b"audio".as_slice() || destination == b"video".as_slice()
        }
        None => false,
    }
}
