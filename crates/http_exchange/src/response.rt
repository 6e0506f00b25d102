//! Response heads (RFC 9112 2 to 5), and how they frame the body (RFC 9112 6.3).
ghost use Rattle.std.specs.Prelude.{◌≡◌, ◌≤◌, length, codes};
ghost use Rattle.std.specs.List.{list_all};
ghost use Rattle.header_values.specs.Fields.{AreOfHead, pairs_in};
ghost use Rattle.header_values.specs.Joined.{joined};
ghost use Rattle.header_values.specs.Cuts.{parts_of, parts_left};
ghost use Rattle.http_exchange.specs.RequestFields.{value_of};
ghost use Rattle.http_exchange.specs.ResponseFields.{frame_of as frame_stated, framed, sized, length_of, same_length, writes};
ghost use Rattle.http_exchange.specs.Reading.{ReadsResponseHead};

use crate::frames::BodyFrame;
use crate::refusals::BadKind;
use crate::spans::response_fields;
use crate::values::has_field;
use arrayvec::ArrayVec;
use header_values::{FieldSpan, Fields, Parts, Scratch, parts};
use orb_bytes::{eq_ignore_case, read_decimal, trim_http_ws};

/// What a response head says.
#[derive(Clone, Copy, Debug)]
pub struct ResponseHead<'a> {
    /// The status code.
    pub status: u16,
    /// The fields, in the head.
    pub fields: Fields<'a>,
    /// How the body is framed.
    pub frame: BodyFrame,
}

/// Reads a whole response head; `to_head` says that it answers a request with the method HEAD.
///
/// Refused are, in this order: bytes that aren't one response head with at most 128 fields
/// ([`BadKind::BadHead`]); a status of 100 to 199 ([`BadKind::Interim`]); fields that give no framing
/// ([`BadKind::BadFraming`]): a Transfer-Encoding other than `chunked` or beside a Content-Length, and a
/// Content-Length whose parts aren't one decimal number of 1 to 19 digits. A response to HEAD, and one with
/// the status 204 or 304, has no body whatever its fields say.
pub fn read_response<'a>(
    head: &'a [u8],
    to_head: bool,
    spans: &'a mut ArrayVec<FieldSpan, 128>,
    scratch: &mut Scratch,
) -> Result<ResponseHead<'a>, BadKind>
    requires { length head.now ≤ scratch.old }
    ensures reads { ReadsResponseHead head.now to_head result }
    ensures kept { scratch.new ≡ scratch.old }
{
    let Some(status) = response_fields(head, spans) else {
        return Err(BadKind::BadHead);
    };
    let fields = Fields {
        head,
        spans: spans.as_slice(),
    };
    match frame_of(to_head, status, &fields, scratch) {
        Ok(frame) => Ok(ResponseHead {
            status,
            fields,
            frame,
        }),
        Err(kind) => Err(kind),
    }
}

/// How the status and the fields frame the body.
#[tactic(auto, unfolding(crate::specs::ResponseFields::frame_of))]
fn frame_of(
    to_head: bool,
    status: u16,
    fields: &Fields,
    scratch: &mut Scratch,
) -> Result<BodyFrame, BadKind>
    requires fields { AreOfHead fields.now }
    requires room { length fields.now.head.now ≤ scratch.old }
    ensures value { result ≡ frame_stated to_head status (pairs_in fields.now) }
    ensures kept { scratch.new ≡ scratch.old }
{
    if (100..=199).contains(&status) {
        return Err(BadKind::Interim);
    }
    if to_head || status == 204 || status == 304 {
        return Ok(BodyFrame::Empty);
    }
    stated_frame(fields, scratch)
}

/// The frame of a body that may be there.
fn stated_frame(fields: &Fields, scratch: &mut Scratch) -> Result<BodyFrame, BadKind>
    requires fields { AreOfHead fields.now }
    requires room { length fields.now.head.now ≤ scratch.old }
    ensures value { result ≡ framed (value_of (pairs_in fields.now) (codes "Transfer-Encoding"))
        (joined (pairs_in fields.now) (codes "Content-Length")) }
    ensures kept { scratch.new ≡ scratch.old }
{
    match scratch.join(fields, b"Transfer-Encoding") {
        None => length_stated(fields, scratch),
        Some(coding) => {
            let chunked = eq_ignore_case(trim_http_ws(coding), b"chunked");
            if chunked && !has_field(fields, b"Content-Length", scratch) {
                Ok(BodyFrame::Chunked)
            } else {
                Err(BadKind::BadFraming)
            }
        }
    }
}

/// The frame that a Content-Length states; without one the body runs to the end of the input.
fn length_stated(fields: &Fields, scratch: &mut Scratch) -> Result<BodyFrame, BadKind>
    requires fields { AreOfHead fields.now }
    requires room { length fields.now.head.now ≤ scratch.old }
    ensures value { result ≡ sized (joined (pairs_in fields.now) (codes "Content-Length")) }
    ensures kept { scratch.new ≡ scratch.old }
{
    match scratch.join(fields, b"Content-Length") {
        None => Ok(BodyFrame::ToEnd),
        Some(value) => length_in(parts(value)),
    }
}

/// The length that the parts agree on.
fn length_in(mut parts: Parts<'_>) -> Result<BodyFrame, BadKind>
    ensures { result ≡ length_of (parts_left parts.entry) }
{
    match parts.next() {
        Some(first) => agreed(read_decimal(first), parts),
        None => Err(BadKind::BadFraming),
    }
}

/// The length that the first part states, where each further part states the same.
fn agreed(stated: Option<u64>, others: Parts<'_>) -> Result<BodyFrame, BadKind>
    ensures { result ≡ same_length stated (parts_left others.entry) }
{
    match stated {
        None => Err(BadKind::BadFraming),
        Some(length) => {
            if all_write(others, length) {
                Ok(BodyFrame::Length(length))
            } else {
                Err(BadKind::BadFraming)
            }
        }
    }
}

/// Whether each part writes the number.
fn all_write(mut parts: Parts<'_>, number: u64) -> bool
    ensures { result ≡ list_all (writes number) (parts_left parts.entry) }
{
    parts.all(|part| writes_number(part, number))
}

/// Whether the text writes the number.
fn writes_number(text: &[u8], number: u64) -> bool
    ensures { result ≡ writes number text.now }
{
    match read_decimal(text) {
        Some(n) => n == number,
        None => false,
    }
}
