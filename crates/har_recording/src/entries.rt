//! One entry of a log, read from its JSON (HAR 1.2, `entries`, `request`, `response`, `headers`, `content`).
ghost use Rattle.std.specs.Prelude.{◌≡◌, option_map, option_and_then, codes};
ghost use Rattle.std.specs.List.{list_all};
ghost use Rattle.orb_bytes.specs.Bytes.{is_token_byte};
ghost use Rattle.serde_json.specs.View.{view, items_view};
ghost use Rattle.serde_json.specs.Find.{get};
ghost use Rattle.har_recording.specs.declared.entries.Fault.TheVariants.{NoMemory as no_memory};
ghost use Rattle.har_recording.specs.Log.{string_at as the_string, optional, header_of, all_of, headers_of, is_token as is_token_text, if_token, request_of, status_of, decoded, body_from, body_of, response_of, entry_of};
ghost use Rattle.har_recording.specs.Seen.{header_in, headers_in, request_in, response_in, entry_in, Reads};

use base64::DecodeAllocError;
use base64::engine::general_purpose::STANDARD;
use orb_bytes::is_token;
use serde_json::Value;
use std::alloc::{AllocError, AllocFailed, Global};

/// The greatest status.
const MOST_STATUS: u64 = 999;

/// Why an entry was not read.
#[derive(Clone, Copy, Debug, PartialEq, Eq)]
pub(crate) enum Fault {
    /// Something that an entry has to have isn't there, or is something else.
    NotWhole,
    /// Memory ran out.
    NoMemory,
}

impl From<AllocError> for Fault {
    ghost from_gives = { λ _ e. e ≡ no_memory };

    fn from(_error: AllocError) -> Fault {
        Fault::NoMemory
    }
}

impl<T: Drop> From<AllocFailed<T>> for Fault {
    ghost from_gives = { λ _ e. e ≡ no_memory };

    fn from(_error: AllocFailed<T>) -> Fault {
        Fault::NoMemory
    }
}

/// A header of a request or a response.
#[derive(Drop)]
pub(crate) struct Header<'h> {
    pub name: &'h str,
    pub value: &'h str,
}

#[derive(Drop)]
pub(crate) struct Request<'h> {
    pub method: &'h str,
    pub headers: Vec<Header<'h>>,
}

#[derive(Drop)]
pub(crate) struct Response<'h> {
    pub status: u64,
    pub headers: Vec<Header<'h>>,
    pub body: Vec<u8>,
}

#[derive(Drop)]
pub(crate) struct Entry<'h> {
    pub request: Request<'h>,
    pub response: Response<'h>,
}

/// Reads an entry.
pub(crate) fn read_entry<'h>(alloc: Global, entry: &'h Value) -> Result<Entry<'h>, Fault>
    ensures { Reads entry_in (entry_of (view entry.now)) result }
{
    let request = read_request(alloc, member(entry, "request")?)?;
    let response = read_response(alloc, member(entry, "response")?)?;
    Ok(Entry { request, response })
}

/// The member of that name.
fn member<'h>(value: &'h Value, name: &str) -> Result<&'h Value, Fault>
    ensures { Reads (λ v. view v.now) (get name.now (view value.now)) result }
{
    match value.get(name) {
        Some(member) => Ok(member),
        None => Err(Fault::NotWhole),
    }
}

/// The member of that name, where it is a string.
fn string_at<'h>(value: &'h Value, name: &str) -> Option<&'h str>
    ensures { option_map (λ s. s.now) result ≡ the_string name.now (view value.now) }
{
    value.get(name).and_then(Value::as_str)
}

fn read_request<'h>(alloc: Global, request: &'h Value) -> Result<Request<'h>, Fault>
    ensures { Reads request_in (request_of (view request.now)) result }
{
    let Some(method) = read_method(request) else {
        return Err(Fault::NotWhole);
    };
    let headers = read_headers(alloc, request)?;
    Ok(Request { method, headers })
}

/// The method, which is a token.
fn read_method(request: &Value) -> Option<&str>
    ensures { option_map (λ s. s.now) result
        ≡ option_and_then if_token (the_string (codes "method") (view request.now)) }
{
    let method = string_at(request, "method")?;
    if is_token_text(method.as_bytes()) {
        Some(method)
    } else {
        None
    }
}

/// Whether the text is a token: one or more bytes, each a token byte.
pub(crate) fn is_token_text(text: &[u8]) -> bool
    ensures { result ≡ is_token_text text.now }
{
    !text.is_empty() && are_token_bytes(text)
}

fn are_token_bytes(text: &[u8]) -> bool
    ensures { result ≡ list_all is_token_byte text.now }
{
    text.iter().all(|b| is_token(*b))
}

/// The headers of a request or a response.
fn read_headers<'h>(alloc: Global, message: &'h Value) -> Result<Vec<Header<'h>>, Fault>
    ensures { Reads (λ v. headers_in v.items) (headers_of (view message.now)) result }
{
    match member(message, "headers")?.as_array() {
        Some(headers) => read_each(alloc, headers.as_slice()),
        None => Err(Fault::NotWhole),
    }
}

fn read_each<'h>(alloc: Global, headers: &'h [Value]) -> Result<Vec<Header<'h>>, Fault>
    ensures { Reads (λ v. headers_in v.items) (all_of header_of (items_view headers.now)) result }
{
    let mut read = Vec::new(alloc);
    'headers: for value in headers {
        match read_header(value) {
            Some(header) => read.push(header)?,
            None => return Err(Fault::NotWhole),
        }
    }
    Ok(read)
}

fn read_header(header: &Value) -> Option<Header<'_>>
    ensures { option_map header_in result ≡ header_of (view header.now) }
{
    let name = string_at(header, "name")?;
    let value = string_at(header, "value")?;
    Some(Header { name, value })
}

fn read_response<'h>(alloc: Global, response: &'h Value) -> Result<Response<'h>, Fault>
    ensures { Reads response_in (response_of (view response.now)) result }
{
    let Some(status) = read_status(response) else {
        return Err(Fault::NotWhole);
    };
    let headers = read_headers(alloc, response)?;
    let body = read_body(alloc, member(response, "content")?)?;
    Ok(Response {
        status,
        headers,
        body,
    })
}

/// The status: an unsigned integer of at most three digits.
fn read_status(response: &Value) -> Option<u64>
    ensures { result ≡ status_of (view response.now) }
{
    let status = response.get("status").and_then(Value::as_u64)?;
    if status <= MOST_STATUS {
        Some(status)
    } else {
        None
    }
}

/// The bytes of a content.
fn read_body(alloc: Global, content: &Value) -> Result<Vec<u8>, Fault>
    ensures { Reads (λ v. v.items) (body_of (view content.now)) result }
{
    if !content.is_object() {
        return Err(Fault::NotWhole);
    }
    let encoding = read_optional(content, "encoding")?;
    let text = read_optional(content, "text")?;
    decode(alloc, encoding, text)
}

/// The member of that name, which is a string where it is there.
fn read_optional<'h>(content: &'h Value, name: &str) -> Result<Option<&'h str>, Fault>
    ensures { Reads (λ o. option_map (λ s. s.now) o) (optional (get name.now (view content.now))) result }
{
    match content.get(name) {
        None => Ok(None),
        Some(member) => match member.as_str() {
            Some(text) => Ok(Some(text)),
            None => Err(Fault::NotWhole),
        },
    }
}

/// The bytes that a text in this encoding stands for.
fn decode(alloc: Global, encoding: Option<&str>, text: Option<&str>) -> Result<Vec<u8>, Fault>
    ensures { Reads (λ v. v.items) (body_from (option_map (λ s. s.now) encoding.entry)
        (option_map (λ s. s.now) text.entry)) result }
{
    match (encoding, text) {
        (Some("base64"), Some(text)) => decode_base64(alloc, text.as_bytes()),
        (Some("base64"), None) => Err(Fault::NotWhole),
        (_, Some(text)) => Ok(text.as_bytes().to_vec(alloc)?),
        (_, None) => Ok(Vec::new(alloc)),
    }
}

fn decode_base64(alloc: Global, text: &[u8]) -> Result<Vec<u8>, Fault>
    ensures { Reads (λ v. v.items) (decoded (Some text.now)) result }
{
    match STANDARD.decode(alloc, text) {
        Ok(bytes) => Ok(bytes),
        Err(DecodeAllocError::DecodeError(_)) => Err(Fault::NotWhole),
        Err(DecodeAllocError::OutOfMemory) => Err(Fault::NoMemory),
    }
}
