//! An entry as an exchange of HTTP/1.1 (RFC 9112).
ghost use Rattle.std.specs.Prelude.{◌≡◌, ◌++◌, [], ◌∷◌, OnOk, filter, map};
ghost use Rattle.std.specs.List.{flat_map};
ghost use Rattle.orb_bytes.specs.Ascii.{crlf};
ghost use Rattle.http_exchange.specs.Messages.{field_line};
ghost use Rattle.har_recording.specs.Recorded.{is_kept as is_kept_header, is_kept_name as is_kept_text, is_field_value as is_value_text, request_text, response_head, status_line, response_fields, exchange_text, recorded, sent_body};
ghost use Rattle.har_recording.specs.Seen.{header_in, headers_in, request_in, response_in, entry_in};

use crate::entries::{Entry, Header, Request, Response, is_token_text};
use orb_bytes::{decimal, eq_ignore_case, is_quoted_token};
use std::alloc::AllocError;

/// Appends what the entry stands for: an exchange, or nothing where its status is outside 200 to 599.
pub(crate) fn add_entry(recording: &mut Vec<u8>, entry: &Entry) -> Result<(), AllocError>
    ensures { OnOk result (recording.new.items ≡ recording.old.items ++ recorded (entry_in entry.now)) }
{
    match entry.response.status {
        200..=599 => add_exchange(recording, entry),
        _ => Ok(()),
    }
}

fn add_exchange(recording: &mut Vec<u8>, entry: &Entry) -> Result<(), AllocError>
    ensures { OnOk result (recording.new.items ≡ recording.old.items ++ exchange_text (entry_in entry.now)) }
{
    add_request(recording, &entry.request)?;
    add_response_head(recording, &entry.response)?;
    add_body(recording, entry.request.method, &entry.response)
}

/// Appends the head of the request.
fn add_request(recording: &mut Vec<u8>, request: &Request) -> Result<(), AllocError>
    ensures { OnOk result (recording.new.items ≡ recording.old.items ++ request_text (request_in request.now)) }
{
    recording.extend_from_slice(request.method.as_bytes())?;
    recording.extend_from_slice(b" / HTTP/1.1\r\n")?;
    add_headers(recording, request.headers.as_slice())?;
    recording.extend_from_slice(b"\r\n")
}

/// Appends the head of the response, which states how long the body is.
fn add_response_head(recording: &mut Vec<u8>, response: &Response) -> Result<(), AllocError>
    ensures { OnOk result (recording.new.items ≡ recording.old.items ++ response_head (response_in response.now)) }
{
    add_status_line(recording, response.status)?;
    add_response_fields(recording, response)?;
    recording.extend_from_slice(b"\r\n")
}

/// Appends the lines of the headers that are kept, and the length of the body.
fn add_response_fields(recording: &mut Vec<u8>, response: &Response) -> Result<(), AllocError>
    ensures { OnOk result (recording.new.items
        ≡ recording.old.items ++ flat_map field_line (response_fields (response_in response.now))) }
{
    add_headers(recording, response.headers.as_slice())?;
    let length = decimal(response.body.len() as u64);
    add_field(recording, b"Content-Length", length.as_slice())?;
    Ok(())
}

fn add_status_line(recording: &mut Vec<u8>, status: u64) -> Result<(), AllocError>
    ensures { OnOk result (recording.new.items ≡ recording.old.items ++ (status_line status ++ crlf)) }
{
    recording.extend_from_slice(b"HTTP/1.1 ")?;
    recording.extend_from_slice(decimal(status).as_slice())?;
    recording.extend_from_slice(b" OK\r\n")
}

/// Appends the body, but for a response that has none: to HEAD, or with the status 204 or 304.
fn add_body(recording: &mut Vec<u8>, method: &str, response: &Response) -> Result<(), AllocError>
    ensures { OnOk result (recording.new.items
        ≡ recording.old.items ++ sent_body method.now (response_in response.now)) }
{
    if method == "HEAD" || matches!(response.status, 204 | 304) {
        return Ok(());
    }
    recording.extend_from_slice(response.body.as_slice())
}

/// Appends the lines of the headers that are kept.
fn add_headers(recording: &mut Vec<u8>, headers: &[Header]) -> Result<(), AllocError>
    ensures { OnOk result (recording.new.items
        ≡ recording.old.items ++ flat_map field_line (filter is_kept_header (headers_in headers.now))) }
{
    'headers: for header in headers {
        if is_kept(header) {
            add_field(recording, header.name.as_bytes(), header.value.as_bytes())?;
        }
    }
    Ok(())
}

/// Appends a field's line.
fn add_field(recording: &mut Vec<u8>, name: &[u8], value: &[u8]) -> Result<(), AllocError>
    ensures { OnOk result (recording.new.items ≡ recording.old.items ++ field_line (name.now, value.now)) }
{
    recording.extend_from_slice(name)?;
    recording.extend_from_slice(b": ")?;
    recording.extend_from_slice(value)?;
    recording.extend_from_slice(b"\r\n")
}

fn is_kept(header: &Header) -> bool
    ensures { result ≡ is_kept_header (header_in header.now) }
{
    is_kept_name(header.name.as_bytes()) && is_field_value(header.value.as_bytes())
}

/// Whether the name is a token, and none of those that no recorded head takes from a log.
fn is_kept_name(name: &[u8]) -> bool
    ensures { result ≡ is_kept_text name.now }
{
    is_token_text(name)
        && !(eq_ignore_case(name, b"Content-Length")
            || eq_ignore_case(name, b"Transfer-Encoding")
            || eq_ignore_case(name, b"Content-Encoding")
            || eq_ignore_case(name, b"Orb-Media"))
}

/// Whether each byte of the value is 09, 20 to 7E, or 80 to FF.
fn is_field_value(value: &[u8]) -> bool
    ensures { result ≡ is_value_text value.now }
{
    value.iter().all(|b| is_quoted_token(*b))
}
