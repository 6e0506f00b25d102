//! The request head that a proxy sends on (RFC 9110 7.6).
ghost use Rattle.std.specs.Prelude.{◌≡◌, ◌++◌, ◌∷◌, [], not, OnOk};
ghost use Rattle.header_values.specs.Fields.{AreOfHead, pairs_in};
ghost use Rattle.http_exchange.specs.Heads.{IsRequest};
ghost use Rattle.httparse.specs.Grammar.{RequestHead as RequestTree};
ghost use Rattle.live_proxy.specs.Targets.{Target, absolute_path};
ghost use Rattle.live_proxy.specs.TargetReads.{IsRead};
ghost use Rattle.live_proxy.specs.Requests.{is_sent_on, line_of, lines_of, start_of, forwarded_for};
ghost use Rattle.live_proxy.specs.Forwarding.{Prepares};

use crate::targets::{ProxyTarget, TargetRefusal, path_of, read_target};
use arrayvec::ArrayVec;
use header_values::Fields;
use http_exchange::request_parts;
use orb_bytes::eq_ignore_case;
use std::alloc::{AllocError, Global};

/// Reads the target of a request head, and writes the head that is sent on over the text.
pub(crate) fn prepare(
    alloc: Global,
    head: &[u8],
    text: &mut Vec<u8>,
) -> Result<ProxyTarget, TargetRefusal>
    requires { (h : RequestTree) × IsRequest head.now h }
    ensures { Prepares head.now result text.new.items }
{
    let mut spans = ArrayVec::new();
    let Some(parts) = request_parts(head, &mut spans) else {
        unreachable!()
    };
    let target = match read_target(alloc, parts.target) {
        Ok(target) => target,
        Err(refusal) => return Err(refusal),
    };
    text.clear();
    match append_head(text, parts.method, &target, &parts.fields) {
        Ok(()) => Ok(target),
        Err(_) => Err(TargetRefusal::NoMemory),
    }
}

/// Appends the head that is sent on.
#[tactic(auto, unfolding(crate::specs::Requests::forwarded_for))]
fn append_head(
    text: &mut Vec<u8>,
    method: &[u8],
    target: &ProxyTarget,
    fields: &Fields,
) -> Result<(), AllocError>
    requires read { (t : Target) × IsRead target.now t }
    requires fields { AreOfHead fields.now }
    ensures { (t : Target) → IsRead target.now t
        → OnOk result (text.new.items ≡ text.old.items ++ forwarded_for method.now t (pairs_in fields.now)) }
{
    append_start(text, method, target)?;
    append_lines(text, fields)?;
    append(text, b"Connection: close\r\n\r\n")
}

/// Appends the request line and the host.
fn append_start(text: &mut Vec<u8>, method: &[u8], target: &ProxyTarget) -> Result<(), AllocError>
    requires { (t : Target) × IsRead target.now t }
    ensures { (t : Target) → IsRead target.now t
        → OnOk result (text.new.items ≡ text.old.items ++ start_of method.now t) }
{
    let Some(authority) = target.uri.authority() else {
        unreachable!()
    };
    append(text, method)?;
    append(text, b" ")?;
    append_path(text, path_of(&target.uri))?;
    append(text, b" HTTP/1.1\r\nHost: ")?;
    append(text, authority.as_str().as_bytes())?;
    append(text, b"\r\n")
}

/// Appends a path and a query, with `/` before them where they don't begin so.
fn append_path(text: &mut Vec<u8>, path: &[u8]) -> Result<(), AllocError>
    ensures { OnOk result (text.new.items ≡ text.old.items ++ absolute_path path.now) }
{
    if path.first() != Some(&b'/') {
        append(text, b"/")?;
    }
    append(text, path)
}

/// Appends the lines of the fields that are sent on.
fn append_lines(text: &mut Vec<u8>, fields: &Fields) -> Result<(), AllocError>
    requires { AreOfHead fields.now }
    ensures { OnOk result (text.new.items ≡ text.old.items ++ lines_of (pairs_in fields.now)) }
{
    for span in fields.spans {
        let name = &fields.head[span.name_start..span.name_end];
        let value = &fields.head[span.value_start..span.value_end];
        append_if_sent(text, name, value)?;
    }
    Ok(())
}

/// Appends the line of a field, where it is sent on.
fn append_if_sent(text: &mut Vec<u8>, name: &[u8], value: &[u8]) -> Result<(), AllocError>
    ensures { OnOk result (text.new.items ≡ text.old.items ++ lines_of ((name.now, value.now) ∷ [])) }
{
    if is_dropped(name) {
        return Ok(());
    }
    append_line(text, name, value)
}

/// Whether the field isn't sent on.
fn is_dropped(name: &[u8]) -> bool
    ensures { result ≡ not (is_sent_on name.now) }
{
    eq_ignore_case(name, b"Host")
        || eq_ignore_case(name, b"Connection")
        || eq_ignore_case(name, b"Proxy-Connection")
        || eq_ignore_case(name, b"Keep-Alive")
        || eq_ignore_case(name, b"Accept-Encoding")
        || eq_ignore_case(name, b"Orb-Media")
}

/// Appends the line of a field.
fn append_line(text: &mut Vec<u8>, name: &[u8], value: &[u8]) -> Result<(), AllocError>
    ensures { OnOk result (text.new.items ≡ text.old.items ++ line_of (name.now, value.now)) }
{
    append(text, name)?;
    append(text, b": ")?;
    append(text, value)?;
    append(text, b"\r\n")
}

/// Appends the bytes.
fn append(text: &mut Vec<u8>, bytes: &[u8]) -> Result<(), AllocError>
    ensures { OnOk result (text.new.items ≡ text.old.items ++ bytes.now) }
{
    text.extend_from_slice(bytes)
}
