//! Request targets that a proxy takes: absolute ones (RFC 9112 3.2.2) with the scheme `http`.
ghost use Rattle.std.specs.Prelude.{◌≡◌, ◌↔◌, ℕ, List, Some, false, codes, IsSome, IsTrue, MatchOption};
ghost use Rattle.std.specs.List.{list_any};
ghost use Rattle.http_uri.specs.Uri.{uri_authority, uri_scheme, uri_data, Spells};
ghost use Rattle.http_uri.specs.Grammar.{authority_host};
ghost use Rattle.live_proxy.specs.Targets.{is_refused_byte, IsPort, IsHostAndPort, absolute_path};
ghost use Rattle.live_proxy.specs.TargetReads.{IsPlace, ReadsTarget};

use http_uri::{Uri, UriError};
use orb_bytes::read_decimal;
use std::alloc::Global;

/// A target that was read.
#[derive(Drop)]
pub(crate) struct ProxyTarget {
    pub(crate) uri: Uri,
    pub(crate) port: u16,
}

/// Why no target was read.
#[derive(Clone, Copy, Debug, PartialEq, Eq)]
pub(crate) enum TargetRefusal {
    /// The text is no such target.
    BadTarget,
    /// There is no memory for it.
    NoMemory,
}

/// Reads a target.
pub(crate) fn read_target(alloc: Global, text: &[u8]) -> Result<ProxyTarget, TargetRefusal>
    ensures { ReadsTarget text.now result }
{
    if has_refused(text) {
        return Err(TargetRefusal::BadTarget);
    }
    match Uri::from_bytes(alloc, text) {
        Ok(uri) => with_port(uri),
        Err(UriError::Invalid(_)) => Err(TargetRefusal::BadTarget),
        Err(UriError::OutOfMemory) => Err(TargetRefusal::NoMemory),
    }
}

/// Whether the text has a byte that no target may have.
fn has_refused(text: &[u8]) -> bool
    ensures { result ≡ list_any is_refused_byte text.now }
{
    text.iter().any(|b| is_refused(*b))
}

/// Whether no target may have the byte.
fn is_refused(b: u8) -> bool
    ensures { result ≡ is_refused_byte b }
{
    matches!(b, b'@' | b'#')
}

/// The target with its port, where it has one.
fn with_port(uri: Uri) -> Result<ProxyTarget, TargetRefusal>
    ensures { (text : List ℕ) → Spells text uri → list_any is_refused_byte text ≡ false → ReadsTarget text result }
{
    match port_of(&uri) {
        Some(port) => Ok(ProxyTarget { uri, port }),
        None => Err(TargetRefusal::BadTarget),
    }
}

/// The port of a target; `None` exactly where its scheme isn't `http`, its host is empty, or the port after it is none.
fn port_of(uri: &Uri) -> Option<u16>
    ensures { MatchOption result ((port : ℕ) → ¬ (IsPlace uri.now port)) (IsPlace uri.now) }
{
    if !is_http(uri) {
        return None;
    }
    let host = uri.host()?.as_bytes();
    if host.is_empty() {
        return None;
    }
    let authority = uri.authority()?.as_str().as_bytes();
    port_after(authority.strip_prefix(host)?)
}

fn is_http(uri: &Uri) -> bool
    ensures { IsTrue result ↔ (uri_scheme uri.now ≡ Some (codes "http")) }
{
    match uri.scheme_str() {
        Some(scheme) => scheme == "http",
        None => false,
    }
}

/// The port that stands after a host.
fn port_after(text: &[u8]) -> Option<u16>
    ensures { MatchOption result ((port : ℕ) → ¬ (IsPort text.now port)) (IsPort text.now) }
{
    let Some((first, digits)) = text.split_first() else {
        return Some(80);
    };
    if *first != b':' {
        return None;
    }
    let port = read_decimal(digits)?;
    if (1..=65535).contains(&port) {
        Some(port as u16)
    } else {
        None
    }
}

/// The host of a target.
pub(crate) fn host_of(uri: &Uri) -> &[u8]
    requires { IsSome (uri_authority uri.now) }
    ensures { (authority : List ℕ) → uri_authority uri.now ≡ Some authority → result.now ≡ authority_host authority }
{
    match uri.host() {
        Some(host) => host.as_bytes(),
        None => unreachable!(),
    }
}

/// The path and the query of a target.
pub(crate) fn path_of(uri: &Uri) -> &[u8]
    requires { uri_scheme uri.now ≡ Some (codes "http") }
    ensures { absolute_path result.now ≡ absolute_path (uri_data uri.now) }
{
    match uri.path_and_query() {
        Some(text) => text.as_str().as_bytes(),
        None => unreachable!(),
    }
}
