//! The parameters of a MIME type, in their order (WHATWG MIME Sniffing 4.4).
//!
//! A text is walked once, segment by segment, and what counts is kept on the way: of one name the
//! first. Whether a name is kept already is asked of each one that is, so that a text of many names
//! takes a time of the square of their number.
ghost use Rattle.std.specs.Prelude.{◌≡◌, true, ◌&&◌, not, [], ◌∷◌, ◌++◌, Some, OnOk, OnErr, IfOk, bytes_eq, option_copied};
ghost use Rattle.std.specs.List.{list_any, find};
ghost use Rattle.orb_bytes.specs.Ascii.{semicolon};
ghost use Rattle.mime_types.specs.Spans.{begins_outside};
ghost use Rattle.mime_types.specs.Mime.{Segment, is_no_semicolon, pair_of, is_parameter};
ghost use Rattle.mime_types.specs.Records.{has_name};
ghost use Rattle.mime_types.specs.Reading.{ReadsSegment, ReadsParameters, kept_with};
ghost use Rattle.mime_types.specs.Stored.{pairs_in};

use crate::scanning::{are_quoted_token_bytes, is_nonempty_token, lowered, split_name};
use crate::values::read_value;
use orb_bytes::trim_http_ws_start;
use std::alloc::{AllocError, Global};

/// A name in ASCII lowercase, and its value.
#[derive(Debug, Drop)]
pub(crate) struct Parameter {
    pub(crate) name: Vec<u8>,
    pub(crate) value: Vec<u8>,
}

/// The parameters that the text of segments stands for.
pub(crate) fn read_parameters(alloc: Global, text: &[u8]) -> Result<Vec<Parameter>, AllocError>
    requires { begins_outside is_no_semicolon text.now ≡ true }
    ensures { IfOk result (λ v. ReadsParameters text.now (pairs_in v.items)) }
{
    let mut kept = Vec::new(alloc);
    let mut rest = text;
    'segments: while let Some((_, after)) = rest.split_first() {
        rest = read_segment(alloc, after, &mut kept)?;
    }
    Ok(kept)
}

/// Reads the segment whose `;` stands before the text, keeps what it stands for, and gives the text
/// after it.
fn read_segment<'t>(
    alloc: Global,
    text: &'t [u8],
    kept: &mut Vec<Parameter>,
) -> Result<&'t [u8], AllocError>
    ensures { IfOk result (λ rest. (s : Segment) × ReadsSegment (semicolon ∷ text.now) s rest.now
        × (pairs_in kept.new.items ≡ kept_with (pairs_in kept.old.items) (pair_of s))) }
{
    let (name, after) = split_name(trim_http_ws_start(text));
    let (value, rest) = read_value(alloc, after)?;
    if let Some(value) = value {
        keep(kept, lowered(alloc, name)?, value)?;
    }
    Ok(rest)
}

/// Keeps the parameter, if it counts.
fn keep(kept: &mut Vec<Parameter>, name: Vec<u8>, value: Vec<u8>) -> Result<(), AllocError>
    ensures ok { OnOk result (pairs_in kept.new.items
        ≡ kept_with (pairs_in kept.old.items) (Some (name.items, value.items))) }
{
    if counts(kept, &name, &value) {
        kept.push(Parameter { name, value })?;
    }
    Ok(())
}

/// Whether the two may be a parameter, and the name is new.
fn counts(kept: &[Parameter], name: &[u8], value: &[u8]) -> bool
    ensures { result
        ≡ is_parameter (name.now, value.now) && not (has_name name.now (pairs_in kept.now)) }
{
    may_be_parameter(name, value) && !has_parameter(kept, name)
}

/// Whether the name is a token, and the value can stand in quotes.
fn may_be_parameter(name: &[u8], value: &[u8]) -> bool
    ensures { result ≡ is_parameter (name.now, value.now) }
{
    is_nonempty_token(name) && are_quoted_token_bytes(value)
}

/// Whether a parameter has this name.
fn has_parameter(parameters: &[Parameter], name: &[u8]) -> bool
    ensures { result ≡ list_any (λ p. bytes_eq p.name.items name.now) parameters.now }
{
    parameters.iter().any(|p| p.name.as_slice() == name)
}

/// The parameter of this name, if there is one.
pub(crate) fn find_parameter<'p>(parameters: &'p [Parameter], name: &[u8]) -> Option<&'p Parameter>
    ensures { option_copied result ≡ find (λ p. bytes_eq p.name.items name.now) parameters.now }
{
    parameters.iter().find(|p| p.name.as_slice() == name)
}

/// Adds a parameter of this name and value after the others.
pub(crate) fn add_copy(
    parameters: &mut Vec<Parameter>,
    name: &[u8],
    value: &[u8],
) -> Result<(), AllocError>
    ensures ok { OnOk result (pairs_in parameters.new.items
        ≡ pairs_in parameters.old.items ++ (name.now, value.now) ∷ []) }
    ensures err { OnErr result (parameters.new.items ≡ parameters.old.items) }
{
    let alloc = *parameters.allocator();
    let name = name.to_vec(alloc)?;
    let value = value.to_vec(alloc)?;
    parameters.push(Parameter { name, value })?;
    Ok(())
}
