//! The values of parameters (WHATWG MIME Sniffing 4.4).
ghost use Rattle.std.specs.Prelude.{◌≡◌, true, option_map, IfOk};
ghost use Rattle.mime_types.specs.Spans.{begins_outside};
ghost use Rattle.mime_types.specs.Mime.{Assigned, is_name_byte, assigned_value};
ghost use Rattle.mime_types.specs.Reading.{ReadsAssigned};

use crate::scanning::{split_before, strip_byte};
use orb_bytes::{read_quoted, trim_http_ws_end};
use std::alloc::{AllocError, Global};

/// The value that a name is assigned, if any, and the text from the next `;` on.
pub(crate) fn read_value(alloc: Global, text: &[u8]) -> Result<(Option<Vec<u8>>, &[u8]), AllocError>
    requires { begins_outside is_name_byte text.now ≡ true }
    ensures { IfOk result (λ x. (assigned : Assigned) × ReadsAssigned text.now assigned x.1.now
        × (option_map (λ v. v.items) x.0 ≡ assigned_value assigned)) }
{
    let Some(after) = strip_byte(b'=', text) else {
        return Ok((None, text));
    };
    if let Some(string) = strip_byte(b'"', after) {
        let (value, after) = read_quoted(alloc, string)?;
        let (_, rest) = split_before(b';', after);
        return Ok((Some(value), rest));
    }
    let (field, rest) = split_before(b';', after);
    Ok((plain_value(alloc, field)?, rest))
}

/// The value without quotes; `None` where nothing but HTTP whitespace is there.
fn plain_value(alloc: Global, field: &[u8]) -> Result<Option<Vec<u8>>, AllocError>
    ensures { IfOk result
        (λ x. option_map (λ v. v.items) x ≡ assigned_value (Assigned.plain field.now)) }
{
    let value = trim_http_ws_end(field);
    if value.is_empty() {
        return Ok(None);
    }
    Ok(Some(value.to_vec(alloc)?))
}
