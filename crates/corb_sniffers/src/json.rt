//! JSON.
ghost use Rattle.std.specs.Prelude.{◌≡◌, IsTrue, ◌↔◌, MatchOption, Some, None};
ghost use Rattle.corb_sniffers.specs.Json.{SniffsJson};
ghost use Rattle.corb_sniffers.specs.JsonReading.{rest_after_byte, rest_after_name, rest_after_colon};

use orb_bytes::trim_http_ws_start;

/// Whether the window begins as an object does: `{`, a name in quotes, and `:`, with white space where JSON has it.
pub fn sniffs_json(window: &[u8]) -> bool
    ensures { IsTrue result ↔ SniffsJson window.now }
{
    after_colon(window).is_some()
}

/// What follows the first name's colon.
fn after_colon(window: &[u8]) -> Option<&[u8]>
    ensures { MatchOption result (rest_after_colon window.now ≡ None) (λ rest. rest_after_colon window.now ≡ Some rest.now) }
{
    let object = after_byte(b'{', window)?;
    let name = after_byte(b'"', object)?;
    let member = after_name(name)?;
    after_byte(b':', member)
}

/// What follows white space, which JSON has as HTTP has it (RFC 8259 2), and the byte; `None` exactly where something else stands there.
fn after_byte(byte: u8, text: &[u8]) -> Option<&[u8]>
    ensures { MatchOption result (rest_after_byte byte text.now ≡ None) (λ rest. rest_after_byte byte text.now ≡ Some rest.now) }
{
    match trim_http_ws_start(text) {
        [first, rest @ ..] if *first == byte => Some(rest),
        _ => None,
    }
}

/// What follows the units of a name and its quote; `None` exactly where no name ends.
fn after_name(text: &[u8]) -> Option<&[u8]>
    ensures { MatchOption result (rest_after_name text.now ≡ None) (λ rest. rest_after_name text.now ≡ Some rest.now) }
{
    let mut rest = text;
    'units: loop {
        rest = match rest {
            [b'"', after @ ..] => return Some(after),
            [b'\\', escaped, after @ ..] if *escaped >= b' ' => after,
            [b, after @ ..] if *b >= b' ' && *b != b'\\' => after,
            _ => return None,
        };
    }
}
