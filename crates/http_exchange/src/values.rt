//! The values of a head by the names of its fields.
ghost use Rattle.std.specs.Prelude.{◌≡◌, ◌≤◌, length, is_some};
ghost use Rattle.header_values.specs.Fields.{AreOfHead, pairs_in};
ghost use Rattle.header_values.specs.Joined.{joined};
ghost use Rattle.http_exchange.specs.RequestFields.{value_of, is_value, is_other};

use header_values::{Fields, Scratch};
use orb_bytes::trim_http_ws;

/// Whether there is a field of the name.
pub(crate) fn has_field(fields: &Fields, name: &[u8], scratch: &mut Scratch) -> bool
    requires fields { AreOfHead fields.now }
    requires room { length fields.now.head.now ≤ scratch.old }
    ensures value { result ≡ is_some (joined (pairs_in fields.now) name.now) }
    ensures kept { scratch.new ≡ scratch.old }
{
    scratch.join(fields, name).is_some()
}

/// Whether there is a value of the name, and it is this one.
pub(crate) fn has_value(fields: &Fields, name: &[u8], value: &[u8], scratch: &mut Scratch) -> bool
    requires fields { AreOfHead fields.now }
    requires room { length fields.now.head.now ≤ scratch.old }
    ensures value { result ≡ is_value (value_of (pairs_in fields.now) name.now) value.now }
    ensures kept { scratch.new ≡ scratch.old }
{
    match scratch.join(fields, name) {
        Some(joined) => trim_http_ws(joined) == value,
        None => false,
    }
}

/// Whether there is a value of the name, and it is another one.
pub(crate) fn has_other(fields: &Fields, name: &[u8], value: &[u8], scratch: &mut Scratch) -> bool
    requires fields { AreOfHead fields.now }
    requires room { length fields.now.head.now ≤ scratch.old }
    ensures value { result ≡ is_other (value_of (pairs_in fields.now) name.now) value.now }
    ensures kept { scratch.new ≡ scratch.old }
{
    match scratch.join(fields, name) {
        Some(joined) => trim_http_ws(joined) != value,
        None => false,
    }
}
