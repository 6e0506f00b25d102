//! The computed type of a response.
ghost use Rattle.std.specs.Prelude.{◌≡◌, ◌≤◌, length};
ghost use Rattle.std.specs.Borrow.{sem};
ghost use Rattle.header_values.specs.Fields.{AreOfHead, pairs_in};
ghost use Rattle.header_values.specs.Lending.{KeepsRoom};
ghost use Rattle.computed_type.specs.Computed.{IsComputed, HasType, essence_text};

use crate::answer::Computed;
use crate::plain::is_default_plain;
use crate::rules::type_instead;
use crate::unknown::unknown_type;
use header_values::{Fields, Scratch, extract_essence, nosniff};

/// The type that a browser takes a response for, by the fields of its head and the first bytes of its body (WHATWG MIME
/// Sniffing 7, as a profile: RAR archives, feeds and `audio/basic` are left out). The answer lies in the scratch, which
/// needs room for the head.
pub fn computed<'s>(scratch: &'s mut Scratch, fields: &Fields, window: &[u8]) -> Computed<'s>
    requires fields { AreOfHead fields.now }
    requires room { length fields.now.head.now ≤ scratch.old }
    ensures answer { IsComputed (pairs_in fields.now) window.now result }
    ensures essence { HasType (pairs_in fields.now) window.now (essence_text result) }
    ensures* kept { sem 𝓛 (KeepsRoom scratch.entry) }
{
    let nosniff = nosniff(fields, scratch);
    let plain = is_default_plain(fields, scratch);
    match extract_essence(scratch, fields) {
        Some(essence) => match type_instead(&essence, nosniff, plain, window) {
            Some(name) => Computed::Known(name),
            None => Computed::Supplied(essence),
        },
        None => Computed::Known(unknown_type(nosniff, window)),
    }
}
