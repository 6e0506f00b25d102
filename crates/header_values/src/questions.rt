//! What two fields say of a body.
ghost use Rattle.std.specs.Prelude.{◌≡◌, ◌≤◌, length};
ghost use Rattle.header_values.specs.Fields.{AreOfHead, pairs_in};
ghost use Rattle.header_values.specs.Questions.{is_nosniff, is_coded, is_coding};

use crate::cut::parts;
use crate::fields::Fields;
use crate::scratch::Scratch;
use orb_bytes::eq_ignore_case;

/// Whether the first part of X-Content-Type-Options is `nosniff`, but for the case of its letters
/// (WHATWG Fetch, determine nosniff).
#[tactic(auto, unfolding(crate::specs::Questions::is_nosniff))]
pub fn nosniff(fields: &Fields, scratch: &mut Scratch) -> bool
    requires fields { AreOfHead fields.now }
    requires room { length fields.now.head.now ≤ scratch.old }
    ensures value { result ≡ is_nosniff (pairs_in fields.now) }
    ensures kept { scratch.new ≡ scratch.old }
{
    let Some(value) = scratch.join(fields, b"X-Content-Type-Options") else {
        return false;
    };
    match parts(value).next() {
        Some(part) => eq_ignore_case(part, b"nosniff"),
        None => false,
    }
}

/// Whether some part of Content-Encoding is neither empty nor `identity`, but for the case of its
/// letters: the body is then not as its type says (RFC 9110 8.4).
#[tactic(auto, unfolding(crate::specs::Questions::is_coded))]
pub fn coded(fields: &Fields, scratch: &mut Scratch) -> bool
    requires fields { AreOfHead fields.now }
    requires room { length fields.now.head.now ≤ scratch.old }
    ensures value { result ≡ is_coded (pairs_in fields.now) }
    ensures kept { scratch.new ≡ scratch.old }
{
    match scratch.join(fields, b"Content-Encoding") {
        Some(value) => parts(value).any(is_body_coding),
        None => false,
    }
}

/// Whether it is neither empty nor `identity`.
fn is_body_coding(part: &[u8]) -> bool
    ensures { result ≡ is_coding part.now }
{
    !part.is_empty() && !eq_ignore_case(part, b"identity")
}

#[cfg(test)]
mod tests {
    use super::*;
    use crate::examples::Head;
    use std::test::Fail;

    /// A value, and whether it states nosniff.
    const NOSNIFF: [(&str, bool); 6] = [
        ("NoSniff, x", true),
        ("x, nosniff", false),
        ("nosniff", true),
        (", nosniff", false),
        ("nosniff;", false),
        ("", false),
    ];

    #[test]
    fn first_part_decides_on_sniffing(rt: HostRuntime) -> Result<(), Fail> {
        for (value, expected) in NOSNIFF {
            let head = Head::of(rt.alloc(), &[("X-CONTENT-type-options", value)])?;
            let fields = head.fields()?;
            let mut scratch = Scratch::open(rt.alloc(), fields.head.len())?;
            assert_eq!(rt; nosniff(&fields, &mut scratch), expected, "{value}");
            assert!(rt; !coded(&fields, &mut scratch));
        }
        Ok(())
    }

    /// A value, and whether it codes the body.
    const CODINGS: [(&str, bool); 6] = [
        ("gzip", true),
        ("identity, br", true),
        ("identity", false),
        ("IDENTITY , Identity", false),
        (" , ,", false),
        ("", false),
    ];

    #[test]
    fn any_coding_codes(rt: HostRuntime) -> Result<(), Fail> {
        for (value, expected) in CODINGS {
            let head = Head::of(rt.alloc(), &[("Content-Encoding", value)])?;
            let fields = head.fields()?;
            let mut scratch = Scratch::open(rt.alloc(), fields.head.len())?;
            assert_eq!(rt; coded(&fields, &mut scratch), expected, "{value}");
            assert!(rt; !nosniff(&fields, &mut scratch));
        }
        Ok(())
    }
}
