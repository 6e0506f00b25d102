//! A value cut at its commas (WHATWG Fetch 2.2).
ghost use Rattle.header_values.specs.Parts.{IsParts};
ghost use Rattle.header_values.specs.Cuts.{parts_left, parts_of, HasOneCut};
ghost use Rattle.std.specs.Prelude.{◌≡◌, ℕ, List};

use crate::split::Parts;

/// The parts of a joined value: what stands between its commas, but for those in quoted strings. A
/// part loses the tabs and spaces at its ends, and an empty one stays: n such commas give n + 1
/// parts. (WHATWG Fetch 2.2: get, decode, and split)
pub fn parts(value: &[u8]) -> Parts<'_>
    ensures parts { IsParts value.now (parts_left result) }
    ensures all { parts_left result ≡ parts_of value.now }
{
    Parts { rest: Some(value) }
}

/// The law that a value has one list of parts.
pub fn one_cut()
    ensures { (value : List ℕ) → HasOneCut value }
{}

#[cfg(test)]
mod tests {
    use super::*;

    /// A value, and its parts.
    const VALUES: [(&str, &[&str]); 13] = [
        (
            "text/html;x=\"a,b, c\", text/css",
            &["text/html;x=\"a,b, c\"", "text/css"],
        ),
        ("", &[""]),
        (",", &["", ""]),
        ("a,\"b,", &["a", "\"b,"]),
        ("nosniff,", &["nosniff", ""]),
        ("text/html;\", x/x", &["text/html;\", x/x"]),
        ("x/x;test=\"hi\", y/y", &["x/x;test=\"hi\"", "y/y"]),
        ("x/x;test=\"hi\",y/y", &["x/x;test=\"hi\"", "y/y"]),
        ("x,,,1", &["x", "", "", "1"]),
        ("\"1,2\", 3", &["\"1,2\"", "3"]),
        (" \ta \t, b\t", &["a", "b"]),
        ("\"a\\\",b\",c", &["\"a\\\",b\"", "c"]),
        ("a\"b\\", &["a\"b\\"]),
    ];

    #[test]
    fn commas_outside_of_strings_cut(rt: HostRuntime) {
        for (value, expected) in VALUES {
            let mut rest = parts(value.as_bytes());
            for part in expected {
                assert!(rt; rest.next() == Some(part.as_bytes()), "{value}");
            }
            assert!(rt; rest.next().is_none(), "{value}");
        }
    }
}
