//! ASCII case.
ghost use Rattle.std.specs.Prelude.{◌≡◌};
ghost use Rattle.std.specs.Char.{to_ascii_lowercase};
ghost use Rattle.orb_bytes.specs.Fields.{same_name};

/// The small letter of an ASCII capital, and any other byte as it is.
pub fn lower(b: u8) -> u8
    ensures { result ≡ to_ascii_lowercase b }
{
    b.to_ascii_lowercase()
}

/// Whether the texts are equal after [`lower`] of each byte.
pub fn eq_ignore_case(a: &[u8], b: &[u8]) -> bool
    ensures { result ≡ same_name a.now b.now }
{
    a == b || a.eq_ignore_ascii_case(b)
}
