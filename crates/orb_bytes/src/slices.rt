//! The first and the last bytes of a text.
ghost use Rattle.std.specs.Prelude.{◌≡◌, ◌≤◌, ◌-◌, length, take, drop};

/// The first bytes, at most so many.
pub fn first_bytes(text: &[u8], most: usize) -> &[u8]
    ensures bytes { result.now ≡ take most text.now }
    ensures fits { length result.now ≤ most }
{
    if most < text.len() {
        text.split_at(most).0
    } else {
        text
    }
}

/// The last bytes, at most so many.
pub fn last_bytes(text: &[u8], most: usize) -> &[u8]
    ensures { result.now ≡ drop (length text.now - most) text.now }
{
    if most < text.len() {
        text.split_at(text.len() - most).1
    } else {
        text
    }
}

#[cfg(test)]
mod tests {
    use super::*;

    #[test]
    fn first_and_last_bytes(rt: HostRuntime) {
        for (most, first, last) in [
            (0, "", ""),
            (2, "ab", "bc"),
            (3, "abc", "abc"),
            (4, "abc", "abc"),
        ] {
            assert_eq!(rt; first_bytes(b"abc", most), first.as_bytes());
            assert_eq!(rt; last_bytes(b"abc", most), last.as_bytes());
        }
    }
}
