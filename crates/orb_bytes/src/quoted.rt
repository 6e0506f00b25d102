//! Quoted strings (RFC 9110 5.6.4), read as WHATWG Fetch 2.2 collects them, and written.
ghost use Rattle.std.specs.Prelude.{◌≡◌, ◌++◌, List, IfOk, OnOk};
ghost use Rattle.orb_bytes.specs.Quoted.{QuotedUnit, Close, quoted_value, ReadsQuoted};
ghost use Rattle.orb_bytes.specs.Quoted.{quoted_byte, quoted_text};

use std::alloc::{AllocError, Global};

/// The value of the quoted string whose opening quotation mark stands before the text, and what follows the string
/// (WHATWG Fetch 2.2: collect an HTTP quoted string).
///
/// # Errors
/// [`AllocError`] where memory runs out.
pub fn read_quoted(alloc: Global, text: &[u8]) -> Result<(Vec<u8>, &[u8]), AllocError>
    ensures { IfOk result (λ x. (units : List QuotedUnit) × (close : Close)
        × ReadsQuoted text.now units close x.1.now × (x.0.items ≡ quoted_value units close)) }
{
    let mut value = Vec::new(alloc);
    let mut rest = text;
    'units: while let Some((first, after)) = rest.split_first() {
        match *first {
            b'"' => return Ok((value, after)),
            b'\\' => {
                let Some((byte, others)) = after.split_first() else {
                    value.push(b'\\')?;
                    return Ok((value, after));
                };
                value.push(*byte)?;
                rest = others;
            }
            byte => {
                value.push(byte)?;
                rest = after;
            }
        }
    }
    Ok((value, rest))
}

/// Appends the value between quotation marks, a `\` before each `"` and `\` of it.
///
/// # Errors
/// [`AllocError`] where memory runs out.
pub fn append_quoted(text: &mut Vec<u8>, value: &[u8]) -> Result<(), AllocError>
    ensures { OnOk result (text.new.items ≡ text.old.items ++ quoted_text value.now) }
{
    text.push(b'"')?;
    for b in value {
        append_byte(text, *b)?;
    }
    text.push(b'"')?;
    Ok(())
}

fn append_byte(text: &mut Vec<u8>, b: u8) -> Result<(), AllocError>
    ensures { OnOk result (text.new.items ≡ text.old.items ++ quoted_byte b) }
{
    if matches!(b, b'"' | b'\\') {
        text.push(b'\\')?;
    }
    text.push(b)?;
    Ok(())
}

#[cfg(test)]
mod tests {
    use super::*;
    use std::test::Fail;

    /// What follows an opening quotation mark, its value, and what follows the string.
    const TEXTS: [(&str, &str, &str); 6] = [
        ("a b\"c", "a b", "c"),
        ("\\\"\\\\\\a\"", "\"\\a", ""),
        ("\"", "", ""),
        ("", "", ""),
        ("a", "a", ""),
        ("a\\", "a\\", ""),
    ];

    #[test]
    fn strings_are_read(rt: HostRuntime) -> Result<(), Fail> {
        for (text, value, rest) in TEXTS {
            let found = read_quoted(rt.alloc(), text.as_bytes())?;
            assert!(rt; found.0.as_slice() == value.as_bytes(), "{text}");
            assert_eq!(rt; found.1, rest.as_bytes(), "{text}");
        }
        Ok(())
    }

    #[test]
    fn strings_are_written(rt: HostRuntime) -> Result<(), Fail> {
        let mut text = Vec::new(rt.alloc());
        append_quoted(&mut text, b"a \"b\\")?;
        assert_eq!(rt; text.as_slice(), b"\"a \\\"b\\\\\"".as_slice());
        Ok(())
    }
}
