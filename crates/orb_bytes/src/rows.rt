//! Rows of bytes under masks (WHATWG MIME Sniffing 6).
ghost use Rattle.std.specs.Prelude.{◌≡◌};
ghost use Rattle.orb_bytes.specs.Rows.{begins_masked as is_begun_masked, is_matched, first_matched};

/// Bytes with which a text may begin, each under a mask: a bit that the mask hasn't is free.
///
/// The mask is as long as the bytes.
#[derive(Clone, Copy, Debug)]
pub struct Row {
    /// What the text's bytes are under the mask.
    pub bytes: &'static [u8],
    /// The bits that count, for each of the bytes.
    pub mask: &'static [u8],
}

/// Whether the text begins with the bytes, each under its mask; never where the mask is shorter than the bytes.
pub fn begins_masked(bytes: &[u8], mask: &[u8], text: &[u8]) -> bool
    ensures { result ≡ is_begun_masked bytes.now mask.now text.now }
{
    if text.len() < bytes.len() || mask.len() < bytes.len() {
        return false;
    }
    for (place, byte) in bytes.iter().enumerate() {
        if text[place] & mask[place] != *byte {
            return false;
        }
    }
    true
}

/// The least index of a row with which the text begins; `None` exactly where there is none.
pub fn first_row(rows: &[Row], text: &[u8]) -> Option<usize>
    ensures { result ≡ first_matched rows.now text.now }
{
    rows.iter()
        .position(|row| begins_masked(row.bytes, row.mask, text))
}
