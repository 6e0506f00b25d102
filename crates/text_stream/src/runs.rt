//! Runs of bytes at the beginning of a piece.
//!
//! A set of bytes that is asked about byte by byte is a table of 256, since a look-up has no branches. Who reads a text
//! in pieces passes by one the bytes that change nothing, as in a string or a comment.
ghost use Rattle.std.specs.Prelude.{◌≡◌};
ghost use Rattle.std.specs.List.{prefix_len};
ghost use Rattle.text_stream.specs.Runs.{is_in};

/// How many bytes at the beginning of the piece are in the table, up to the first that isn't.
#[inline]
pub fn run_length(table: &[bool; 256], piece: &[u8]) -> usize
    ensures { result ≡ prefix_len (is_in table.now) piece.now }
{
    piece.iter().take_while(|b| is_in(table, **b)).count()
}

/// Whether the byte is in the table.
fn is_in(table: &[bool; 256], b: u8) -> bool
    ensures { result ≡ is_in table.now b }
{
    table[usize::from(b)]
}
