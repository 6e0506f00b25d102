//! A walk over rows, byte by byte: which of them the bytes so far begin with.
//!
//! A bit of a number stands for a row. Of the rows that are still open, those which the next byte doesn't fit drop out;
//! so a byte costs a step for each row that is open, and nothing where none is.
ghost use Rattle.std.specs.Prelude.{◌≡◌, IsTrue, List, [], ◌∷◌, ◌++◌, ℕ, ◌&&◌, true};
ghost use Rattle.std.specs.List.{list_any};
ghost use Rattle.orb_bytes.specs.Rows.{are_rows, first_matched, is_just_matched, is_open, is_at, ends_with, goes_on_with};
ghost use Rattle.orb_bytes.specs.declared.rows.Row.{Row as ARow};
ghost use Rattle.orb_bytes.specs.RowSets.{has, HavePlace};

use crate::row_sets::RowSet;
use crate::rows::Row;

/// A text that is compared with rows while it comes, byte by byte. It has a fixed size and keeps none of the text.
#[derive(Clone, Copy, Drop)]
pub struct Walk {
    rows: &'static [Row],
    /// How many bytes were fed, as long as a row is open.
    place: usize,
    /// The rows of more bytes than were fed, which these agree with.
    open_rows: RowSet,
    /// The rows that were matched.
    whole_rows: RowSet,
    /// Whether the last byte matched a row.
    is_just_whole: bool,
    ghost good: { are_rows rows.now ≡ true },
    ghost in_rows: { HavePlace rows.now open_rows place },
}

impl Walk {
    ghost use Rattle.orb_bytes.specs.Walks.{HasRead};

    /// A walk over at most 32 rows that was fed nothing.
    pub fn new(rows: &'static [Row]) -> Walk
        requires { IsTrue (are_rows rows.now) }
        ensures { HasRead result rows.now [] }
    {
        Walk {
            rows,
            place: 0,
            open_rows: RowSet::first_of(rows.len()),
            whole_rows: RowSet::EMPTY,
            is_just_whole: false,
        }
    }

    /// Goes on by a byte.
    pub fn feed(&mut self, b: u8)
        ensures { (rows : List ARow) (text : List ℕ) → HasRead self.old rows text → HasRead self.new rows (text ++ b ∷ []) }
    {
        if self.open_rows.is_empty() {
            self.is_just_whole = false;
            return;
        }
        let fitting = fitting_rows(self.rows, self.open_rows, self.place, b);
        *self = Walk {
            rows: self.rows,
            place: self.place + 1,
            open_rows: fitting.going_on,
            whole_rows: self.whole_rows.with(fitting.ending),
            is_just_whole: !fitting.ending.is_empty(),
        };
    }

    /// The least index of a row with which the bytes begin; `None` exactly where there is none.
    pub fn whole(&self) -> Option<usize>
        ensures { (rows : List ARow) (text : List ℕ) → HasRead self.now rows text → result ≡ first_matched rows text }
    {
        self.whole_rows.first()
    }

    /// Whether the bytes are just a row, and nothing stands after it.
    pub fn just_whole(&self) -> bool
        ensures { (rows : List ARow) (text : List ℕ) → HasRead self.now rows text → result ≡ list_any (is_just_matched text) rows }
    {
        self.is_just_whole
    }

    /// Whether another byte can lead to a row. Where it can't, the bytes that come change nothing but [`Walk::just_whole`].
    pub fn is_open(&self) -> bool
        ensures { (rows : List ARow) (text : List ℕ) → HasRead self.now rows text → result ≡ list_any (is_open text) rows }
    {
        !self.open_rows.is_empty()
    }
}

/// Which rows the byte at a place fits.
#[derive(Clone, Copy)]
struct Fitting {
    /// Those that go on after the place.
    going_on: RowSet,
    /// Those that end there.
    ending: RowSet,
}

/// Of these rows, those that have the byte at the place.
fn fitting_rows(rows: &[Row], open_rows: RowSet, place: usize, b: u8) -> Fitting
    requires { HavePlace rows.now open_rows place }
    ensures going_on { (i : ℕ) → has result.going_on i ≡ (has open_rows i && is_at (goes_on_with place b) rows.now i) }
    ensures ending { (i : ℕ) → has result.ending i ≡ (has open_rows i && is_at (ends_with place b) rows.now i) }
{
    let mut left = open_rows;
    let mut going_on = RowSet::EMPTY;
    let mut ending = RowSet::EMPTY;
    'rows: while let Some(index) = left.first() {
        let row = &rows[index];
        if b & row.mask[place] == row.bytes[place] {
            if row.bytes.len() == place + 1 {
                ending.insert(index);
            } else {
                going_on.insert(index);
            }
        }
        left.remove(index);
    }
    Fitting { going_on, ending }
}

#[cfg(test)]
mod tests {
    use super::*;
    use crate::rows::first_row;

    static BREAKS: [Row; 2] = [
        Row {
            bytes: b"<B",
            mask: b"\xff\xdf",
        },
        Row {
            bytes: b"<BR",
            mask: b"\xff\xdf\xdf",
        },
    ];

    static OVERLAPPING: [Row; 3] = [
        Row {
            bytes: b"abcd",
            mask: b"\xff\xff\xff\xff",
        },
        Row {
            bytes: b"a\0c",
            mask: b"\xff\0\xff",
        },
        Row {
            bytes: b"ab",
            mask: b"\xff\xff",
        },
    ];

    fn fed(rows: &'static [Row], text: &[u8]) -> (Option<usize>, bool, bool)
        requires { IsTrue (are_rows rows.now) }
    {
        let mut walk = Walk::new(rows);
        for b in text {
            walk.feed(*b);
        }
        (walk.whole(), walk.just_whole(), walk.is_open())
    }

    /// A text, the least of the rows, whether one is just whole, and whether one is open.
    const BREAK_TEXTS: [(&[u8], Option<usize>, bool, bool); 7] = [
        (b"", None, false, true),
        (b"<", None, false, true),
        (b"<b", Some(0), true, true),
        (b"<br", Some(0), true, false),
        (b"<bx", Some(0), false, false),
        (b"<x", None, false, false),
        (b"<brr", Some(0), false, false),
    ];

    /// The same of the rows that overlap.
    const OVERLAPPING_TEXTS: [(&[u8], Option<usize>, bool, bool); 6] = [
        (b"a", None, false, true),
        (b"ab", Some(2), true, true),
        (b"abc", Some(1), true, true),
        (b"axc", Some(1), true, false),
        (b"abcd", Some(0), true, false),
        (b"abce", Some(1), false, false),
    ];

    #[test]
    fn rows_are_told_byte_by_byte(rt: HostRuntime) {
        for (text, whole, just, open) in BREAK_TEXTS {
            assert!(rt; fed(&BREAKS, text) == (whole, just, open), "{text:?}");
        }
        for (text, whole, just, open) in OVERLAPPING_TEXTS {
            assert!(rt; fed(&OVERLAPPING, text) == (whole, just, open), "{text:?}");
            assert!(rt; first_row(&OVERLAPPING, text) == whole, "{text:?}");
        }
    }
}
