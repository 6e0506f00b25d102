//! The fields of a head.
ghost use Rattle.std.specs.Prelude.{◌≡◌, ◌↔◌, ◌+◌, ◌-◌, ◌<◌, ◌≤◌, ◌++◌, length, vec_capacity, if◌then◌else◌, Some, None, IsTrue, IfSome, IfNone};
ghost use Rattle.header_values.specs.Fields.{IsFieldSpan};
ghost use Rattle.header_values.specs.Joined.{separator};

use orb_bytes::{append, eq_ignore_case};

/// Where a field stands in its head: the offsets of its first bytes, and of the bytes after its last ones.
#[derive(Clone, Copy, Debug, Default, PartialEq, Eq)]
pub struct FieldSpan {
    /// The first byte of the name.
    pub name_start: usize,
    /// After the last byte of the name.
    pub name_end: usize,
    /// The first byte of the value.
    pub value_start: usize,
    /// After the last byte of the value.
    pub value_end: usize,
}

impl FieldSpan {
    /// Whether name and value lie within so many bytes, and the name isn't empty.
    fn is_within(&self, length: usize) -> bool
        ensures { IsTrue result ↔ IsFieldSpan length self.now }
    {
        self.name_start < self.name_end
            && self.name_end <= length
            && self.value_start <= self.value_end
            && self.value_end <= length
    }

    /// What is left of so many bytes without name, value and two more; `None` exactly where they don't suffice.
    fn left_of(&self, size: usize) -> Option<usize>
        requires name { self.now.name_start ≤ self.now.name_end }
        requires value { self.now.value_start ≤ self.now.value_end }
        ensures left { IfSome result (λ left. left
            + (self.now.name_end - self.now.name_start + (self.now.value_end - self.now.value_start) + 2) ≡ size) }
        ensures none { IfNone result (size
            < self.now.name_end - self.now.name_start + (self.now.value_end - self.now.value_start) + 2) }
    {
        size.checked_sub(self.name_end - self.name_start)?
            .checked_sub(self.value_end - self.value_start)?
            .checked_sub(2)
    }
}

/// The fields of a head.
#[derive(Clone, Copy, Debug)]
pub struct Fields<'a> {
    /// The bytes of the head.
    pub head: &'a [u8],
    /// Where the fields stand in it, in order.
    pub spans: &'a [FieldSpan],
}

impl<'a> Fields<'a> {
    ghost use Rattle.header_values.specs.Fields.{AreFields, AreOfHead, pairs_in};
    ghost use Rattle.header_values.specs.Joined.{joined};

    /// The fields of the head at these spans; `None` exactly where one doesn't lie in the head, a name is empty, or
    /// the head is too short for all of them.
    pub fn of(head: &'a [u8], spans: &'a [FieldSpan]) -> Option<Fields<'a>>
        ensures same { IfSome result (λ f. (f.head.now ≡ head.now) × (f.spans.now ≡ spans.now)) }
        ensures good { IfSome result AreOfHead }
        ensures none { IfNone result (¬ (AreFields head.now spans.now)) }
    {
        let mut left = head.len();
        for span in spans {
            if !span.is_within(head.len()) {
                return None;
            }
            left = span.left_of(left)?;
        }
        Some(Fields { head, spans })
    }

    /// Writes the joined values over the text; false exactly where there is none.
    pub(crate) fn write_joined(&self, name: &[u8], text: &mut Vec<u8>) -> bool
        requires fields { AreOfHead self.now }
        requires room { length self.now.head.now ≤ vec_capacity text.old }
        ensures capacity { vec_capacity text.old ≤ vec_capacity text.new }
        ensures joined { (if result then Some text.new.items else None)
            ≡ joined (pairs_in self.now) name.now }
    {
        text.clear();
        let mut found = false;
        for span in self.spans {
            if eq_ignore_case(&self.head[span.name_start..span.name_end], name) {
                append_value(text, found, &self.head[span.value_start..span.value_end]);
                found = true;
            }
        }
        found
    }
}

/// Appends the value, after `, ` where it follows another, and there is room for both.
fn append_value(text: &mut Vec<u8>, follows: bool, value: &[u8])
    requires { length text.old.items + length value.now + 2 ≤ vec_capacity text.old }
    ensures items { text.new.items ≡ text.old.items ++ (separator follows ++ value.now) }
    ensures capacity { vec_capacity text.old ≤ vec_capacity text.new }
{
    if follows {
        append(text, b", ");
    }
    append(text, value);
}
