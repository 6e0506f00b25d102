//! Bytes put after others, where there is room for them.
ghost use Rattle.std.specs.Prelude.{◌≡◌, ◌+◌, ◌≤◌, ◌++◌, length, vec_len, vec_capacity};

use arrayvec::ArrayVec;

/// Appends the bytes, for which there is room.
pub fn extend<const N: usize>(text: &mut ArrayVec<u8, N>, bytes: &[u8])
    requires { length text.old.items + length bytes.now ≤ N }
    ensures { text.new.items ≡ text.old.items ++ bytes.now }
{
    match text.try_extend_from_slice(bytes) {
        Ok(()) => {}
        Err(_) => unreachable!(),
    }
}

/// Appends the bytes, for which memory is reserved: none is taken.
pub fn append(text: &mut Vec<u8>, bytes: &[u8])
    requires { vec_len text.old + length bytes.now ≤ vec_capacity text.old }
    ensures items { text.new.items ≡ text.old.items ++ bytes.now }
    ensures capacity { vec_capacity text.old ≤ vec_capacity text.new }
{
    match text.extend_from_slice(bytes) {
        Ok(()) => {}
        Err(_) => unreachable!(),
    }
}
