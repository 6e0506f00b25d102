//! Room for one joined value at a time.
//!
//! A call whose answer lies in the scratch takes the scratch first: the contract can then say that the
//! room stays.
ghost use Rattle.std.specs.Prelude.{◌≡◌, ◌≤◌, IfOk, length};

use crate::fields::Fields;
use orb_io::NoMemory;
use std::alloc::Global;
use std::marker::Model;

/// Room that is reserved once, into which the values of a field are joined. What it holds is of no
/// meaning between two calls.
#[derive(Drop)]
pub struct Scratch {
    text: Vec<u8>,
    room: usize,
}

impl Model for Scratch {
    ghost use Rattle.std.specs.Prelude.{ℕ, ◌≤◌, vec_capacity};

    ghost Value = { ℕ };

    // How many bytes it has room for.
    ghost view = { λ s. s.room };

    ghost invariant = { λ s. s.room ≤ vec_capacity s.text };
}

impl Scratch {
    ghost use Rattle.std.specs.Option.{option_copied};
    ghost use Rattle.std.specs.Borrow.{sem};
    ghost use Rattle.header_values.specs.Fields.{AreOfHead, pairs_in};
    ghost use Rattle.header_values.specs.Joined.{joined};
    ghost use Rattle.header_values.specs.Lending.{KeepsRoom};

    /// Reserves room for `room` bytes; [`NoMemory`] where that much memory can't be had.
    pub fn open(alloc: Global, room: usize) -> Result<Scratch, NoMemory>
        ensures { IfOk result (λ s. room ≤ s) }
    {
        match Vec::with_capacity(alloc, room) {
            Ok(text) => Ok(Scratch { text, room }),
            Err(_) => Err(NoMemory),
        }
    }

    /// The values of the fields of that name, with `, ` between them; names are compared without
    /// regard to case. `None` exactly where there is no such field.
    /// (RFC 9110 5.3, WHATWG Fetch 2.2: get)
    pub fn join(&mut self, fields: &Fields, name: &[u8]) -> Option<&[u8]>
        requires fields { AreOfHead fields.now }
        requires room { length fields.now.head.now ≤ self.old }
        ensures value { option_copied result ≡ joined (pairs_in fields.now) name.now }
        ensures* kept { sem 𝓛 (KeepsRoom self.entry) }
    {
        if fields.write_joined(name, &mut self.text) {
            Some(self.text.as_slice())
        } else {
            None
        }
    }
}

#[cfg(test)]
mod tests {
    use super::*;
    use crate::examples::Head;
    use std::test::Fail;

    /// A name, and the values of its fields, joined.
    const JOINED: [(&str, Option<&str>); 6] = [
        ("a", Some("x,  y,")),
        ("A", Some("x,  y,")),
        ("B", Some("")),
        ("c", Some(", ")),
        ("", None),
        ("abc", None),
    ];

    #[test]
    fn values_of_a_name_are_joined(rt: HostRuntime) -> Result<(), Fail> {
        let head = Head::of(
            rt.alloc(),
            &[
                ("A", "x"),
                ("b", ""),
                ("a", " y,"),
                ("C", ""),
                ("ab", "z"),
                ("c", ""),
            ],
        )?;
        let fields = head.fields()?;
        let mut scratch = Scratch::open(rt.alloc(), fields.head.len())?;
        for (name, joined) in JOINED {
            let found = scratch.join(&fields, name.as_bytes());
            assert!(rt; found == joined.map(|text| text.as_bytes()), "{name}");
        }
        Ok(())
    }
}
