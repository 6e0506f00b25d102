//! Heads for tests.
ghost use Rattle.std.specs.Prelude.{IfOk};
ghost use Rattle.header_values.specs.Fields.{AreOfHead};

use crate::fields::{FieldSpan, Fields};
use std::alloc::Global;
use std::test::Fail;

/// The fields of a head that a test makes.
#[derive(Drop)]
pub(crate) struct Head {
    text: Vec<u8>,
    spans: Vec<FieldSpan>,
}

impl Head {
    /// A line `name: value` for each pair.
    pub(crate) fn of(alloc: Global, pairs: &[(&str, &str)]) -> Result<Head, Fail> {
        let mut text = Vec::new(alloc);
        let mut spans = Vec::new(alloc);
        for (name, value) in pairs {
            let name_start = text.len();
            text.extend_from_slice(name.as_bytes())?;
            let name_end = text.len();
            text.extend_from_slice(b": ")?;
            let value_start = text.len();
            text.extend_from_slice(value.as_bytes())?;
            let value_end = text.len();
            text.extend_from_slice(b"\r\n")?;
            spans.push(FieldSpan {
                name_start,
                name_end,
                value_start,
                value_end,
            })?;
        }
        Ok(Head { text, spans })
    }

    /// Its bytes and where the fields stand, tested.
    pub(crate) fn fields(&self) -> Result<Fields<'_>, Fail>
        ensures { IfOk result AreOfHead }
    {
        let fields = Fields::of(&self.text, &self.spans).ok_or("fields of the head")?;
        Ok(fields)
    }
}
