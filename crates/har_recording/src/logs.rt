//! A whole log.
ghost use Rattle.std.specs.Prelude.{◌≡◌, ◌+◌, ◌≤◌, ℕ, IfOk, IfErr, Some, None, Ok, Err, option_map, length};
ghost use Rattle.serde_json.specs.View.{view, items_view};
ghost use Rattle.har_recording.specs.declared.logs.HarError.TheVariants.{NoMemory as no_memory};
ghost use Rattle.har_recording.specs.Log.{json_of, entries_of as the_entries, without_mark as text_without_mark};
ghost use Rattle.har_recording.specs.Recorded.{har_of, recording_from};

use crate::entries::{Fault, read_entry};
use crate::messages::add_entry;
use serde_json::Value;
use std::alloc::{AllocError, Global};
use thiserror::Error;

/// A byte order mark: U+FEFF in UTF-8.
const BYTE_ORDER_MARK: &[u8] = b"\xEF\xBB\xBF";

/// Why no recording was made of a text.
#[derive(Clone, Copy, Debug, PartialEq, Eq, Error)]
pub enum HarError {
    /// It is no HAR log: this entry, numbered from 1, isn't whole. It is 0 where the text is not JSON, or has no entries.
    #[error("no HAR log at entry {entry}")]
    NotHar { entry: u64 },
    /// Memory ran out.
    #[error("out of memory")]
    NoMemory,
}

impl From<AllocError> for HarError {
    ghost from_gives = { λ _ e. e ≡ no_memory };

    fn from(_error: AllocError) -> HarError {
        HarError::NoMemory
    }
}

/// The recording that a HAR log stands for (HAR 1.2, RFC 9112).
///
/// A byte order mark at the beginning is dropped. The rest has to be JSON in UTF-8, whose nesting is at most 127, with an
/// object `log` that has an array `entries`. Each entry has a `request` with a `method`, which is a token, and `headers`, and a
/// `response` with a `status` of 0 to 999, `headers` and a `content`, whose `text` and `encoding` are strings or absent. The
/// text of the encoding `base64` is decoded. An entry whose status isn't 200 to 599 stands for nothing.
///
/// The target of each request is `/`, and each response states the length of its body as `Content-Length`. Dropped are
/// headers that cannot stand in a head, and Content-Length, Transfer-Encoding, Content-Encoding and Orb-Media, whatever
/// their case.
///
/// # Errors
///
/// [`HarError::NotHar`] exactly where the text is no such log, with the number from 1 of the first entry that isn't whole, or 0
/// where the fault is outside the entries, as in a text that is not JSON.
pub fn to_recording(alloc: Global, text: &[u8]) -> Result<Vec<u8>, HarError>
    ensures recording { IfOk result (λ recording. har_of text.now ≡ Ok recording.items) }
    ensures refused { IfErr result (λ e. (entry : ℕ) → e ≡ HarError.NotHar entry → har_of text.now ≡ Err entry) }
{
    let log = read_json(alloc, without_mark(text))?;
    match entries_of(&log) {
        Some(entries) => record_entries(alloc, entries),
        None => Err(HarError::NotHar { entry: 0 }),
    }
}

/// The text without one byte order mark at its beginning.
fn without_mark(text: &[u8]) -> &[u8]
    ensures { result.now ≡ text_without_mark text.now }
{
    if text.starts_with(BYTE_ORDER_MARK) {
        &text[BYTE_ORDER_MARK.len()..]
    } else {
        text
    }
}

/// The JSON that the text is.
fn read_json(alloc: Global, text: &[u8]) -> Result<Value, HarError>
    ensures value { IfOk result (λ v. json_of text.now ≡ Some (view v)) }
    ensures refused { IfErr result (λ e. (entry : ℕ) → e ≡ HarError.NotHar entry
        → (entry ≡ 0) × (json_of text.now ≡ None)) }
{
    let Ok(text) = std::str::from_utf8(text) else {
        return Err(HarError::NotHar { entry: 0 });
    };
    match Value::from_str(alloc, text) {
        Ok(value) => Ok(value),
        Err(error) if error.is_memory() => Err(HarError::NoMemory),
        Err(_) => Err(HarError::NotHar { entry: 0 }),
    }
}

/// The entries of a log.
fn entries_of(log: &Value) -> Option<&[Value]>
    ensures { option_map (λ values. items_view values.now) result ≡ the_entries (view log.now) }
{
    let entries = log.get("log")?.get("entries")?.as_array()?;
    Some(entries.as_slice())
}

/// What the entries stand for, one after the other.
fn record_entries(alloc: Global, entries: &[Value]) -> Result<Vec<u8>, HarError>
    ensures recording { IfOk result (λ recording. recording_from 1 (items_view entries.now) ≡ Ok recording.items) }
    ensures refused { IfErr result (λ e. (entry : ℕ) → e ≡ HarError.NotHar entry
        → recording_from 1 (items_view entries.now) ≡ Err entry) }
{
    let mut recording = Vec::new(alloc);
    'entries: for (index, value) in entries.iter().enumerate() {
        match read_entry(alloc, value) {
            Ok(entry) => add_entry(&mut recording, &entry)?,
            Err(Fault::NotWhole) => {
                return Err(HarError::NotHar {
                    entry: index as u64 + 1,
                });
            }
            Err(Fault::NoMemory) => return Err(HarError::NoMemory),
        }
    }
    Ok(recording)
}
