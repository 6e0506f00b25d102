//! The word `mime`: the MIME type of a text, in a line.
ghost use Rattle.std.specs.Prelude.{◌≡◌, ℕ, List, [], IfOk, OnOk, ◌++◌};
ghost use Rattle.orb_io.specs.Told.{Gives};
ghost use Rattle.orb_cli.specs.MimeLine.{IsMimeText, IsMimeLine};
ghost use Rattle.orb_cli.specs.Answer.{IsMimeAnswer, HasCauses};

use crate::outcome::Outcome;
use mime_types::{MimeError, MimeType};
use orb_io::{Failed, NoMemory, Sink, push_nonempty};
use std::alloc::Global;

/// Writes the MIME type of the text, or `failure` where it is the text of none, and a line feed.
pub fn mime<O: Sink>(alloc: Global, text: &[u8], output: &mut O) -> Outcome
    ensures wrote { Gives (O.told output.old) (O.told output.new) [] (IsMimeAnswer text.now [] result) }
    ensures causes { (n : ℕ) → HasCauses n n (O.faults output.old) (O.faults output.new) result }
{
    match mime_line(alloc, text) {
        Err(NoMemory) => Outcome::NoMemory,
        Ok(line) => match push_nonempty(line.as_slice(), output) {
            Ok(()) => Outcome::Done,
            Err(Failed) => Outcome::WriteFault,
        },
    }
}

/// The line that is written of a text.
fn mime_line(alloc: Global, text: &[u8]) -> Result<Vec<u8>, NoMemory>
    ensures { IfOk result (λ line. IsMimeLine text.now line.items) }
{
    let mut line = Vec::new(alloc);
    append_mime(alloc, text, &mut line)?;
    append(&mut line, b"\n")?;
    Ok(line)
}

/// Appends the text of the record that the text has, or `failure`.
fn append_mime(alloc: Global, text: &[u8], line: &mut Vec<u8>) -> Result<(), NoMemory>
    ensures { OnOk result ((out : List ℕ) × IsMimeText text.now out
        × (line.new.items ≡ line.old.items ++ out)) }
{
    match MimeType::parse(alloc, text) {
        Ok(mime) => mime.serialise_into(line),
        Err(MimeError::NotMime) => append(line, b"failure"),
        Err(MimeError::NoMemory) => Err(NoMemory),
    }
}

fn append(line: &mut Vec<u8>, text: &[u8]) -> Result<(), NoMemory>
    ensures { OnOk result (line.new.items ≡ line.old.items ++ text.now) }
{
    line.extend_from_slice(text).map_err(|_| NoMemory)
}
