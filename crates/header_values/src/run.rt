//! The records of one essence that stand next to one another.
ghost use Rattle.std.specs.Prelude.{◌≡◌, ◌&&◌, bytes_eq, if◌then◌else◌, Some, None, IfOk};
ghost use Rattle.header_values.specs.Extracted.{same_essence};
ghost use Rattle.header_values.specs.Runs.{run_with, run_after, answer_in};

use mime_types::MimeType;
use orb_io::NoMemory;

/// The last records so far that have one essence.
#[derive(Drop)]
pub(crate) struct Run {
    /// The first of them.
    first: MimeType,
    /// The last of them, where there are several.
    last: Option<MimeType>,
}

impl Run {
    /// The run after one record more, if there is one. It begins anew where the essence is
    /// another.
    pub(crate) fn after(run: Option<Run>, mime: Option<MimeType>) -> Option<Run>
        ensures { result ≡ run_after run mime }
    {
        let Some(mime) = mime else {
            return run;
        };
        Some(match run {
            Some(run) => run.with(mime),
            None => Run::of(mime),
        })
    }

    fn of(mime: MimeType) -> Run
        ensures { result ≡ record { first = mime; last = None } }
    {
        Run {
            first: mime,
            last: None,
        }
    }

    fn with(mut self, mime: MimeType) -> Run
        ensures { result ≡ run_with (Some self) mime }
    {
        if have_same_essence(&mime, &self.first) {
            self.last = Some(mime);
            self
        } else {
            Run::of(mime)
        }
    }

    /// The last record. Where it has no charset and the first has one, it gets that one as its last
    /// parameter.
    pub(crate) fn into_answer(self) -> Result<MimeType, NoMemory>
        ensures { IfOk result (λ mime. mime ≡ answer_in self) }
    {
        let Run { first, last } = self;
        let Some(mut last) = last else {
            return Ok(first);
        };
        if last.parameter(b"charset").is_none()
            && let Some(charset) = first.parameter(b"charset")
        {
            last.add_parameter(b"charset", charset)?;
        }
        Ok(last)
    }
}

fn have_same_essence(a: &MimeType, b: &MimeType) -> bool
    ensures { result ≡ same_essence a.now b.now }
{
    a.main_type() == b.main_type() && a.subtype() == b.subtype()
}
