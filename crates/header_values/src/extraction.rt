//! The MIME type that the fields of a head state (WHATWG Fetch 2.2: extract a MIME type).
ghost use Rattle.std.specs.Prelude.{◌≡◌, ◌≤◌, ◌&&◌, ℕ, List, length, IfSome, IfNone, None, Some, IfOk, if◌then◌else◌, codes};
ghost use Rattle.std.specs.Borrow.{sem};
ghost use Rattle.orb_bytes.specs.Fields.{same_name};
ghost use Rattle.header_values.specs.Fields.{AreOfHead, pairs_in};
ghost use Rattle.header_values.specs.Lending.{KeepsRoom};
ghost use Rattle.header_values.specs.Extracted.{IsExtracted, IsExtractedEssence, StatesOne};
ghost use Rattle.header_values.specs.Extracted.{is_any_type as is_any_mime};
ghost use Rattle.header_values.specs.Runs.{IsLastMime, IsKeptMime};
ghost use Rattle.header_values.specs.Essences.{IsKeptEssence, IsLastEssence};

use crate::cut::parts;
use crate::fields::Fields;
use crate::run::Run;
use crate::scratch::Scratch;
use mime_types::{Essence, MimeError, MimeType, essence_of};
use orb_bytes::eq_ignore_case;
use orb_io::NoMemory;
use std::alloc::Global;

/// The type and subtype that Content-Type states, as it writes them; `None` exactly where no part of
/// it is a MIME type other than `*/*` (WHATWG Fetch 2.2: extract a MIME type). The answer lies in
/// the scratch.
pub fn extract_essence<'s>(scratch: &'s mut Scratch, fields: &Fields) -> Option<Essence<'s>>
    requires fields { AreOfHead fields.now }
    requires room { length fields.now.head.now ≤ scratch.old }
    ensures found { IfSome result
        (λ e. IsExtractedEssence (pairs_in fields.now) e.main.now e.sub.now) }
    ensures none { IfNone result (IsExtracted (pairs_in fields.now) None) }
    ensures* kept { sem 𝓛 (KeepsRoom scratch.entry) }
{
    last_essence(scratch.join(fields, b"Content-Type")?)
}

/// The MIME type that Content-Type states, with its parameters; `None` exactly where no part of it is
/// a MIME type other than `*/*`. It is the last such part. Those right before it that have its type and
/// subtype make a run with it: where it has no charset and the first of the run has one, it gets that
/// one as its last parameter. (WHATWG Fetch 2.2: extract a MIME type)
///
/// # Errors
/// [`NoMemory`] where memory runs out.
pub fn extract_mime(
    alloc: Global,
    fields: &Fields,
    scratch: &mut Scratch,
) -> Result<Option<MimeType>, NoMemory>
    requires fields { AreOfHead fields.now }
    requires room { length fields.now.head.now ≤ scratch.old }
    ensures value { IfOk result (λ answer. IsExtracted (pairs_in fields.now) answer) }
    ensures kept { scratch.new ≡ scratch.old }
{
    match scratch.join(fields, b"Content-Type") {
        Some(value) => last_mime(alloc, value),
        None => Ok(None),
    }
}

/// The law that fields state one MIME type at most.
pub fn one_extracted()
    ensures { (fields : List (List ℕ × List ℕ)) → StatesOne fields }
{}

/// The type and subtype of the last part that is a MIME type other than `*/*`.
fn last_essence(value: &[u8]) -> Option<Essence<'_>>
    ensures { IsLastEssence value.now result }
{
    let mut last = None;
    for part in parts(value) {
        last = kept_essence(part).or(last);
    }
    last
}

/// The type and subtype of a part, unless they are `*/*`.
fn kept_essence(part: &[u8]) -> Option<Essence<'_>>
    ensures { IsKeptEssence part.now result }
{
    let essence = essence_of(part)?;
    if is_any_type(&essence) {
        None
    } else {
        Some(essence)
    }
}

/// Whether it is `*/*`.
fn is_any_type(essence: &Essence) -> bool
    ensures { result
        ≡ (same_name essence.now.main.now (codes "*") && same_name essence.now.sub.now (codes "*")) }
{
    eq_ignore_case(essence.main, b"*") && eq_ignore_case(essence.sub, b"*")
}

/// What the parts of the value state.
fn last_mime(alloc: Global, value: &[u8]) -> Result<Option<MimeType>, NoMemory>
    ensures { IfOk result (λ answer. IsLastMime value.now answer) }
{
    let mut run = None;
    for part in parts(value) {
        run = Run::after(run, kept_mime(alloc, part)?);
    }
    match run {
        Some(run) => Ok(Some(run.into_answer()?)),
        None => Ok(None),
    }
}

/// The record of a part, unless its type and subtype are `*/*`.
fn kept_mime(alloc: Global, part: &[u8]) -> Result<Option<MimeType>, NoMemory>
    ensures { IfOk result (λ mime. IsKeptMime part.now mime) }
{
    match MimeType::parse(alloc, part) {
        Ok(mime) => Ok(unless_any(mime)),
        Err(MimeError::NotMime) => Ok(None),
        Err(MimeError::NoMemory) => Err(NoMemory),
    }
}

/// The record, unless its type and subtype are `*/*`.
fn unless_any(mime: MimeType) -> Option<MimeType>
    ensures { result ≡ (if is_any_mime mime then None else Some mime) }
{
    if mime.main_type() == b"*".as_slice() && mime.subtype() == b"*".as_slice() {
        None
    } else {
        Some(mime)
    }
}

#[cfg(test)]
mod tests {
    use super::*;
    use crate::examples::Head;
    use std::test::Fail;

    /// Two values of Content-Type, and the type and subtype that they state.
    const ESSENCES: [(&str, &str, Option<(&str, &str)>); 8] = [
        ("text/html;x=\"a,b", "c\", text/css", Some(("text", "css"))),
        ("text/html;charset=gbk", "text/html", Some(("text", "html"))),
        ("text/HTML", "*/*", Some(("text", "HTML"))),
        ("text/html, text", "/", Some(("text", "html"))),
        ("text/html", "*/html", Some(("*", "html"))),
        ("*/*", "", None),
        ("text", "html", None),
        ("", "", None),
    ];

    #[test]
    fn last_part_gives_the_essence(rt: HostRuntime) -> Result<(), Fail> {
        for (first, second, expected) in ESSENCES {
            let head = Head::of(
                rt.alloc(),
                &[
                    ("Content-Type", first),
                    ("Accept", "a/b"),
                    ("content-type", second),
                ],
            )?;
            let fields = head.fields()?;
            let mut scratch = Scratch::open(rt.alloc(), fields.head.len())?;
            let found = extract_essence(&mut scratch, &fields);
            match (found, expected) {
                (Some(essence), Some((main, sub))) => {
                    assert!(rt; essence.main == main.as_bytes(), "{first}, {second}");
                    assert!(rt; essence.sub == sub.as_bytes(), "{first}, {second}");
                }
                (None, None) => {}
                _ => assert!(rt; false, "{first}, {second}"),
            }
        }
        Ok(())
    }

    /// The values of Content-Type, and the MIME type that they state: the examples of WHATWG Fetch 2.2 after the
    /// algorithm, and more.
    const STATED: [&str; 12] = [
        "text/plain;charset=gbk, text/html => text/html",
        "text/html;charset=gbk;a=b, text/html;x=y => text/html;x=y;charset=gbk",
        "text/html;charset=gbk;a=b | text/html;x=y => text/html;x=y;charset=gbk",
        "text/html;charset=gbk | x/x | text/html;x=y => text/html;x=y",
        "text/html | cannot-parse => text/html",
        "text/html | */* => text/html",
        "text/html |  => text/html",
        "text/html;charset=gbk | text/html => text/html;charset=gbk",
        "text/html;charset=a, text/css, text/html => text/html",
        "a/b;charset=c | A/B;charset=d | */* | a/B;e=f => a/b;e=f;charset=c",
        "a/b;charset=c | a/b;CHARSET=d => a/b;charset=d",
        "*/*;charset=c | a => none",
    ];

    /// The text of the MIME type that the fields state, or `none`.
    fn stated(alloc: Global, fields: &Fields, scratch: &mut Scratch) -> Result<Vec<u8>, Fail>
        requires fields { AreOfHead fields.now }
        requires room { length fields.now.head.now ≤ scratch.old }
    {
        let mut text = Vec::new(alloc);
        match extract_mime(alloc, fields, scratch)? {
            Some(mime) => mime.serialise_into(&mut text)?,
            None => text.extend_from_slice(b"none")?,
        }
        Ok(text)
    }

    #[test]
    fn charset_of_the_run_is_kept(rt: HostRuntime) -> Result<(), Fail> {
        for row in STATED {
            let (values, expected) = row.split_once(" => ").ok_or("a row")?;
            let mut pairs = Vec::new(rt.alloc());
            for value in values.split(" | ") {
                pairs.push(("Content-Type", value))?;
            }
            let head = Head::of(rt.alloc(), &pairs)?;
            let fields = head.fields()?;
            let mut scratch = Scratch::open(rt.alloc(), fields.head.len())?;
            let text = stated(rt.alloc(), &fields, &mut scratch)?;
            assert!(rt; text.as_slice() == expected.as_bytes(), "{row}");
        }
        Ok(())
    }
}
