//! MIME type records (WHATWG MIME Sniffing 4.1), and how a text is parsed to one (4.4).
ghost use Rattle.std.specs.Prelude.{◌≡◌, ◌↔◌, true, [], ◌∷◌, ◌++◌, IfSome};
ghost use Rattle.std.specs.Prelude.{option_map, option_copied, slice_get, IfOk, OnOk, OnErr, IsErrOf};
ghost use Rattle.orb_bytes.specs.Bytes.{AllPass, is_quoted_token_byte};
ghost use Rattle.mime_types.specs.declared.records.MimeError.TheVariants.{NoMemory as no_memory};
ghost use Rattle.mime_types.specs.Mime.{Mime, IsMime, HasNoMime};
ghost use Rattle.mime_types.specs.Records.{IsRecord, is_lowercase_token, value_of};
ghost use Rattle.mime_types.specs.Stored.{record_in};
ghost use Rattle.mime_types.specs.Text.{text_of};

use crate::essences::split_essence;
use crate::parameters::{Parameter, add_copy, find_parameter, read_parameters};
use crate::scanning::lowered;
use crate::text::append_text;
use orb_io::NoMemory;
use std::alloc::{AllocError, Global};
use std::marker::Model;
use thiserror::Error;

/// Why a text was not parsed.
#[derive(Clone, Copy, Debug, PartialEq, Eq, Error)]
pub enum MimeError {
    /// It is the text of no MIME type.
    #[error("not a MIME type")]
    NotMime,
    /// Memory ran out.
    #[error("out of memory")]
    NoMemory,
}

impl From<AllocError> for MimeError {
    ghost from_gives = { λ _ e. e ≡ no_memory };

    fn from(_error: AllocError) -> MimeError {
        MimeError::NoMemory
    }
}

/// A MIME type: a type, a subtype, and parameters in their order.
///
/// Type, subtype and names are tokens in ASCII lowercase, no two names are equal, and each value is
/// one that can stand between quotes.
#[derive(Debug, Drop)]
pub struct MimeType {
    main: Vec<u8>,
    sub: Vec<u8>,
    parameters: Vec<Parameter>,
}

impl Model for MimeType {
    ghost Value = { Mime };

    ghost view = { λ m. record_in m.main.items m.sub.items m.parameters.items };

    ghost invariant = { λ m. IsRecord (record_in m.main.items m.sub.items m.parameters.items) };
}

impl MimeType {
    /// The record of the text (WHATWG MIME Sniffing 4.4).
    ///
    /// # Errors
    /// [`MimeError::NotMime`] exactly where the text has no record, and [`MimeError::NoMemory`]
    /// where memory runs out.
    pub fn parse(alloc: Global, text: &[u8]) -> Result<MimeType, MimeError>
        ensures found { IfOk result (λ m. IsMime text.now m) }
        ensures not_mime { IsErrOf result MimeError.NotMime ↔ HasNoMime text.now }
    {
        let Some((main, sub, tail)) = split_essence(text) else {
            return Err(MimeError::NotMime);
        };
        let main = lowered(alloc, main)?;
        let sub = lowered(alloc, sub)?;
        let parameters = read_parameters(alloc, tail)?;
        Ok(MimeType {
            main,
            sub,
            parameters,
        })
    }

    /// The type, in ASCII lowercase.
    pub fn main_type(&self) -> &[u8]
        ensures value { result.now ≡ self.now.main }
        ensures valid { IsRecord self.now }
    {
        &self.main
    }

    /// The subtype, in ASCII lowercase.
    pub fn subtype(&self) -> &[u8]
        ensures value { result.now ≡ self.now.sub }
        ensures valid { IsRecord self.now }
    {
        &self.sub
    }

    /// The value of the parameter of this name; `None` exactly where none has it. Names are in
    /// small letters, and compared as they are.
    pub fn parameter(&self, name: &[u8]) -> Option<&[u8]>
        ensures value { option_copied result ≡ value_of name.now self.now.parameters }
        ensures quoted { IfSome result (λ v. AllPass is_quoted_token_byte v.now) }
    {
        let found = find_parameter(&self.parameters, name)?;
        Some(&found.value)
    }

    /// The name and value of the parameter at this index, counted from 0; `None` exactly where
    /// there are no more than `index` parameters.
    pub fn parameter_at(&self, index: usize) -> Option<(&[u8], &[u8])>
        ensures { option_map (λ x. (x.0.now, x.1.now)) result
            ≡ slice_get self.now.parameters index }
    {
        let found = self.parameters.get(index)?;
        Some((&found.name, &found.value))
    }

    /// Adds a parameter after the others, whose name is a token in ASCII lowercase that no other
    /// has, and whose value can stand between quotes.
    ///
    /// # Errors
    /// [`NoMemory`] where memory runs out; the MIME type is then as before.
    pub fn add_parameter(&mut self, name: &[u8], value: &[u8]) -> Result<(), NoMemory>
        requires name { is_lowercase_token name.now ≡ true }
        requires value { AllPass is_quoted_token_byte value.now }
        requires new { value_of name.now self.old.parameters ≡ None }
        ensures ok { OnOk result (self.new
            ≡ record self.old { parameters = self.old.parameters ++ (name.now, value.now) ∷ [] }) }
        ensures err { OnErr result (self.new ≡ self.old) }
    {
        add_copy(&mut self.parameters, name, value).map_err(|_| NoMemory)
    }

    /// Appends the text of this MIME type (WHATWG MIME Sniffing 4.5).
    ///
    /// # Errors
    /// [`NoMemory`] where memory runs out; `out` is then as before.
    pub fn serialise_into(&self, out: &mut Vec<u8>) -> Result<(), NoMemory>
        ensures ok { OnOk result (out.new.items ≡ out.old.items ++ text_of self.now) }
        ensures err { OnErr result (out.new.items ≡ out.old.items) }
    {
        let mut text = Vec::new(*out.allocator());
        append_text(&mut text, &self.main, &self.sub, &self.parameters).map_err(|_| NoMemory)?;
        out.extend_from_slice(&text).map_err(|_| NoMemory)
    }
}

/// The law that the text of each valid record is parsed to that record.
pub fn text_is_parsed()
    ensures { (m : Mime) → IsRecord m → IsMime (text_of m) m }
{}

#[cfg(test)]
mod tests {
    use super::*;
    use std::test::Fail;

    /// A text, and that of its record: examples of WHATWG MIME Sniffing 4.4, of its tests, and more.
    const TEXTS: [&str; 19] = [
        r#"text/plain;a="\"";a=2;b= => text/plain;a="\"""#,
        r#"TEXT/HTML;Charset="utf-8" ;x=1 2 => text/html;charset=utf-8;x="1 2""#,
        r#"a/b;c="d\ => a/b;c="d\\""#,
        r#"text/plain;a="b;c" => text/plain;a="b;c""#,
        r#"text/html;charset=gbk( => text/html;charset="gbk(""#,
        r#"text/html;x=(;charset=gbk => text/html;x="(";charset=gbk"#,
        r#"text/html;charset=gbk;charset=windows-1255 => text/html;charset=gbk"#,
        r#"text/html;charset=();charset=GBK => text/html;charset="()""#,
        r#"text/html;charset =gbk => text/html"#,
        r#"text/html ;charset=gbk => text/html;charset=gbk"#,
        r#"text/html; charset=gbk => text/html;charset=gbk"#,
        r#"text/html;charset= gbk => text/html;charset=" gbk""#,
        r#"text/html;charset= "gbk" => text/html;charset=" \"gbk\"""#,
        r#"text/html;';charset=gbk => text/html;charset=gbk"#,
        r#"text/html;test;charset=gbk => text/html;charset=gbk"#,
        r#"text/html;;;;charset=gbk => text/html;charset=gbk"#,
        r#"text/html;charset="";charset=GBK => text/html;charset="""#,
        r#"text/html;charset="\ gbk" => text/html;charset=" gbk""#,
        r#"text/html;charset="gbk"x => text/html;charset=gbk"#,
    ];

    /// Whether the text is parsed to a record of this text.
    fn parses_to(alloc: Global, text: &[u8], expected: &[u8]) -> Result<bool, Fail> {
        let mut written = Vec::new(alloc);
        MimeType::parse(alloc, text)?.serialise_into(&mut written)?;
        Ok(written.as_slice() == expected)
    }

    #[test]
    fn texts_are_parsed_and_written(rt: HostRuntime) -> Result<(), Fail> {
        for row in TEXTS {
            let (text, expected) = row.split_once(" => ").ok_or("a row")?;
            let same = parses_to(rt.alloc(), text.as_bytes(), expected.as_bytes())?;
            assert!(rt; same, "{text}");
        }
        Ok(())
    }

    #[test]
    fn bytes_that_are_no_ascii_are_quoted(rt: HostRuntime) -> Result<(), Fail> {
        let same = parses_to(rt.alloc(), b"a/b;c=\xff", b"a/b;c=\"\xff\"")?;
        assert!(rt; same);
        Ok(())
    }

    #[test]
    fn texts_without_a_record(rt: HostRuntime) {
        for text in [
            "",
            "text",
            "text/",
            "/html",
            "te(t/html",
            "text/html(;doesnot=matter",
        ] {
            let none = matches!(
                MimeType::parse(rt.alloc(), text.as_bytes()),
                Err(MimeError::NotMime)
            );
            assert!(rt; none, "{text}");
        }
    }

    #[test]
    fn parameters_are_found(rt: HostRuntime) -> Result<(), Fail> {
        let mut mime = MimeType::parse(rt.alloc(), b"A/B;X=1;y=\"\";x=2")?;
        assert_eq!(rt; mime.main_type(), b"a".as_slice());
        assert_eq!(rt; mime.subtype(), b"b".as_slice());
        assert!(rt; mime.parameter(b"x") == Some(b"1".as_slice()));
        assert!(rt; mime.parameter(b"y") == Some(b"".as_slice()));
        assert!(rt; mime.parameter(b"X").is_none());
        assert!(rt; mime.parameter_at(1) == Some((b"y".as_slice(), b"".as_slice())));
        assert!(rt; mime.parameter_at(2).is_none());
        assert!(rt; mime.parameter(b"z").is_none());
        mime.add_parameter(b"z", b"3 4")?;
        assert!(rt; mime.parameter_at(2) == Some((b"z".as_slice(), b"3 4".as_slice())));
        Ok(())
    }
}
