//! MIME types: records, the texts that write them, and the groups that a filter asks for.
//!
//! `specs/Mime` defines which record a text has, as WHATWG MIME Sniffing 4.4 parses it,
//! `specs/Text` the text of a record (4.5), and `specs/Sets` the groups. [`MimeType::parse`]
//! makes the record, with its parameters. Where only the type and subtype count, [`essence_of`]
//! finds them and takes no memory; the functions beside it tell whether they are of a group.
#![tactic(auto)]

mod essences;
mod groups;
mod parameters;
mod records;
mod scanning;
mod text;
mod values;

pub use essences::{Essence, essence_of, one_record};
pub use groups::{
    is_among, is_blocklisted, is_html, is_javascript, is_json, is_media, is_never_sniffed,
    is_safelisted, is_text_plain, is_xml,
};
pub use records::{MimeError, MimeType, text_is_parsed};
