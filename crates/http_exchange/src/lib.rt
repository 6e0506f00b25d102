//! The heads and bodies of HTTP/1.1 exchanges (RFC 9112) as they are sent.
//!
//! `specs/Head` says where a head ends, and `specs/Heads` which bytes are a head: the grammar is that
//! of `httparse`, and the whole text has to be one head with at most 128 fields. What is read of one,
//! [`read_request`] and [`read_response`], is said by its fields alone: `specs/RequestFields` and
//! `specs/ResponseFields`. The parts of a request head as they stand in it (`specs/Parts`) are what [`request_parts`] gives.
//!
//! A [`HeadReader`] gathers a head from pieces up to its limit (`specs/Gathering`).
//!
//! `specs/Frames` says which bytes are a body, and which of them are content; of chunked bodies
//! `specs/Chunked` has the grammar. An [`Unframer`] reads a body in pieces, cut anywhere, and a
//! [`Framer`] puts one into a sink (`specs/Framing`): one that is chunked in chunks of 1,024 bytes (`specs/Chunks`).
#![tactic(auto)]

mod ends;
mod frames;
mod framing;
mod gathering;
mod pieces;
mod places;
mod refusals;
mod request;
mod response;
mod settled;
mod spans;
#[cfg(test)]
mod tests;
mod unframing;
mod values;

pub use ends::head_end;
pub use frames::BodyFrame;
pub use framing::Framer;
pub use gathering::{HeadReader, HeadTaken};
pub use pieces::Taken;
pub use refusals::BadKind;
pub use request::{RequestHead, RequestParts, read_request, request_parts};
pub use response::{ResponseHead, read_response};
pub use settled::{
    head_length_stays, one_request, one_response, prefixes_of_bodies, unframed_is_prefix,
};
pub use unframing::Unframer;
